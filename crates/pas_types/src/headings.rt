//! Headings of routines (ISO 7185, 6.6, in this project's profile).
ghost use Rattle.std.specs.Prelude.{◌≡◌, ◌∷◌, [], ℕ, List, Some, None, option_map, IfOk, OnOk, OnErr, IfSome, IsSome};
ghost use Rattle.std.specs.Option.{option_copied};
ghost use Rattle.pas_syntax.specs.Views.{spelled_in, ident_in, behind_in, if_there};
ghost use Rattle.pas_syntax.specs.ProgramViews.{parameter_in, parameters_in, type_name_in, heading_in};
ghost use Rattle.pas_syntax.specs.Words.{Word, name_at, words_if, parameter_words, parameters_words, result_words};
ghost use Rattle.pas_typed.specs.TypeViews.{type_view};
ghost use Rattle.pas_typed.specs.TypedViews.{mode_view, heading_view};
ghost use Rattle.wb_base.specs.declared.faults.TheConstants.{WRONG_TYPE};
ghost use Rattle.pas_tokens.specs.Cutting.{wrong};
ghost use Rattle.pas_rules.specs.Marks.{unless, checked};
ghost use Rattle.pas_rules.specs.Routines as spec;
ghost use Rattle.pas_scopes.specs.declared.scopes.Inner.{Inner as CodeInner};
ghost use Rattle.pas_rules.specs.Scopes as name;
ghost use Rattle.pas_rules.specs.Scopes.{with_new};
ghost use Rattle.pas_scopes.specs.ScopeViews.{outer_view, inner_view, made_view};
ghost use Rattle.pas_scopes.specs.Locals.{IsWithin};
ghost use Rattle.pas_types.specs.inner.RoutineAnswers.{sort_view, parts_in, PassesFormals, IsOrdinal};
ghost use Rattle.pas_rules.specs.HeadingWords.{rest_words};
ghost use Rattle.pas_types.specs.inner.RoutineAnswers.{IsResult, IsNewRoutine, PassesHeading, result_told, AddsRoutine};
ghost use Rattle.pas_types.specs.inner.RoutineAnswers.{IsReady, HeadsBy, IsSecond, awaited_at};
ghost use Rattle.pas_rules.specs.HeadingWords.{parts_words};

use pas_rules::ROUTINE_LIMIT;
use pas_scopes::locals::add_locals;
use pas_scopes::name_sets::NameSet;
use pas_scopes::names::Entity;
use pas_scopes::new_names::{Region, new_alone, new_names};
use pas_scopes::scopes::{Inner, KnownRoutine, Scopes};
use pas_scopes::simple_types::type_named;
use pas_scopes::stop::{Stop, count_of, demand, fault};
use pas_syntax::tree::{Behind, Heading, Ident, Parameter, Parameters, Routine};
use pas_typed::typed::{Heading as TypedHeading, Mode};
use pas_typed::types::PasType;
use sqlite_items::Items;
use wb_base::OutOfMemory;
use wb_base::faults::{TOO_LARGE, WRONG_TYPE};

// Whether a routine is a procedure or a function.
#[derive(Clone, Copy)]
pub(crate) enum Sort {
    Procedure,
    Function,
}

// The parts of a heading, and the line of the semicolon behind it.
#[derive(Clone, Copy)]
pub(crate) struct HeadingParts<'t> {
    pub(crate) sort: Sort,
    pub(crate) name: Ident,
    pub(crate) parameters: Option<&'t Parameters>,
    pub(crate) result: Option<Behind<Ident>>,
    pub(crate) end: u32,
}

// The parts of the heading of a routine.
pub(crate) fn head_of(routine: &Routine) -> HeadingParts<'_>
    ensures parts { (spellings : List ℕ)
        → parts_in spellings result ≡ spec.head_of (heading_in spellings routine.now.heading) }
    ensures end { result.end ≡ routine.now.behind_heading }
{
    let end = routine.behind_heading;
    match &routine.heading {
        Heading::Procedure(_, name, parameters) => HeadingParts {
            sort: Sort::Procedure,
            name: *name,
            parameters: parameters.as_ref(),
            result: None,
            end,
        },
        Heading::Function(_, name, parameters, result) => HeadingParts {
            sort: Sort::Function,
            name: *name,
            parameters: parameters.as_ref(),
            result: *result,
            end,
        },
    }
}

// Declares the routine of a first heading, and tells its number.
pub(crate) fn first_heading(scopes: &mut Scopes<'_>, head: HeadingParts<'_>) -> Result<u32, Stop>
    ensures heads { (word : Word) → IsReady scopes.old → HeadsBy
        (parts_words word (parts_in scopes.old.spellings.now head.entry) head.entry.end)
        (spec.first_heading (outer_view scopes.old) (parts_in scopes.old.spellings.now head.entry)) scopes.new
        result }
    ensures names { IfOk result (λ number. scopes.new.names ≡ with_new scopes.old.names
        (spelled_in scopes.old.spellings.now head.entry.name.span) (name.routine number)) }
    ensures err { OnErr result (scopes.new.names ≡ scopes.old.names) }
    ensures kept { scopes.new ≡ record scopes.old {
      names = scopes.new.names;
      routines = scopes.new.routines;
      inner = scopes.new.inner;
    } }
{
    let number = new_routine(scopes, head.name)?;
    scopes.inner = Some(Inner::new(scopes.alloc, number));
    let found = behind_name(scopes, head)?;
    add_routine(scopes, head.name, number, told_result(head.sort, found))?;
    Ok(number)
}

// Refuses more than the name in a heading behind its forward heading.
pub(crate) fn second_heading(scopes: &Scopes<'_>, head: HeadingParts<'_>) -> Result<(), Stop>
    ensures { (word : Word) (number : ℕ) → IsSecond
        (parts_words word (parts_in scopes.now.spellings.now head.entry) head.entry.end)
        (spec.second_heading (outer_view scopes.now) (parts_in scopes.now.spellings.now head.entry) number).marks
        result }
{
    match (head.parameters, head.result) {
        (Some(parameters), _) => Err(fault(WRONG_TYPE, parameters.opened)),
        (None, Some(result)) => Err(fault(WRONG_TYPE, result.line)),
        (None, None) => Ok(()),
    }
}

// The number of the routine of this sort that the name of a heading stands for, if its body is still to come.
pub(crate) fn awaited(scopes: &Scopes<'_>, head: HeadingParts<'_>) -> Option<u32>
    ensures number { result
        ≡ spec.awaited (outer_view scopes.now) (parts_in scopes.now.spellings.now head.entry) }
    ensures waits { IfSome result (λ number. IsSome (awaited_at scopes.now.routines.items number)) }
{
    match scopes.names.get(scopes.spelling(head.name.span)) {
        Some(Entity::Routine(number)) => awaited_routine(scopes, head.sort, number),
        _ => None,
    }
}

// The number of a routine of this sort, if its body is still to come.
fn awaited_routine(scopes: &Scopes<'_>, sort: Sort, number: u32) -> Option<u32>
    ensures number { result ≡ spec.awaited_by (outer_view scopes.now) (sort_view sort) (name.routine number) }
    ensures waits { IfSome result (λ found. IsSome (awaited_at scopes.now.routines.items found)) }
{
    match scopes.routines.get(number as usize) {
        Some(known) => {
            if known.awaited.is_some() && is_of_sort(sort, &known.heading) {
                Some(number)
            } else {
                None
            }
        }
        None => None,
    }
}

// Whether a heading is one of this sort.
fn is_of_sort(sort: Sort, heading: &TypedHeading) -> bool
    ensures { (spellings : List ℕ) → result ≡ spec.is_of_sort (sort_view sort) (heading_view spellings heading.now) }
{
    match sort {
        Sort::Procedure => heading.result.is_none(),
        Sort::Function => heading.result.is_some(),
    }
}

// What a heading of this sort tells of its result.
fn told_result(sort: Sort, found: Option<PasType>) -> Option<PasType>
    ensures { option_map type_view result ≡ result_told (sort_view sort) (option_map type_view found) }
{
    match sort {
        Sort::Procedure => None,
        Sort::Function => found,
    }
}

// Adds a routine of which the heading has made the scope. That waits for the body.
fn add_routine(
    scopes: &mut Scopes<'_>,
    ident: Ident,
    number: u32,
    told: Option<PasType>,
) -> Result<(), OutOfMemory>
    ensures adds { OnOk result ((inner : CodeInner) → scopes.old.inner ≡ Some inner
        → AddsRoutine scopes.old scopes.new inner ident number told) }
    ensures names { OnOk result (scopes.new.names ≡ with_new scopes.old.names
        (spelled_in scopes.old.spellings.now ident.span) (name.routine number)) }
    ensures err { OnErr result (scopes.new.names ≡ scopes.old.names) }
    ensures kept { scopes.new ≡ record scopes.old {
      names = scopes.new.names;
      routines = scopes.new.routines;
      inner = scopes.new.inner;
    } }
{
    if let Some(inner) = scopes.inner.take() {
        let parameters = Items::from_slice(scopes.alloc, inner.variables.as_slice())?;
        let heading = TypedHeading {
            name: ident.span,
            result: told,
            parameters,
        };
        let awaited = Some(inner);
        scopes.routines.push(KnownRoutine { heading, awaited })?;
    }
    let name = scopes.spelling(ident.span);
    scopes.names.declare(name, Entity::Routine(number))?;
    Ok(())
}

// The number of the routine of a first heading. Its name is not declared yet, and there are not too many routines.
fn new_routine(scopes: &Scopes<'_>, ident: Ident) -> Result<u32, Stop>
    ensures { IsNewRoutine (outer_view scopes.now) (ident_in scopes.now.spellings.now ident) result }
{
    let count = scopes.routines.len();
    new_alone(scopes, Region::Program, ident)?;
    demand(count < ROUTINE_LIMIT as usize, TOO_LARGE, ident.line)?;
    Ok(count_of(count)?)
}

// What stands behind the name of a first heading: the type of the result, if one is given.
fn behind_name(scopes: &mut Scopes<'_>, head: HeadingParts<'_>) -> Result<Option<PasType>, Stop>
    ensures passes { (inner : CodeInner) → IsWithin inner scopes.old → PassesHeading
        (rest_words (parts_in scopes.old.spellings.now head.entry) head.entry.end)
        (spec.formals_of (outer_view scopes.old) (inner_view scopes.old.spellings.now inner)
        (parts_in scopes.old.spellings.now head.entry).parameters)
        (parts_in scopes.old.spellings.now head.entry).result
        (spec.result_part (outer_view scopes.old) (spec.formals_of (outer_view scopes.old)
        (inner_view scopes.old.spellings.now inner) (parts_in scopes.old.spellings.now head.entry).parameters).inner
        (parts_in scopes.old.spellings.now head.entry).result)
        (spec.missing_result (sort_view head.entry.sort) (parts_in scopes.old.spellings.now head.entry).result)
        (made_view scopes.old) scopes.new result }
    ensures kept { scopes.new ≡ record scopes.old { inner = scopes.new.inner } }
{
    formals_of(scopes, head.parameters)?;
    let result = result_of(scopes, head.result)?;
    demand(tells_result(head), WRONG_TYPE, head.end)?;
    Ok(result)
}

// Whether a heading tells the type of a result where it must.
fn tells_result(head: HeadingParts<'_>) -> bool
    ensures { (spellings : List ℕ) → spec.missing_result (sort_view head.entry.sort)
        (parts_in spellings head.entry).result ≡ unless result (wrong WRONG_TYPE) }
{
    match (head.sort, head.result) {
        (Sort::Function, None) => false,
        _ => true,
    }
}

// The type of the result of a function, if one is given.
fn result_of(scopes: &Scopes<'_>, given: Option<Behind<Ident>>) -> Result<Option<PasType>, Stop>
    ensures { (inner : CodeInner) → IsWithin inner scopes.now → IsResult
        (if_there (behind_in (type_name_in scopes.now.spellings.now)) given)
        (words_if result_words (if_there (behind_in (type_name_in scopes.now.spellings.now)) given))
        (spec.result_part (outer_view scopes.now) (inner_view scopes.now.spellings.now inner)
        (if_there (behind_in (type_name_in scopes.now.spellings.now)) given)) (made_view scopes.now) result }
{
    match given {
        Some(behind) => Ok(Some(result_type(scopes, behind.item)?)),
        None => Ok(None),
    }
}

// The type of a result with this name, which is ordinal.
fn result_type(scopes: &Scopes<'_>, ident: Ident) -> Result<PasType, Stop>
    ensures { (inner : CodeInner) → IsWithin inner scopes.now → IsOrdinal
        (name_at 0 (ident_in scopes.now.spellings.now ident) ∷ [])
        (checked spec.ordinal_result (spec.type_in_heading (outer_view scopes.now)
        (inner_view scopes.now.spellings.now inner) (type_name_in scopes.now.spellings.now ident)))
        (made_view scopes.now) result }
{
    let found = type_named(scopes, ident)?;
    let is_ordinal = scopes.types.range_of(found.value).is_some();
    found.noted(is_ordinal, WRONG_TYPE).settled()
}

// Declares the parameters of a routine.
fn formals_of(scopes: &mut Scopes<'_>, parameters: Option<&Parameters>) -> Result<(), Stop>
    ensures passes { (inner : CodeInner) → IsWithin inner scopes.old → PassesFormals
        (words_if parameters_words
        (if_there (parameters_in scopes.old.spellings.now) (option_copied parameters.entry)))
        (spec.formals_of (outer_view scopes.old) (inner_view scopes.old.spellings.now inner)
        (if_there (parameters_in scopes.old.spellings.now) (option_copied parameters.entry))) scopes.new result }
    ensures kept { scopes.new ≡ record scopes.old { inner = scopes.new.inner } }
{
    match parameters {
        Some(parameters) => all_formals(scopes, parameters),
        None => Ok(()),
    }
}

// Declares parameters between parentheses.
fn all_formals(scopes: &mut Scopes<'_>, parameters: &Parameters) -> Result<(), Stop>
    ensures passes { (inner : CodeInner) → IsWithin inner scopes.old → PassesFormals
        (parameters_words (parameters_in scopes.old.spellings.now parameters.now))
        (spec.formals_of (outer_view scopes.old) (inner_view scopes.old.spellings.now inner)
        (Some (parameters_in scopes.old.spellings.now parameters.now))) scopes.new result }
    ensures kept { scopes.new ≡ record scopes.old { inner = scopes.new.inner } }
{
    formal_of(scopes, &parameters.items.first)?;
    for behind in parameters.items.more.as_slice() {
        formal_of(scopes, &behind.item)?;
    }
    Ok(())
}

// Declares parameters of one type.
fn formal_of(scopes: &mut Scopes<'_>, parameter: &Parameter) -> Result<(), Stop>
    ensures passes { (inner : CodeInner) → IsWithin inner scopes.old → PassesFormals
        (parameter_words 1 (parameter_in scopes.old.spellings.now parameter.now))
        (spec.parameter_of (outer_view scopes.old) (inner_view scopes.old.spellings.now inner)
        (parameter_in scopes.old.spellings.now parameter.now)) scopes.new result }
    ensures kept { scopes.new ≡ record scopes.old { inner = scopes.new.inner } }
{
    let mut before = NameSet::new(scopes.alloc);
    new_names(scopes, Region::Routine, &mut before, &parameter.names)?;
    let found = type_named(scopes, parameter.type_name)?;
    add_locals(scopes, &parameter.names, mode_of(parameter.by_name), found)
}

// How parameters are passed, by the line of `var` before them, if it is there.
fn mode_of(by_name: Option<u32>) -> Mode
    ensures { mode_view result ≡ spec.mode_of by_name }
{
    match by_name {
        Some(_) => Mode::ByName,
        None => Mode::ByValue,
    }
}
