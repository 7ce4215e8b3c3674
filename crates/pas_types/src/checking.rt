//! How programs are checked (ISO 7185, 6.10, in this project's profile).
ghost use Rattle.std.specs.Prelude.{◌≡◌, ℕ, List, [], ◌∷◌, ◌++◌, map, fold, None, IfOk, OnOk};
ghost use Rattle.std.specs.Prelude.{position, option_to_list, is_none, Bool, if◌then◌else◌};
ghost use Rattle.wb_base.specs.declared.faults.TheConstants.{WRONG_TYPE as WRONG_TYPE_CODE};
ghost use Rattle.wb_base.specs.declared.faults.TheConstants.{UNKNOWN_NAME as UNKNOWN_NAME_CODE};
ghost use Rattle.std.specs.List.{list_all};
ghost use Rattle.std.specs.Str.{bytes_eq};
ghost use Rattle.std.specs.Option.{option_copied};
ghost use Rattle.pas_syntax.specs.Tree as tree;
ghost use Rattle.pas_syntax.specs.Views.{if_there, spelled_in, ident_in, separated_in, numeral_in};
ghost use Rattle.pas_syntax.specs.ProgramViews.{labels_in, program_parameters_in, program_in, compound_in};
ghost use Rattle.pas_syntax.specs.Words.{statements_words};
ghost use Rattle.pas_typed.specs.Typed as typed;
ghost use Rattle.pas_typed.specs.TypedViews.{statements_view};
ghost use Rattle.pas_rules.specs.Marks.{Judged as SpecJudged};
ghost use Rattle.pas_rules.specs.Declarations.{numerals_of, declared_labels};
ghost use Rattle.pas_rules.specs.Labels.{labels_of_list, labels_in_list};
ghost use Rattle.pas_rules.specs.Routines.{all_stand as all_labels_stand};
ghost use Rattle.pas_rules.specs.Statements as statement_spec;
ghost use Rattle.pas_rules.specs.Scopes.{contains};
ghost use Rattle.pas_rules.specs.Check as spec;
ghost use Rattle.pas_scopes.specs.NameViews.{entity_view};
ghost use Rattle.pas_rules.specs.Scopes.{with_name};
ghost use Rattle.pas_scopes.specs.ScopeViews.{scopes_view, IsClear};
ghost use Rattle.pas_scopes.specs.Answers.{Settles};
ghost use Rattle.pas_scopes.specs.DeclaredSoFar.{IsDeclared};
ghost use Rattle.pas_types.specs.inner.LabelViews.{known_labels};
ghost use Rattle.pas_types.specs.inner.Checking.{HasParameters, main_words, main_part, lacking, stop_at, IsWhole};
ghost use Rattle.pas_types.specs.inner.Checking.{IsParameter, AreParameters, IsHeading};

use crate::flow::Flow;
use crate::labels::{Labels, label_at_end};
use crate::statements::statements_of;
use pas_scopes::globals::add_global;
use pas_scopes::name_sets::NameSet;
use pas_scopes::names::Entity;
use pas_scopes::new_names::is_standard;
use pas_scopes::scopes::{Scopes, idents_of};
use pas_scopes::stop::{Stop, count_of, demand, fault};
use pas_syntax::tree::{
    Compound, Ident, Idents, Labels as LabelPart, Numeral, ProgramHead, ProgramTree, Separated,
};
use pas_typed::typed::Statements;
use pas_typed::types::PasType;
use sqlite_items::Items;
use std::alloc::{AllocError, Global};
use wb_base::OutOfMemory;
use wb_base::faults::{DUPLICATE_NAME, FILE_RULE, UNKNOWN_NAME, WRONG_LABEL, WRONG_TYPE};

// The scopes of a program before its declarations.
pub(crate) fn started<'p>(
    alloc: Global,
    spellings: &'p [u8],
    tree: &ProgramTree,
) -> Result<Scopes<'p>, OutOfMemory>
    ensures declared { IfOk result (λ scopes. IsDeclared (spec.start (program_in spellings.now tree.now)) scopes
        None) }
    ensures spellings { IfOk result (λ scopes. scopes.spellings.now ≡ spellings.now) }
{
    let mut scopes = Scopes::new(alloc, spellings);
    let parameters = parameters_of(alloc, &tree.head)?;
    add_parameters(&mut scopes, parameters.as_slice())?;
    scopes.labels = label_numbers(alloc, tree.declarations.labels.as_ref())?;
    scopes.last_label = label_at_end(&tree.body.list);
    scopes.cells = scopes.globals.len() as u64;
    Ok(scopes)
}

// The parameters of a program.
pub(crate) fn parameters_of(alloc: Global, head: &ProgramHead) -> Result<Items<Ident>, AllocError>
    ensures { (spellings : List ℕ) → IfOk result (λ idents. map (ident_in spellings) idents
        ≡ spec.parameter_idents (if_there (program_parameters_in spellings) head.now.parameters)) }
{
    match &head.parameters {
        Some(parameters) => idents_of(alloc, &parameters.names),
        None => Ok(Items::new(alloc)),
    }
}

// Takes names as those of the parameters of the program.
fn add_parameters(scopes: &mut Scopes<'_>, idents: &[Ident]) -> Result<(), OutOfMemory>
    ensures has { OnOk result ((before : List (List ℕ)) → HasParameters before scopes.old → HasParameters
        (fold with_name before (map (λ ident. spelled_in scopes.old.spellings.now ident.span) idents.now))
        scopes.new) }
    ensures kept { scopes.new ≡ record scopes.old {
      parameters = scopes.new.parameters;
      names = scopes.new.names;
      globals = scopes.new.globals;
    } }
{
    for ident in idents {
        add_parameter(scopes, *ident)?;
    }
    Ok(())
}

// Takes a name as that of a parameter of the program. A text that needs no other declaration is declared so.
fn add_parameter(scopes: &mut Scopes<'_>, ident: Ident) -> Result<(), OutOfMemory>
    ensures has { OnOk result ((before : List (List ℕ)) → HasParameters before scopes.old
        → HasParameters (with_name before (spelled_in scopes.old.spellings.now ident.span)) scopes.new) }
    ensures kept { scopes.new ≡ record scopes.old {
      parameters = scopes.new.parameters;
      names = scopes.new.names;
      globals = scopes.new.globals;
    } }
{
    let name = scopes.spelling(ident.span);
    let is_new = scopes.parameters.add(name)?;
    if is_new && is_standard(name) {
        add_global(scopes, ident, PasType::Text)
    } else {
        Ok(())
    }
}

// The labels that a part of the declarations declares, as they stand there.
pub(crate) fn label_numbers(
    alloc: Global,
    part: Option<&LabelPart>,
) -> Result<Items<u32>, AllocError>
    ensures { (spellings : List ℕ) → IfOk result (λ numbers. numbers
        ≡ declared_labels (if_there (labels_in spellings) (option_copied part.entry))) }
{
    match part {
        Some(part) => values_of(alloc, &part.numbers),
        None => Ok(Items::new(alloc)),
    }
}

// The values of numerals, one after another.
fn values_of(alloc: Global, numerals: &Separated<Numeral>) -> Result<Items<u32>, AllocError>
    ensures { IfOk result (λ values. values
        ≡ map (λ numeral. numeral.value) (numerals_of (separated_in numeral_in numerals.now))) }
{
    let mut values = Items::new(alloc);
    values.push(numerals.first.value)?;
    for behind in numerals.more.as_slice() {
        values.push(behind.item.value)?;
    }
    Ok(values)
}

// What the statements of a program mean, of which these are the labels.
pub(crate) fn main_of(
    scopes: &Scopes<'_>,
    labels: Labels,
    body: &Compound,
) -> Result<Statements, Stop>
    ensures { IsClear (scopes_view scopes.now) → scopes.now.inner ≡ None
        → labels ≡ known_labels (scopes_view scopes.now).outer.labels [] [] → (dot end : ℕ)
        → IsWhole (main_words (compound_in scopes.now.spellings.now body.now) dot end)
        (main_part (spec.have_bodies (scopes_view scopes.now).outer.routines)
        (all_labels_stand (labels_in_list (compound_in scopes.now.spellings.now body.now).list)
        (scopes_view scopes.now).outer.labels)
        (statement_spec.statements_of (scopes_view scopes.now)
        (labels_of_list (compound_in scopes.now.spellings.now body.now).list) []
        (compound_in scopes.now.spellings.now body.now).list))
        (statements_view scopes.now.spellings.now) result }
{
    let mut flow = Flow {
        block: labels,
        program: None,
    };
    let found = statements_of(scopes, &mut flow, &body.list);
    ended(found, have_bodies(scopes), flow.block.all_stand(), body.end)
}

// What the statements of a program mean, behind which the `end` in this line shows what is missing.
fn ended(
    found: Result<Statements, Stop>,
    has_bodies: bool,
    all_stand: bool,
    end: u32,
) -> Result<Statements, Stop>
    ensures { (spellings : List ℕ) (body : tree.Compound) (dot last : ℕ) (part : SpecJudged typed.Statements)
        (stands : Bool) → body.end ≡ end → OnOk found (all_stand ≡ stands)
        → Settles (statements_words 1 body.list) part (statements_view spellings) found
        → IsWhole (main_words body dot last) (main_part has_bodies stands part) (statements_view spellings)
        result }
{
    match found {
        Ok(statements) => {
            lacks(has_bodies, all_stand, end)?;
            Ok(statements)
        }
        Err(stop) => Err(stopped(stop, has_bodies, end)),
    }
}

// What the `end` in this line shows: that a forward heading has no body, or that a label stands nowhere.
fn lacks(has_bodies: bool, all_stand: bool, end: u32) -> Result<(), Stop>
    ensures { result ≡ lacking has_bodies all_stand end }
{
    demand(has_bodies, UNKNOWN_NAME, end)?;
    demand(all_stand, WRONG_LABEL, end)
}

// Why checking stops in the statements of a program. Where something is missing before the `end` in this line, that
// shows it, or that a forward heading has no body.
fn stopped(stop: Stop, has_bodies: bool, end: u32) -> Stop
    ensures { result ≡ stop_at (if has_bodies then WRONG_TYPE_CODE else UNKNOWN_NAME_CODE) end stop }
{
    let code = if has_bodies { WRONG_TYPE } else { UNKNOWN_NAME };
    match stop {
        Stop::Missing => fault(code, end),
        stop => stop,
    }
}

// Whether each forward heading has its body.
fn have_bodies(scopes: &Scopes<'_>) -> bool
    ensures { result ≡ list_all (λ known. is_none known.awaited) scopes.now.routines.items }
{
    scopes.routines.iter().all(|known| known.awaited.is_none())
}

// Each parameter of a program is a variable of its scope, of a lawful file type, and stands once.
pub(crate) fn parameters_stand(scopes: &Scopes<'_>, head: &ProgramHead) -> Result<(), Stop>
    ensures { IsHeading (scopes_view scopes.now).outer
        (if_there (program_parameters_in scopes.now.spellings.now) head.now.parameters) result }
{
    match &head.parameters {
        Some(parameters) => each_stands(scopes, &parameters.names),
        None => Ok(()),
    }
}

// The same of these parameters.
fn each_stands(scopes: &Scopes<'_>, idents: &Idents) -> Result<(), Stop>
    ensures { AreParameters (scopes_view scopes.now).outer []
        (separated_in (ident_in scopes.now.spellings.now) idents.now) result }
{
    let mut before = NameSet::new(scopes.alloc);
    parameter_stands(scopes, &mut before, idents.first)?;
    for behind in idents.more.as_slice() {
        parameter_stands(scopes, &mut before, behind.item)?;
    }
    Ok(())
}

// The same of a parameter behind these, behind which it is put.
fn parameter_stands<'p>(
    scopes: &Scopes<'p>,
    before: &mut NameSet<'p>,
    ident: Ident,
) -> Result<(), Stop>
    ensures answer { IsParameter (scopes_view scopes.now).outer before.old
        (ident_in scopes.now.spellings.now ident) result }
    ensures ok { OnOk result (before.new ≡ before.old ++ spelled_in scopes.now.spellings.now ident.span ∷ []) }
{
    let name = scopes.spelling(ident.span);
    only_parameter(scopes, before.has(name), ident)?;
    before.add(name)?;
    Ok(())
}

// The same of a parameter that stands before or not.
fn only_parameter(scopes: &Scopes<'_>, is_there: bool, ident: Ident) -> Result<(), Stop>
    ensures { (before : List (List ℕ)) → is_there ≡ contains before
        (spelled_in scopes.now.spellings.now ident.span) → IsParameter (scopes_view scopes.now).outer before
        (ident_in scopes.now.spellings.now ident) result }
{
    match scopes.names.get(scopes.spelling(ident.span)) {
        Some(entity) => {
            demand(!is_there, DUPLICATE_NAME, ident.line)?;
            demand(is_file_variable(scopes, entity), FILE_RULE, ident.line)
        }
        None => Err(fault(UNKNOWN_NAME, ident.line)),
    }
}

// Whether a name that stands for this may be that of a parameter.
fn is_file_variable(scopes: &Scopes<'_>, entity: Entity) -> bool
    ensures { result ≡ spec.is_file_variable (scopes_view scopes.now).outer.types (entity_view entity) }
{
    match entity {
        Entity::Variable(slot) => scopes.types.is_lawful_file(slot.pas_type),
        _ => false,
    }
}

// The numbers of the variables of a program that its parameters are.
pub(crate) fn file_numbers(
    scopes: &Scopes<'_>,
    parameters: &[Ident],
) -> Result<Items<u32>, OutOfMemory>
    ensures { IfOk result (λ files. files ≡ spec.file_numbers (scopes_view scopes.now).outer.globals
        (map (λ ident. spelled_in scopes.now.spellings.now ident.span) parameters.now)) }
{
    let mut files = Items::new(scopes.alloc);
    for ident in parameters {
        add_number(scopes, &mut files, *ident)?;
    }
    Ok(files)
}

// Puts the number of a variable with this name behind others, if there is one.
fn add_number(
    scopes: &Scopes<'_>,
    numbers: &mut Items<u32>,
    ident: Ident,
) -> Result<(), OutOfMemory>
    ensures { OnOk result (numbers.new ≡ numbers.old ++ option_to_list (position
        (λ found. bytes_eq found.name (spelled_in scopes.now.spellings.now ident.span))
        (scopes_view scopes.now).outer.globals)) }
{
    match global_number(scopes, scopes.spelling(ident.span)) {
        Some(number) => {
            let number = count_of(number)?;
            numbers.push(number)?;
            Ok(())
        }
        None => Ok(()),
    }
}

// The number of the first variable of the program with this name.
fn global_number(scopes: &Scopes<'_>, name: &[u8]) -> Option<usize>
    ensures { result ≡ position (λ found. bytes_eq (spelled_in scopes.now.spellings.now found.name) name.now)
        scopes.now.globals }
{
    scopes
        .globals
        .as_slice()
        .iter()
        .position(|found| scopes.spelling(found.name) == name)
}
