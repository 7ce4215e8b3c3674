//! Declarations of a routine's parameters and variables (ISO 7185, 6.5 and 6.6, in this project's profile).
ghost use Rattle.std.specs.Prelude.{◌≡◌, ℕ, false, IfOk, List, ◌++◌, ◌||◌, map, is_none, Some, option_map, OnOk};
ghost use Rattle.std.specs.Option.{option_copied};
ghost use Rattle.pas_tokens.specs.declared.kinds.Kind.TheVariants as k;
ghost use Rattle.pas_syntax.specs.Words.{Word, words_if, type_words, variable_row_words, rows_words};
ghost use Rattle.pas_syntax.specs.ProgramViews.{type_in, variable_row_in, rows_in};
ghost use Rattle.pas_syntax.specs.Views.{ident_in, separated_in, if_there};
ghost use Rattle.pas_typed.specs.Types.{Made, component_of};
ghost use Rattle.pas_typed.specs.TypeViews.{type_view, table_view, counted};
ghost use Rattle.pas_typed.specs.TypedViews.{mode_view, variable_view};
ghost use Rattle.pas_rules.specs.Marks.{Judged as SpecJudged, noted};
ghost use Rattle.pas_rules.specs.Scopes.{spellings_of};
ghost use Rattle.pas_rules.specs.Declarations as spec;
ghost use Rattle.pas_scopes.specs.declared.scopes.Inner.{Inner};
ghost use Rattle.pas_rules.specs.Scopes.{Scopes as SpecScopes};
ghost use Rattle.pas_rules.specs.TypeForms.{form_of};
ghost use Rattle.pas_scopes.specs.ScopeViews.{outer_view, scopes_view, made_view, inner_view, all_idents};
ghost use Rattle.pas_scopes.specs.ScopeViews.{IsClear, Agrees};
ghost use Rattle.pas_scopes.specs.FormAnswers.{Grows};
ghost use Rattle.pas_scopes.specs.TypeAnswers.{AnswersIf};
ghost use Rattle.pas_scopes.specs.Answers.{end_in, EndsAs, Settles};
ghost use Rattle.pas_scopes.specs.Locals.{with_local, with_all, with_count, told, IsWithin, Passes};

use crate::globals::with_cells;
use crate::judged::Judged;
use crate::name_sets::NameSet;
use crate::names::Entity;
use crate::new_names::{Region, new_names};
use crate::scopes::Scopes;
use crate::stop::{Stop, count_of};
use crate::type_forms::form_of;
use pas_rules::ROUTINE_CELL_LIMIT;
use pas_syntax::tree::{Ident, Idents, Rows, TypeForm, VariableRow};
use pas_typed::typed::{Home, Mode, Slot, Variable};
use pas_typed::types::PasType;
use wb_base::faults::{FILE_RULE, TOO_LARGE};
use wb_base::{Fault, OutOfMemory};

/// Declares variables of a routine.
pub fn locals_of(scopes: &mut Scopes<'_>, rows: Option<&Rows<VariableRow>>) -> Result<(), Stop>
    ensures passes { (inner : Inner) → IsWithin inner scopes.old → Passes
        (words_if (rows_words k.Var variable_row_words)
        (if_there (rows_in scopes.old.spellings.now (variable_row_in scopes.old.spellings.now))
        (option_copied rows.entry)))
        (spec.local_rows (outer_view scopes.old) (inner_view scopes.old.spellings.now inner)
        (if_there (rows_in scopes.old.spellings.now (variable_row_in scopes.old.spellings.now))
        (option_copied rows.entry))) scopes.new result }
    ensures kept { scopes.new ≡ record scopes.old { types = scopes.new.types; inner = scopes.new.inner } }
    ensures grows { Grows scopes.old.types scopes.new.types }
{
    match rows {
        Some(rows) => local_rows(scopes, rows),
        None => Ok(()),
    }
}

// Declares the variables of a part of a routine.
fn local_rows(scopes: &mut Scopes<'_>, rows: &Rows<VariableRow>) -> Result<(), Stop>
    ensures passes { (inner : Inner) → IsWithin inner scopes.old → Passes
        (rows_words k.Var variable_row_words
        (rows_in scopes.old.spellings.now (variable_row_in scopes.old.spellings.now) rows.now))
        (spec.local_rows (outer_view scopes.old) (inner_view scopes.old.spellings.now inner)
        (Some (rows_in scopes.old.spellings.now (variable_row_in scopes.old.spellings.now) rows.now)))
        scopes.new result }
    ensures kept { scopes.new ≡ record scopes.old { types = scopes.new.types; inner = scopes.new.inner } }
    ensures grows { Grows scopes.old.types scopes.new.types }
{
    local_row(scopes, &rows.first)?;
    for row in rows.more.as_slice() {
        local_row(scopes, row)?;
    }
    Ok(())
}

// Declares variables of a routine of one type.
fn local_row(scopes: &mut Scopes<'_>, row: &VariableRow) -> Result<(), Stop>
    ensures passes { (inner : Inner) → IsWithin inner scopes.old → Passes
        (variable_row_words (variable_row_in scopes.old.spellings.now row.now))
        (spec.local_row (outer_view scopes.old) (outer_view scopes.old).types
        (inner_view scopes.old.spellings.now inner) (variable_row_in scopes.old.spellings.now row.now))
        scopes.new result }
    ensures kept { scopes.new ≡ record scopes.old { types = scopes.new.types; inner = scopes.new.inner } }
    ensures grows { Grows scopes.old.types scopes.new.types }
{
    let mut before = NameSet::new(scopes.alloc);
    new_names(scopes, Region::Routine, &mut before, &row.names)?;
    let made = form_alone(scopes, &row.form)?;
    add_locals(scopes, &row.names, Mode::Declared, made)
}

// What a type expression makes in a routine, where the first fault that it shows is told.
fn form_alone(scopes: &mut Scopes<'_>, written: &TypeForm) -> Result<Judged<PasType>, Stop>
    ensures answers { (s : SpecScopes) → Agrees s (scopes_view scopes.old) → (n : ℕ) → AnswersIf (IsClear s)
        (type_words n (type_in scopes.old.spellings.now written.now))
        (form_of s (table_view scopes.old.spellings.now scopes.old.types)
        (type_in scopes.old.spellings.now written.now)) (made_view scopes.new) result }
    ensures kept { scopes.new ≡ record scopes.old { types = scopes.new.types } }
    ensures grows { Grows scopes.old.types scopes.new.types }
    ensures whole { IfOk result (λ found. (end_in found.end).is_short ≡ false) }
{
    let mut noted = None;
    let found = form_of(scopes, &mut noted, written);
    first_told(noted, found)
}

// What was found where a fault is noted or not: that fault is why checking stops, but for want of memory.
fn first_told(
    noted: Option<Fault>,
    found: Result<Judged<PasType>, Stop>,
) -> Result<Judged<PasType>, Stop>
    ensures { result ≡ told noted found }
{
    match (noted, found) {
        (None, found) => found,
        (Some(_), Err(Stop::OutOfMemory)) => Err(Stop::OutOfMemory),
        (Some(fault), _) => Err(Stop::Fault(fault)),
    }
}

/// Adds variables of one type. They are no files but by name, and all have no more cells than the limit.
pub fn add_locals(
    scopes: &mut Scopes<'_>,
    names: &Idents,
    mode: Mode,
    made: Judged<PasType>,
) -> Result<(), Stop>
    ensures answers { (words : List Word) (part : SpecJudged Made) (inner : Inner) → scopes.old.inner ≡ Some inner
        → inner.cells ≡ counted (spec.cells_together (table_view scopes.old.spellings.now scopes.old.types)
        (map (variable_view scopes.old.spellings.now) inner.variables))
        → EndsAs words part (made_view scopes.old made.value) (end_in made.end)
        → Settles words (noted (spec.local_only (inner_view scopes.old.spellings.now inner) (mode_view mode)
        (spellings_of (separated_in (ident_in scopes.old.spellings.now) names.now))) part)
        (λ _. made_view scopes.old made.value) result }
    ensures inner { OnOk result ((inner : Inner) → scopes.old.inner ≡ Some inner
        → inner.cells ≡ counted (spec.cells_together (table_view scopes.old.spellings.now scopes.old.types)
        (map (variable_view scopes.old.spellings.now) inner.variables))
        → scopes.new.inner ≡ Some (with_all scopes.old.spellings.now mode made.value (all_idents names.now)
        (record inner {
          cells = counted (spec.cells_together
              (table_view scopes.old.spellings.now scopes.old.types)
              (map (variable_view scopes.old.spellings.now) inner.variables ++ spec.variables_of (mode_view mode)
              (type_view made.value) (spellings_of (separated_in (ident_in scopes.old.spellings.now) names.now))));
        }))) }
    ensures kept { scopes.new ≡ record scopes.old { inner = scopes.new.inner } }
{
    let made = local_only(scopes, names, mode, made);
    let pas_type = made.settled()?;
    let cells = cells_with(scopes, names, mode, pas_type);
    set_cells(scopes, cells);
    add_all(scopes, names, mode, pas_type)?;
    Ok(())
}

// Sets how many cells the variables of the routine have.
fn set_cells(scopes: &mut Scopes<'_>, cells: u64)
    ensures { scopes.new ≡ record scopes.old {
      inner = option_map (with_count cells) scopes.old.inner;
    } }
{
    if let Some(inner) = &mut scopes.inner {
        inner.cells = cells;
    }
}

// Variables of a routine are no files but by name, and all together have no more cells than the limit.
fn local_only(
    scopes: &Scopes<'_>,
    names: &Idents,
    mode: Mode,
    made: Judged<PasType>,
) -> Judged<PasType>
    ensures value { result.value ≡ made.value }
    ensures ends { (words : List Word) (part : SpecJudged Made) (inner : Inner) → scopes.now.inner ≡ Some inner
        → inner.cells ≡ counted (spec.cells_together (table_view scopes.now.spellings.now scopes.now.types)
        (map (variable_view scopes.now.spellings.now) inner.variables))
        → EndsAs words part (made_view scopes.now made.value) (end_in made.end)
        → EndsAs words (noted (spec.local_only (inner_view scopes.now.spellings.now inner) (mode_view mode)
        (spellings_of (separated_in (ident_in scopes.now.spellings.now) names.now))) part)
        (made_view scopes.now result.value) (end_in result.end) }
    ensures whole { (end_in result.end).is_short ≡ (end_in made.end).is_short }
{
    let may_be = may_be(scopes, mode, made.value);
    let cells = cells_with(scopes, names, mode, made.value);
    let made = made.noted(may_be, FILE_RULE);
    made.noted(cells <= u64::from(ROUTINE_CELL_LIMIT), TOO_LARGE)
}

// Whether variables may be of a type: those of a file type are by name.
fn may_be(scopes: &Scopes<'_>, mode: Mode, pas_type: PasType) -> bool
    ensures { result ≡ (is_none (component_of (table_view scopes.now.spellings.now scopes.now.types)
        (type_view pas_type)) || spec.is_by_name (mode_view mode)) }
{
    !scopes.types.is_file(pas_type) || is_by_name(mode)
}

// Whether variables are by name.
fn is_by_name(mode: Mode) -> bool
    ensures { result ≡ spec.is_by_name (mode_view mode) }
{
    matches!(mode, Mode::ByName)
}

// How many cells the variables of the routine have with variables of these names and this type, or the greatest number
// of 64 bits.
fn cells_with(scopes: &Scopes<'_>, names: &Idents, mode: Mode, pas_type: PasType) -> u64
    ensures { (inner : Inner) → scopes.now.inner ≡ Some inner
        → inner.cells ≡ counted (spec.cells_together (table_view scopes.now.spellings.now scopes.now.types)
        (map (variable_view scopes.now.spellings.now) inner.variables))
        → result ≡ counted (spec.cells_together (table_view scopes.now.spellings.now scopes.now.types)
        (map (variable_view scopes.now.spellings.now) inner.variables ++ spec.variables_of (mode_view mode)
        (type_view pas_type) (spellings_of (separated_in (ident_in scopes.now.spellings.now) names.now)))) }
{
    let each = cells_each(scopes, mode, pas_type);
    match &scopes.inner {
        Some(inner) => with_cells(inner.cells, names, each),
        None => 0,
    }
}

// How many cells a variable has, or the greatest number of 64 bits: one by name has one.
fn cells_each(scopes: &Scopes<'_>, mode: Mode, pas_type: PasType) -> u64
    ensures { counted (spec.cells_of_variable (table_view scopes.now.spellings.now scopes.now.types) (mode_view mode)
        (type_view pas_type)) ≡ result }
{
    if is_by_name(mode) {
        1
    } else {
        scopes.types.cells_of(pas_type)
    }
}

// Adds variables of one type.
fn add_all(
    scopes: &mut Scopes<'_>,
    names: &Idents,
    mode: Mode,
    pas_type: PasType,
) -> Result<(), OutOfMemory>
    ensures inner { OnOk result (scopes.new.inner ≡ option_map
        (with_all scopes.old.spellings.now mode pas_type (all_idents names.now)) scopes.old.inner) }
    ensures kept { scopes.new ≡ record scopes.old { inner = scopes.new.inner } }
{
    add_local(scopes, names.first, mode, pas_type)?;
    for behind in names.more.as_slice() {
        add_local(scopes, behind.item, mode, pas_type)?;
    }
    Ok(())
}

// Adds a variable.
fn add_local(
    scopes: &mut Scopes<'_>,
    ident: Ident,
    mode: Mode,
    pas_type: PasType,
) -> Result<(), OutOfMemory>
    ensures inner { OnOk result (scopes.new.inner ≡ option_map
        (λ inner. with_local scopes.old.spellings.now mode pas_type inner ident) scopes.old.inner) }
    ensures kept { scopes.new ≡ record scopes.old { inner = scopes.new.inner } }
{
    let name = scopes.spelling(ident.span);
    if let Some(inner) = &mut scopes.inner {
        let number = count_of(inner.variables.len())?;
        inner.variables.push(Variable {
            name: ident.span,
            mode,
            pas_type,
        })?;
        let slot = Slot {
            home: Home::Local,
            number,
            mode,
            pas_type,
        };
        inner.names.declare(name, Entity::Variable(slot))?;
    }
    Ok(())
}
