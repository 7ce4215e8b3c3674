//! Declarations of the program's variables (ISO 7185, 6.5, in this project's profile).
ghost use Rattle.std.specs.Prelude.{◌≡◌, ℕ, ◌+◌, ◌*◌, ◌||◌, List, [], ◌∷◌, ◌++◌, map, length, Some, None, option_map};
ghost use Rattle.std.specs.Prelude.{is_none, IsSome, IfOk, OnOk};
ghost use Rattle.std.specs.Option.{option_copied};
ghost use Rattle.pas_tokens.specs.declared.kinds.Kind.TheVariants as k;
ghost use Rattle.pas_syntax.specs.Views.{spelled_in, ident_in, separated_in, if_there};
ghost use Rattle.pas_syntax.specs.ProgramViews.{type_in, variable_row_in, rows_in};
ghost use Rattle.pas_syntax.specs.Words.{Word, words_if, type_words, variable_row_words, rows_words};
ghost use Rattle.pas_typed.specs.declared.typed.Mode.TheVariants as mode;
ghost use Rattle.pas_typed.specs.Types.{Made, component_of, cells_of};
ghost use Rattle.pas_typed.specs.Typed.{declared, global};
ghost use Rattle.pas_typed.specs.TypeViews.{type_view, table_view, counted};
ghost use Rattle.pas_typed.specs.TypedViews.{variable_view};
ghost use Rattle.pas_rules.specs.Marks.{Judged as SpecJudged, noted as noted_of};
ghost use Rattle.pas_rules.specs.Scopes as name;
ghost use Rattle.pas_rules.specs.Scopes.{spellings_of};
ghost use Rattle.pas_rules.specs.Declarations as spec;
ghost use Rattle.pas_rules.specs.Scopes.{with_new};
ghost use Rattle.pas_scopes.specs.ScopeViews.{outer_view, made_view, all_idents, IsClear};
ghost use Rattle.pas_scopes.specs.Answers.{end_in, EndsAs};
ghost use Rattle.pas_scopes.specs.DeclaredSoFar.{global_form, with_each, IsLike, NotesIf, Declares};

use crate::judged::Judged;
use crate::name_sets::NameSet;
use crate::names::Entity;
use crate::new_names::{Region, new_names};
use crate::noting::note;
use crate::scopes::Scopes;
use crate::stop::count_of;
use crate::type_forms::form_of;
use pas_rules::CELL_LIMIT;
use pas_syntax::tree::{Ident, Idents, Rows, VariableRow};
use pas_typed::typed::{Home, Mode, Slot, Variable};
use pas_typed::types::PasType;
use std::alloc::AllocError;
use wb_base::faults::{FILE_RULE, TOO_LARGE};
use wb_base::{Fault, OutOfMemory};

/// Declares variables of the program.
pub fn globals_of(
    scopes: &mut Scopes<'_>,
    noted: &mut Option<Fault>,
    rows: Option<&Rows<VariableRow>>,
) -> Result<(), OutOfMemory>
    ensures declares { OnOk result (Declares
        (words_if (rows_words k.Var variable_row_words)
        (if_there (rows_in scopes.old.spellings.now (variable_row_in scopes.old.spellings.now))
        (option_copied rows.entry)))
        (λ outer. spec.rows_of spec.global_row outer
        (if_there (rows_in scopes.old.spellings.now (variable_row_in scopes.old.spellings.now))
        (option_copied rows.entry)))
        scopes.old noted.old scopes.new noted.new) }
    ensures kept { scopes.new ≡ record scopes.old {
      types = scopes.new.types;
      names = scopes.new.names;
      globals = scopes.new.globals;
      cells = scopes.new.cells;
    } }
{
    match rows {
        Some(rows) => global_rows(scopes, noted, rows),
        None => Ok(()),
    }
}

// Declares the variables of a part.
fn global_rows(
    scopes: &mut Scopes<'_>,
    noted: &mut Option<Fault>,
    rows: &Rows<VariableRow>,
) -> Result<(), OutOfMemory>
    ensures declares { OnOk result (Declares
        (rows_words k.Var variable_row_words
        (rows_in scopes.old.spellings.now (variable_row_in scopes.old.spellings.now) rows.now))
        (λ outer. spec.rows_of spec.global_row outer
        (Some (rows_in scopes.old.spellings.now (variable_row_in scopes.old.spellings.now) rows.now)))
        scopes.old noted.old scopes.new noted.new) }
    ensures kept { scopes.new ≡ record scopes.old {
      types = scopes.new.types;
      names = scopes.new.names;
      globals = scopes.new.globals;
      cells = scopes.new.cells;
    } }
{
    global_row(scopes, noted, &rows.first)?;
    for row in rows.more.as_slice() {
        global_row(scopes, noted, row)?;
    }
    Ok(())
}

// Declares variables of one type.
fn global_row(
    scopes: &mut Scopes<'_>,
    noted: &mut Option<Fault>,
    row: &VariableRow,
) -> Result<(), OutOfMemory>
    ensures declares { OnOk result (Declares (variable_row_words (variable_row_in scopes.old.spellings.now row.now))
        (λ outer. spec.global_row outer (variable_row_in scopes.old.spellings.now row.now))
        scopes.old noted.old scopes.new noted.new) }
    ensures kept { scopes.new ≡ record scopes.old {
      types = scopes.new.types;
      names = scopes.new.names;
      globals = scopes.new.globals;
      cells = scopes.new.cells;
    } }
{
    let mut before = NameSet::new(scopes.alloc);
    note(
        noted,
        new_names(scopes, Region::Program, &mut before, &row.names),
    )?;
    match global_type(scopes, noted, row)? {
        Some(pas_type) => add_globals(scopes, &row.names, pas_type),
        None => add_unclear(scopes, &row.names),
    }
}

// The type of variables of the program, if that is known; the types are as they were where it is not. A fault that it
// shows is noted.
fn global_type(
    scopes: &mut Scopes<'_>,
    noted: &mut Option<Fault>,
    row: &VariableRow,
) -> Result<Option<PasType>, OutOfMemory>
    ensures value { IfOk result (λ found. (outer : name.Outer) → IsLike outer scopes.old
        → option_map (made_view scopes.new) found
        ≡ (global_form outer (type_in scopes.old.spellings.now row.now.form)).value) }
    ensures types { OnOk result ((outer : name.Outer) → IsLike outer scopes.old
        → table_view scopes.old.spellings.now scopes.new.types ≡ spec.types_behind outer.types
        (global_form outer (type_in scopes.old.spellings.now row.now.form)).value) }
    ensures notes { OnOk result ((outer : name.Outer) → IsLike outer scopes.old
        → NotesIf (IsClear (spec.program_scopes outer)) (type_words 0 (type_in scopes.old.spellings.now row.now.form))
        (noted_of (spec.global_only outer
        (spellings_of (separated_in (ident_in scopes.old.spellings.now) row.now.names)))
        (global_form outer (type_in scopes.old.spellings.now row.now.form))).marks noted.old noted.new) }
    ensures clear { IfOk result (λ found. (outer : name.Outer) → IsLike outer scopes.old
        → IsClear (spec.program_scopes outer) → noted.new ≡ None → IsSome found) }
    ensures kept { scopes.new ≡ record scopes.old { types = scopes.new.types } }
{
    let count = scopes.types.len();
    match form_of(scopes, noted, &row.form) {
        Ok(made) => {
            let made = global_only(scopes, &row.names, made);
            note(noted, made.end.stands())?;
            Ok(Some(made.value))
        }
        Err(stop) => {
            note(noted, Err(stop))?;
            scopes.types.shorten(count);
            Ok(None)
        }
    }
}

// Variables of the program of a file type are its parameters, and all its variables have no more cells than the limit.
fn global_only(scopes: &Scopes<'_>, names: &Idents, made: Judged<PasType>) -> Judged<PasType>
    ensures value { result.value ≡ made.value }
    ensures ends { (words : List Word) (part : SpecJudged Made) (outer : name.Outer)
        → outer.parameters ≡ scopes.now.parameters
        → scopes.now.cells ≡ counted (spec.cells_together
        (table_view scopes.now.spellings.now scopes.now.types) outer.globals)
        → EndsAs words part (made_view scopes.now made.value) (end_in made.end)
        → EndsAs words (noted_of (spec.global_only outer
        (spellings_of (separated_in (ident_in scopes.now.spellings.now) names.now))) part)
        (made_view scopes.now result.value) (end_in result.end) }
    ensures whole { (end_in result.end).is_short ≡ (end_in made.end).is_short }
{
    let may_have = may_have(scopes, names, made.value);
    let each = scopes.types.cells_of(made.value);
    let cells = with_cells(scopes.cells, names, each);
    let made = made.noted(may_have, FILE_RULE);
    made.noted(cells <= u64::from(CELL_LIMIT), TOO_LARGE)
}

// Whether variables with these names may be of a type: those of a file type are parameters of the program.
fn may_have(scopes: &Scopes<'_>, names: &Idents, pas_type: PasType) -> bool
    ensures { result ≡ (is_none (component_of (table_view scopes.now.spellings.now scopes.now.types)
        (type_view pas_type)) || spec.are_parameters (outer_view scopes.now)
        (spellings_of (separated_in (ident_in scopes.now.spellings.now) names.now))) }
{
    !scopes.types.is_file(pas_type) || are_parameters(scopes, names)
}

// Whether all these names are those of parameters of the program.
fn are_parameters(scopes: &Scopes<'_>, names: &Idents) -> bool
    ensures { result ≡ spec.are_parameters (outer_view scopes.now)
        (spellings_of (separated_in (ident_in scopes.now.spellings.now) names.now)) }
{
    let mut all = scopes.parameters.has(scopes.spelling(names.first.span));
    for behind in names.more.as_slice() {
        all = all && scopes.parameters.has(scopes.spelling(behind.item.span));
    }
    all
}

// So many cells, and those of variables that have so many each, or the greatest number of 64 bits.
pub(crate) fn with_cells(cells: u64, names: &Idents, each: u64) -> u64
    ensures { result ≡ counted (cells + length (all_idents names.now) * each) }
{
    let count = (names.more.len() as u64).saturating_add(1);
    cells.saturating_add(count.saturating_mul(each))
}

// Adds variables of one type.
fn add_globals(
    scopes: &mut Scopes<'_>,
    names: &Idents,
    pas_type: PasType,
) -> Result<(), OutOfMemory>
    ensures names { OnOk result (scopes.new.names ≡ with_each scopes.old.names
        (spec.named_slots global (length scopes.old.globals) (spec.variables_of declared (type_view pas_type)
        (spellings_of (separated_in (ident_in scopes.old.spellings.now) names.now))))) }
    ensures globals { OnOk result (map (variable_view scopes.old.spellings.now) scopes.new.globals
        ≡ map (variable_view scopes.old.spellings.now) scopes.old.globals
        ++ spec.variables_of declared (type_view pas_type)
        (spellings_of (separated_in (ident_in scopes.old.spellings.now) names.now))) }
    ensures cells { OnOk result ((each : ℕ) → counted (cells_of
        (table_view scopes.old.spellings.now scopes.old.types) (type_view pas_type)) ≡ each
        → scopes.new.cells ≡ counted (scopes.old.cells + length (all_idents names.now) * each)) }
    ensures kept { scopes.new ≡ record scopes.old {
      names = scopes.new.names;
      globals = scopes.new.globals;
      cells = scopes.new.cells;
    } }
{
    let each = scopes.types.cells_of(pas_type);
    scopes.cells = with_cells(scopes.cells, names, each);
    add_global(scopes, names.first, pas_type)?;
    for behind in names.more.as_slice() {
        add_global(scopes, behind.item, pas_type)?;
    }
    Ok(())
}

/// Adds a variable.
pub fn add_global(
    scopes: &mut Scopes<'_>,
    ident: Ident,
    pas_type: PasType,
) -> Result<(), OutOfMemory>
    ensures names { OnOk result (scopes.new.names ≡ with_new scopes.old.names
        (spelled_in scopes.old.spellings.now ident.span) (name.variable (record {
          home = global;
          number = length scopes.old.globals;
          mode = declared;
          type = type_view pas_type;
        }))) }
    ensures globals { OnOk result (scopes.new.globals ≡ scopes.old.globals
        ++ record { name = ident.span; mode = mode.Declared; pas_type = pas_type } ∷ []) }
    ensures kept { scopes.new ≡ record scopes.old { names = scopes.new.names; globals = scopes.new.globals } }
{
    let number = count_of(scopes.globals.len())?;
    let mode = Mode::Declared;
    scopes.globals.push(Variable {
        name: ident.span,
        mode,
        pas_type,
    })?;
    let slot = Slot {
        home: Home::Global,
        number,
        mode,
        pas_type,
    };
    let name = scopes.spelling(ident.span);
    scopes.names.declare(name, Entity::Variable(slot))?;
    Ok(())
}

// Declares names of variables of which nothing is known.
fn add_unclear(scopes: &mut Scopes<'_>, names: &Idents) -> Result<(), OutOfMemory>
    ensures names { OnOk result (scopes.new.names ≡ with_each scopes.old.names (spec.unclear_names
        (spellings_of (separated_in (ident_in scopes.old.spellings.now) names.now)))) }
    ensures kept { scopes.new ≡ record scopes.old { names = scopes.new.names } }
{
    let name = scopes.spelling(names.first.span);
    scopes.names.declare(name, Entity::Unclear)?;
    for behind in names.more.as_slice() {
        let name = scopes.spelling(behind.item.span);
        scopes.names.declare(name, Entity::Unclear)?;
    }
    Ok(())
}
