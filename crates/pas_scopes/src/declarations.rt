//! Declarations (ISO 7185, 6.2 to 6.5, in this project's profile). A name holds from behind its whole declaration.
ghost use Rattle.std.specs.Prelude.{◌≡◌, ◌≢◌, Some, None, IfOk, OnOk};
ghost use Rattle.std.specs.Option.{option_copied};
ghost use Rattle.pas_tokens.specs.declared.kinds.Kind.TheVariants as k;
ghost use Rattle.pas_syntax.specs.Views.{constant_in, if_there};
ghost use Rattle.pas_syntax.specs.ProgramViews.{type_in, constant_row_in, type_row_in, rows_in};
ghost use Rattle.pas_syntax.specs.Words.{words_if, constant_words, type_words};
ghost use Rattle.pas_syntax.specs.Words.{constant_row_words, type_row_words, rows_words};
ghost use Rattle.pas_typed.specs.TypeViews.{base_view, table_view};
ghost use Rattle.pas_rules.specs.Scopes as name;
ghost use Rattle.pas_rules.specs.TypeForms as form;
ghost use Rattle.pas_rules.specs.Declarations as spec;
ghost use Rattle.pas_scopes.specs.NameViews.{entity_view, IsSmallEntity};
ghost use Rattle.pas_scopes.specs.ScopeViews.{scopes_view, IsClear, Agrees};
ghost use Rattle.pas_scopes.specs.DeclaredSoFar.{constant_meant, type_meant, NotesIf, Declares};

use crate::constants::{Ordinal, constant_of};
use crate::names::Entity;
use crate::new_names::{Region, new_alone};
use crate::noting::note;
use crate::scopes::Scopes;
use crate::type_forms::form_of;
use pas_syntax::tree::{Constant, ConstantRow, Rows, TypeForm, TypeRow};
use wb_base::{Fault, OutOfMemory};

/// Declares constants.
pub fn constants_of(
    scopes: &mut Scopes<'_>,
    noted: &mut Option<Fault>,
    rows: Option<&Rows<ConstantRow>>,
) -> Result<(), OutOfMemory>
    ensures declares { OnOk result (Declares
        (words_if (rows_words k.Const constant_row_words)
        (if_there (rows_in scopes.old.spellings.now (constant_row_in scopes.old.spellings.now))
        (option_copied rows.entry)))
        (λ outer. spec.rows_of spec.constant_row outer
        (if_there (rows_in scopes.old.spellings.now (constant_row_in scopes.old.spellings.now))
        (option_copied rows.entry)))
        scopes.old noted.old scopes.new noted.new) }
    ensures kept { scopes.new ≡ record scopes.old { names = scopes.new.names } }
{
    match rows {
        Some(rows) => constant_rows(scopes, noted, rows),
        None => Ok(()),
    }
}

// Declares the constants of a part.
fn constant_rows(
    scopes: &mut Scopes<'_>,
    noted: &mut Option<Fault>,
    rows: &Rows<ConstantRow>,
) -> Result<(), OutOfMemory>
    ensures declares { OnOk result (Declares
        (rows_words k.Const constant_row_words
        (rows_in scopes.old.spellings.now (constant_row_in scopes.old.spellings.now) rows.now))
        (λ outer. spec.rows_of spec.constant_row outer
        (Some (rows_in scopes.old.spellings.now (constant_row_in scopes.old.spellings.now) rows.now)))
        scopes.old noted.old scopes.new noted.new) }
    ensures kept { scopes.new ≡ record scopes.old { names = scopes.new.names } }
{
    constant_row(scopes, noted, &rows.first)?;
    for row in rows.more.as_slice() {
        constant_row(scopes, noted, row)?;
    }
    Ok(())
}

// Declares a constant.
fn constant_row(
    scopes: &mut Scopes<'_>,
    noted: &mut Option<Fault>,
    row: &ConstantRow,
) -> Result<(), OutOfMemory>
    ensures declares { OnOk result (Declares (constant_row_words (constant_row_in scopes.old.spellings.now row.now))
        (λ outer. spec.constant_row outer (constant_row_in scopes.old.spellings.now row.now))
        scopes.old noted.old scopes.new noted.new) }
    ensures kept { scopes.new ≡ record scopes.old { names = scopes.new.names } }
{
    note(noted, new_alone(scopes, Region::Program, row.name))?;
    let entity = constant_entity(scopes, noted, row.value)?;
    let name = scopes.spelling(row.name.span);
    scopes.names.declare(name, entity)?;
    Ok(())
}

// What a name stands for that is declared as a constant. It is unclear where that shows a fault, which is noted.
fn constant_entity(
    scopes: &Scopes<'_>,
    noted: &mut Option<Fault>,
    constant: Constant,
) -> Result<Entity, OutOfMemory>
    ensures value { IfOk result (λ entity. entity_view entity ≡ constant_meant
        (form.constant_of (scopes_view scopes.now) (constant_in scopes.now.spellings.now constant)).value) }
    ensures notes { OnOk result (NotesIf (IsClear (scopes_view scopes.now))
        (constant_words 0 (constant_in scopes.now.spellings.now constant))
        (form.constant_of (scopes_view scopes.now) (constant_in scopes.now.spellings.now constant)).marks
        noted.old noted.new) }
    ensures clear { IfOk result (λ entity. IsClear (scopes_view scopes.now) → noted.new ≡ None
        → entity_view entity ≢ name.unclear) }
    ensures small { IfOk result (λ entity. IsSmallEntity (entity_view entity)) }
{
    match constant_of(scopes, constant) {
        Ok(found) => Ok(entity_of(found)),
        Err(stop) => {
            note(noted, Err(stop))?;
            Ok(Entity::Unclear)
        }
    }
}

// A value as what a name stands for.
fn entity_of(found: Ordinal) -> Entity
    ensures { entity_view result ≡ name.constant (base_view found.base) found.value }
{
    Entity::Constant(found.base, found.value)
}

/// Declares types.
pub fn types_of(
    scopes: &mut Scopes<'_>,
    noted: &mut Option<Fault>,
    rows: Option<&Rows<TypeRow>>,
) -> Result<(), OutOfMemory>
    ensures declares { OnOk result (Declares
        (words_if (rows_words k.Type type_row_words)
        (if_there (rows_in scopes.old.spellings.now (type_row_in scopes.old.spellings.now))
        (option_copied rows.entry)))
        (λ outer. spec.rows_of spec.type_row outer
        (if_there (rows_in scopes.old.spellings.now (type_row_in scopes.old.spellings.now))
        (option_copied rows.entry)))
        scopes.old noted.old scopes.new noted.new) }
    ensures kept { scopes.new ≡ record scopes.old { types = scopes.new.types; names = scopes.new.names } }
{
    match rows {
        Some(rows) => type_rows(scopes, noted, rows),
        None => Ok(()),
    }
}

// Declares the types of a part.
fn type_rows(
    scopes: &mut Scopes<'_>,
    noted: &mut Option<Fault>,
    rows: &Rows<TypeRow>,
) -> Result<(), OutOfMemory>
    ensures declares { OnOk result (Declares
        (rows_words k.Type type_row_words
        (rows_in scopes.old.spellings.now (type_row_in scopes.old.spellings.now) rows.now))
        (λ outer. spec.rows_of spec.type_row outer
        (Some (rows_in scopes.old.spellings.now (type_row_in scopes.old.spellings.now) rows.now)))
        scopes.old noted.old scopes.new noted.new) }
    ensures kept { scopes.new ≡ record scopes.old { types = scopes.new.types; names = scopes.new.names } }
{
    type_row(scopes, noted, &rows.first)?;
    for row in rows.more.as_slice() {
        type_row(scopes, noted, row)?;
    }
    Ok(())
}

// Declares a type.
fn type_row(
    scopes: &mut Scopes<'_>,
    noted: &mut Option<Fault>,
    row: &TypeRow,
) -> Result<(), OutOfMemory>
    ensures declares { OnOk result (Declares (type_row_words (type_row_in scopes.old.spellings.now row.now))
        (λ outer. spec.type_row outer (type_row_in scopes.old.spellings.now row.now))
        scopes.old noted.old scopes.new noted.new) }
    ensures kept { scopes.new ≡ record scopes.old { types = scopes.new.types; names = scopes.new.names } }
{
    note(noted, new_alone(scopes, Region::Program, row.name))?;
    let entity = type_entity(scopes, noted, &row.form)?;
    let name = scopes.spelling(row.name.span);
    scopes.names.declare(name, entity)?;
    Ok(())
}

// What a name stands for that is declared as a type. It is unclear where nothing is known of that, and the types are
// as they were then. A fault that it shows is noted.
fn type_entity(
    scopes: &mut Scopes<'_>,
    noted: &mut Option<Fault>,
    written: &TypeForm,
) -> Result<Entity, OutOfMemory>
    ensures value { IfOk result (λ entity. (s : name.Scopes) → Agrees s (scopes_view scopes.old)
        → entity_view entity ≡ type_meant
        (form.form_of s (table_view scopes.old.spellings.now scopes.old.types)
        (type_in scopes.old.spellings.now written.now)).value) }
    ensures types { OnOk result ((s : name.Scopes) → Agrees s (scopes_view scopes.old)
        → table_view scopes.old.spellings.now scopes.new.types ≡ spec.types_behind
        (table_view scopes.old.spellings.now scopes.old.types)
        (form.form_of s (table_view scopes.old.spellings.now scopes.old.types)
        (type_in scopes.old.spellings.now written.now)).value) }
    ensures notes { OnOk result ((s : name.Scopes) → Agrees s (scopes_view scopes.old) → NotesIf (IsClear s)
        (type_words 0 (type_in scopes.old.spellings.now written.now))
        (form.form_of s (table_view scopes.old.spellings.now scopes.old.types)
        (type_in scopes.old.spellings.now written.now)).marks noted.old noted.new) }
    ensures clear { IfOk result (λ entity. (s : name.Scopes) → Agrees s (scopes_view scopes.old) → IsClear s
        → noted.new ≡ None → entity_view entity ≢ name.unclear) }
    ensures kept { scopes.new ≡ record scopes.old { types = scopes.new.types } }
    ensures small { IfOk result (λ entity. IsSmallEntity (entity_view entity)) }
{
    let count = scopes.types.len();
    match form_of(scopes, noted, written) {
        Ok(made) => {
            note(noted, made.end.stands())?;
            Ok(Entity::Type(made.value))
        }
        Err(stop) => {
            note(noted, Err(stop))?;
            scopes.types.shorten(count);
            Ok(Entity::Unclear)
        }
    }
}
