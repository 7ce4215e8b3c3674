//! How declarations are read.
ghost use Rattle.pas_syntax.specs.Views.{numeral_in, separated_in, if_there};
ghost use Rattle.pas_syntax.specs.ProgramViews.{labels_in, rows_in, constant_row_in, type_row_in, variable_row_in};
ghost use Rattle.pas_syntax.specs.inner.Prog.{bind};
ghost use Rattle.pas_syntax.specs.inner.Places.{Parses};
ghost use Rattle.pas_syntax.specs.inner.Readers.{ident as ident_reader};
ghost use Rattle.pas_syntax.specs.inner.TypeReaders.{items_by};
ghost use Rattle.pas_syntax.specs.inner.StatementReaders.{numeral as numeral_reader};
ghost use Rattle.pas_syntax.specs.inner.DeclarationReaders as spec;
ghost use Rattle.pas_syntax.specs.inner.DeclarationViews.{declarations_in};

use crate::constants::constant;
use crate::depth::Depth;
use crate::reader::Reader;
use crate::routines::routines;
use crate::stop::Stop;
use crate::tree::{
    Behind, ConstantRow, Declarations, Labels, Numeral, Rows, Separated, TypeRow, VariableRow,
};
use crate::type_forms::{idents, type_form};
use pas_tokens::Kind;
use sqlite_items::Items;
use std::alloc::Global;

// Reads `labels consts types vars {routine}`.
pub(crate) fn declarations(alloc: Global, reader: &mut Reader<'_>) -> Result<Declarations, Stop>
    ensures { Parses spec.declarations declarations_in reader.old result reader.new }
{
    let labels = labels(alloc, reader)?;
    let constants = constant_rows(alloc, reader)?;
    let types = type_rows(alloc, reader)?;
    let variables = variable_rows(alloc, reader)?;
    let routines = routines(alloc, reader)?;
    Ok(Declarations {
        labels,
        constants,
        types,
        variables,
        routines,
    })
}

// Reads `["label" number {"," number} ";"]`.
pub(crate) fn labels(alloc: Global, reader: &mut Reader<'_>) -> Result<Option<Labels>, Stop>
    ensures { Parses (λ m. spec.labels m) (λ spellings. if_there (labels_in spellings)) reader.old result reader.new }
{
    match reader.kind() {
        Kind::Label => {
            let line = reader.pass();
            let numbers = numerals(alloc, reader)?;
            let end = reader.take(Kind::Semicolon)?;
            Ok(Some(Labels { line, numbers, end }))
        }
        _ => Ok(None),
    }
}

// Reads `number {"," number}`.
fn numerals(alloc: Global, reader: &mut Reader<'_>) -> Result<Separated<Numeral>, Stop>
    ensures { Parses (λ m. items_by numeral_reader m) (λ _. separated_in numeral_in) reader.old result reader.new }
{
    let first = reader.numeral()?;
    let mut more = Items::new(alloc);
    'more: loop {
        match reader.kind() {
            Kind::Comma => {
                let line = reader.pass();
                let item = reader.numeral()?;
                more.push(Behind { line, item })?;
            }
            _ => return Ok(Separated { first, more }),
        }
    }
}

// Reads `["const" id "=" const ";" {id "=" const ";"}]`.
fn constant_rows(alloc: Global, reader: &mut Reader<'_>) -> Result<Option<Rows<ConstantRow>>, Stop>
    ensures { Parses spec.constant_rows (λ spellings. if_there (rows_in spellings (constant_row_in spellings)))
        reader.old result reader.new }
{
    let Some(line) = reader.maybe(Kind::Const) else {
        return Ok(None);
    };
    let first = constant_row(reader)?;
    let mut more = Items::new(alloc);
    'more: loop {
        match reader.kind() {
            Kind::Name => more.push(constant_row(reader)?)?,
            _ => return Ok(Some(Rows { line, first, more })),
        }
    }
}

// Reads `id "=" const ";"`.
fn constant_row(reader: &mut Reader<'_>) -> Result<ConstantRow, Stop>
    ensures { Parses (λ _. bind ident_reader spec.constant_row_behind) constant_row_in reader.old result reader.new }
{
    let name = reader.ident()?;
    let equals = reader.take(Kind::Equal)?;
    let value = constant(reader)?;
    let end = reader.take(Kind::Semicolon)?;
    Ok(ConstantRow {
        name,
        equals,
        value,
        end,
    })
}

// Reads `["type" id "=" type ";" {id "=" type ";"}]`.
fn type_rows(alloc: Global, reader: &mut Reader<'_>) -> Result<Option<Rows<TypeRow>>, Stop>
    ensures { Parses spec.type_rows (λ spellings. if_there (rows_in spellings (type_row_in spellings)))
        reader.old result reader.new }
{
    let Some(line) = reader.maybe(Kind::Type) else {
        return Ok(None);
    };
    let first = type_row(alloc, reader)?;
    let mut more = Items::new(alloc);
    'more: loop {
        match reader.kind() {
            Kind::Name => more.push(type_row(alloc, reader)?)?,
            _ => return Ok(Some(Rows { line, first, more })),
        }
    }
}

// Reads `id "=" type ";"`.
fn type_row(alloc: Global, reader: &mut Reader<'_>) -> Result<TypeRow, Stop>
    ensures { Parses (λ m. bind ident_reader (spec.type_row_behind m)) type_row_in reader.old result reader.new }
{
    let name = reader.ident()?;
    let equals = reader.take(Kind::Equal)?;
    let form = type_form(alloc, reader, Depth::OUTSIDE)?;
    let end = reader.take(Kind::Semicolon)?;
    Ok(TypeRow {
        name,
        equals,
        form,
        end,
    })
}

// Reads `["var" ids ":" type ";" {ids ":" type ";"}]`.
pub(crate) fn variable_rows(
    alloc: Global,
    reader: &mut Reader<'_>,
) -> Result<Option<Rows<VariableRow>>, Stop>
    ensures { Parses spec.variable_rows (λ spellings. if_there (rows_in spellings (variable_row_in spellings)))
        reader.old result reader.new }
{
    let Some(line) = reader.maybe(Kind::Var) else {
        return Ok(None);
    };
    let first = variable_row(alloc, reader)?;
    let mut more = Items::new(alloc);
    'more: loop {
        match reader.kind() {
            Kind::Name => more.push(variable_row(alloc, reader)?)?,
            _ => return Ok(Some(Rows { line, first, more })),
        }
    }
}

// Reads `ids ":" type ";"`.
fn variable_row(alloc: Global, reader: &mut Reader<'_>) -> Result<VariableRow, Stop>
    ensures { Parses (λ m. bind ident_reader (spec.variable_row_behind m)) variable_row_in reader.old result
        reader.new }
{
    let names = idents(alloc, reader)?;
    let colon = reader.take(Kind::Colon)?;
    let form = type_form(alloc, reader, Depth::OUTSIDE)?;
    let end = reader.take(Kind::Semicolon)?;
    Ok(VariableRow {
        names,
        colon,
        form,
        end,
    })
}
