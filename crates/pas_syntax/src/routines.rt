//! How routines are read.
ghost use Rattle.std.specs.Prelude.{◌≡◌, map};
ghost use Rattle.pas_tokens.specs.declared.kinds.Kind.TheVariants as k;
ghost use Rattle.pas_syntax.specs.Views.{separated_in, if_there, behind_in};
ghost use Rattle.pas_syntax.specs.ProgramViews.{type_name_in, parameter_in, parameters_in, heading_in, body_in};
ghost use Rattle.pas_syntax.specs.ProgramViews.{routine_in, compound_in};
ghost use Rattle.pas_syntax.specs.inner.Prog.{head};
ghost use Rattle.pas_syntax.specs.inner.Places.{Fits, Parses, same};
ghost use Rattle.pas_syntax.specs.inner.StatementReaders.{compound as compound_reader};
ghost use Rattle.pas_syntax.specs.inner.DeclarationReaders as spec;
ghost use Rattle.pas_syntax.specs.inner.DeclarationViews.{block_in, heading as heading_reader, forward_line};

use crate::declarations::{labels, variable_rows};
use crate::depth::Depth;
use crate::reader::Reader;
use crate::statements::compound;
use crate::stop::Stop;
use crate::tree::{
    Behind, Block, Body, Compound, Heading, Ident, Parameter, Parameters, Routine, Separated,
};
use crate::type_forms::{idents, type_name};
use pas_tokens::Kind;
use sqlite_items::Items;
use std::alloc::Global;
use wb_base::faults::ROUTINES_AS_PARAMETERS;

// The name that has a meaning of its own behind a heading.
const FORWARD: &[u8] = b"forward";

// Reads routines, as many as there are.
pub(crate) fn routines(alloc: Global, reader: &mut Reader<'_>) -> Result<Items<Routine>, Stop>
    ensures { Parses spec.routines (λ spellings. map (routine_in spellings)) reader.old result reader.new }
{
    let mut all = Items::new(alloc);
    'more: loop {
        match reader.kind() {
            Kind::Procedure | Kind::Function => all.push(routine(alloc, reader)?)?,
            _ => return Ok(all),
        }
    }
}

// Reads a heading, a body and the semicolons behind them.
fn routine(alloc: Global, reader: &mut Reader<'_>) -> Result<Routine, Stop>
    ensures { Parses (λ m. spec.routine_by m (heading_reader m)) routine_in reader.old result reader.new }
{
    let heading = heading(alloc, reader)?;
    let behind_heading = reader.take(Kind::Semicolon)?;
    let body = body(alloc, reader)?;
    let end = reader.take(Kind::Semicolon)?;
    Ok(Routine {
        heading,
        behind_heading,
        body,
        end,
    })
}

// Reads `"procedure" id [params] | "function" id [params] [":" id]`.
fn heading(alloc: Global, reader: &mut Reader<'_>) -> Result<Heading, Stop>
    ensures { Parses heading_reader heading_in reader.old result reader.new }
{
    match reader.kind() {
        Kind::Procedure => {
            let line = reader.pass();
            let name = reader.ident()?;
            let parameters = parameters(alloc, reader)?;
            Ok(Heading::Procedure(line, name, parameters))
        }
        _ => {
            let line = reader.take(Kind::Function)?;
            let name = reader.ident()?;
            let parameters = parameters(alloc, reader)?;
            let result_type = result_type(reader)?;
            Ok(Heading::Function(line, name, parameters, result_type))
        }
    }
}

// Reads `[":" id]`.
fn result_type(reader: &mut Reader<'_>) -> Result<Option<Behind<Ident>>, Stop>
    ensures { Parses (λ _. spec.result_type) (λ spellings. if_there (behind_in (type_name_in spellings))) reader.old
        result reader.new }
{
    match reader.kind() {
        Kind::Colon => {
            let line = reader.pass();
            let item = type_name(reader)?;
            Ok(Some(Behind { line, item }))
        }
        _ => Ok(None),
    }
}

// Reads `["(" param {";" param} ")"]`.
fn parameters(alloc: Global, reader: &mut Reader<'_>) -> Result<Option<Parameters>, Stop>
    ensures { Parses spec.parameters (λ spellings. if_there (parameters_in spellings)) reader.old result reader.new }
{
    match reader.kind() {
        Kind::LeftParenthesis => {
            let opened = reader.pass();
            let items = parameter_list(alloc, reader)?;
            let closed = reader.take(Kind::RightParenthesis)?;
            Ok(Some(Parameters {
                opened,
                items,
                closed,
            }))
        }
        _ => Ok(None),
    }
}

// Reads `param {";" param}`.
fn parameter_list(alloc: Global, reader: &mut Reader<'_>) -> Result<Separated<Parameter>, Stop>
    ensures { Parses spec.parameter_list (λ spellings. separated_in (parameter_in spellings)) reader.old result
        reader.new }
{
    let first = parameter(alloc, reader)?;
    let mut more = Items::new(alloc);
    'more: loop {
        match reader.kind() {
            Kind::Semicolon => {
                let line = reader.pass();
                let item = parameter(alloc, reader)?;
                more.push(Behind { line, item })?;
            }
            _ => return Ok(Separated { first, more }),
        }
    }
}

// Reads `["var"] ids ":" id`.
fn parameter(alloc: Global, reader: &mut Reader<'_>) -> Result<Parameter, Stop>
    ensures { Parses spec.parameter parameter_in reader.old result reader.new }
{
    match reader.kind() {
        Kind::Procedure | Kind::Function => Err(Stop::LeftOut(ROUTINES_AS_PARAMETERS)),
        _ => {
            let by_name = reader.maybe(Kind::Var);
            let names = idents(alloc, reader)?;
            let colon = reader.take(Kind::Colon)?;
            let type_name = type_name(reader)?;
            Ok(Parameter {
                by_name,
                names,
                colon,
                type_name,
            })
        }
    }
}

// Reads `"forward" | labels vars compound`.
fn body(alloc: Global, reader: &mut Reader<'_>) -> Result<Body, Stop>
    ensures { Parses spec.body body_in reader.old result reader.new }
{
    match reader.kind() {
        Kind::Name => Ok(Body::Forward(forward(reader)?)),
        _ => Ok(Body::Block(block(alloc, reader)?)),
    }
}

// Reads `forward`.
fn forward(reader: &mut Reader<'_>) -> Result<u32, Stop>
    requires name { k.Name ≡ (head reader.old.tokens).kind }
    requires fits { Fits (head reader.old.tokens).kind (head reader.old.tokens).payload }
    ensures { Parses (λ _. forward_line) same reader.old result reader.new }
{
    if reader.comes(FORWARD) {
        Ok(reader.pass())
    } else {
        Err(Stop::Misplaced)
    }
}

// Reads `labels vars compound`.
fn block(alloc: Global, reader: &mut Reader<'_>) -> Result<Block, Stop>
    ensures { Parses spec.block_by block_in reader.old result reader.new }
{
    let labels = labels(alloc, reader)?;
    let variables = variable_rows(alloc, reader)?;
    let body = main_compound(alloc, reader)?;
    Ok(Block {
        labels,
        variables,
        body,
    })
}

// Reads the compound statement of a routine or a program.
pub(crate) fn main_compound(alloc: Global, reader: &mut Reader<'_>) -> Result<Compound, Stop>
    ensures { Parses (λ m. compound_reader m 0) compound_in reader.old result reader.new }
{
    match reader.kind() {
        Kind::Begin => compound(alloc, reader, Depth::OUTSIDE),
        _ => Err(Stop::Misplaced),
    }
}
