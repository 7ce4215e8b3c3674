//! How programs are read.
ghost use Rattle.pas_syntax.specs.Views.{if_there};
ghost use Rattle.pas_syntax.specs.ProgramViews.{program_parameters_in, program_in};
ghost use Rattle.pas_syntax.specs.inner.Prog.{look};
ghost use Rattle.pas_syntax.specs.inner.Places.{Parses, same};
ghost use Rattle.pas_syntax.specs.inner.DeclarationReaders as spec;
ghost use Rattle.pas_syntax.specs.inner.DeclarationViews.{program_head_in, end_line};

use crate::declarations::declarations;
use crate::reader::Reader;
use crate::routines::main_compound;
use crate::stop::Stop;
use crate::tree::{ProgramHead, ProgramParameters, ProgramTree};
use crate::type_forms::idents;
use pas_tokens::Kind;
use std::alloc::Global;

// Reads a whole text.
pub(crate) fn program_tree(alloc: Global, reader: &mut Reader<'_>) -> Result<ProgramTree, Stop>
    ensures { Parses spec.program program_in reader.old result reader.new }
{
    let head = program_head(alloc, reader)?;
    let declarations = declarations(alloc, reader)?;
    let body = main_compound(alloc, reader)?;
    let dot = reader.take(Kind::Dot)?;
    let end = end_of_text(reader)?;
    Ok(ProgramTree {
        head,
        declarations,
        body,
        dot,
        end,
    })
}

// Reads `"program" id ["(" id {"," id} ")"] ";"`.
fn program_head(alloc: Global, reader: &mut Reader<'_>) -> Result<ProgramHead, Stop>
    ensures { Parses spec.program_head program_head_in reader.old result reader.new }
{
    let line = reader.take(Kind::Program)?;
    let name = reader.ident()?;
    let parameters = program_parameters(alloc, reader)?;
    let end = reader.take(Kind::Semicolon)?;
    Ok(ProgramHead {
        line,
        name,
        parameters,
        end,
    })
}

// Reads `["(" id {"," id} ")"]`.
fn program_parameters(
    alloc: Global,
    reader: &mut Reader<'_>,
) -> Result<Option<ProgramParameters>, Stop>
    ensures { Parses spec.program_parameters (λ spellings. if_there (program_parameters_in spellings)) reader.old result
        reader.new }
{
    match reader.kind() {
        Kind::LeftParenthesis => {
            let opened = reader.pass();
            let names = idents(alloc, reader)?;
            let closed = reader.take(Kind::RightParenthesis)?;
            Ok(Some(ProgramParameters {
                opened,
                names,
                closed,
            }))
        }
        _ => Ok(None),
    }
}

// Stays before the end of the text, and tells its line.
fn end_of_text(reader: &Reader<'_>) -> Result<u32, Stop>
    ensures { Parses (λ _. look end_line) same reader.now result reader.now }
{
    let token = reader.peek();
    match token.kind {
        Kind::EndOfText => Ok(token.line),
        _ => Err(Stop::Misplaced),
    }
}
