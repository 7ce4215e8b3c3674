//! How constants are read.
ghost use Rattle.pas_syntax.specs.Views.{constant_in, separated_in, sign_in};
ghost use Rattle.pas_syntax.specs.inner.Prog.{look};
ghost use Rattle.pas_syntax.specs.inner.Places.{Parses};
ghost use Rattle.pas_syntax.specs.inner.TypeViews.{IsLead};
ghost use Rattle.pas_syntax.specs.inner.TypeReaders as spec;

use crate::operator_kinds::sign_of;
use crate::operators::Sign;
use crate::reader::Reader;
use crate::stop::Stop;
use crate::tree::{Behind, Constant, Lined, Separated};
use pas_tokens::Kind;
use sqlite_items::Items;
use std::alloc::Global;

// Reads `["+"|"-"] (number | id) | string`.
pub(crate) fn constant(reader: &mut Reader<'_>) -> Result<Constant, Stop>
    ensures { Parses (λ _. spec.constant) constant_in reader.old result reader.new }
{
    match reader.kind() {
        Kind::Text => Ok(Constant::Text(reader.quoted()?)),
        _ => {
            let sign = sign(reader);
            unsigned(reader, sign)
        }
    }
}

// Reads a number or a name behind a sign, if there is one.
fn unsigned(reader: &mut Reader<'_>, sign: Option<Lined<Sign>>) -> Result<Constant, Stop>
    ensures { Parses (λ _. look (spec.unsigned_at (sign_in sign))) constant_in reader.old result reader.new }
{
    match reader.kind() {
        Kind::Number => Ok(Constant::Number(sign, reader.numeral()?)),
        _ => Ok(Constant::Named(sign, reader.ident()?)),
    }
}

// Reads a sign, if one comes next.
fn sign(reader: &mut Reader<'_>) -> Option<Lined<Sign>>
    ensures { IsLead reader.old result reader.new }
{
    match sign_of(reader.kind()) {
        Some(sign) => Some(reader.lined(sign)),
        None => None,
    }
}

// Reads `const {"," const}`.
pub(crate) fn constants(alloc: Global, reader: &mut Reader<'_>) -> Result<Separated<Constant>, Stop>
    ensures { Parses (λ m. spec.items_by spec.constant m) (λ spellings. separated_in (constant_in spellings)) reader.old
        result reader.new }
{
    let first = constant(reader)?;
    let mut more = Items::new(alloc);
    'more: loop {
        match reader.kind() {
            Kind::Comma => {
                let line = reader.pass();
                let item = constant(reader)?;
                more.push(Behind { line, item })?;
            }
            _ => return Ok(Separated { first, more }),
        }
    }
}
