//! How the elements of a `case` are read.
ghost use Rattle.std.specs.Prelude.{◌≡◌, ℕ, List};
ghost use Rattle.pas_tokens.specs.declared.kinds.Kind.TheVariants as k;
ghost use Rattle.pas_syntax.specs.Nearest.{last_item};
ghost use Rattle.pas_syntax.specs.Tree as tree;
ghost use Rattle.pas_syntax.specs.Views.{constant_in, separated_in};
ghost use Rattle.pas_syntax.specs.ProgramViews.{statement_in, others_in};
ghost use Rattle.pas_syntax.specs.inner.Prog.{head};
ghost use Rattle.pas_syntax.specs.inner.Places.{Parses, ParsesIn};
ghost use Rattle.pas_syntax.specs.inner.Deeps.{Makes};
ghost use Rattle.pas_syntax.specs.inner.StatementReaders as spec;
ghost use Rattle.pas_syntax.specs.inner.StatementViews.{an_element_in, arm_in, arms_in, others_before_colon};

use crate::constants::constants;
use crate::depth::Depth;
use crate::reader::Reader;
use crate::statements::statement;
use crate::stop::Stop;
use crate::tree::{
    Constant, Element, Elements, MoreElement, Others, OthersHead, Separated, Statement,
};
use pas_tokens::Kind;
use sqlite_items::{Boxed, Items};
use std::alloc::Global;

// The name that has a meaning of its own before the colon of an element.
const OTHERS: &[u8] = b"others";

// What a `case` chooses among.
#[derive(Drop)]
pub(crate) struct Arms {
    pub(crate) elements: Elements,
    pub(crate) others: Others,
}

// What may stand behind the semicolon of an element.
#[derive(Drop)]
enum Arm {
    Element(Element),
    Others(Others),
}

// Reads `elem {";" elem} [";" ["others" ":" stmt [";"]]]`.
#[cycle(statement)]
pub(crate) fn case_arms(alloc: Global, reader: &mut Reader<'_>, depth: Depth) -> Result<Arms, Stop>
    ensures { Parses (λ m. spec.arms m depth.forms) arms_in reader.old result reader.new }
{
    let constants = constants(alloc, reader)?;
    let first = element(alloc, reader, depth, constants)?;
    let mut more = Items::new(alloc);
    'more: loop {
        match reader.maybe(Kind::Semicolon) {
            Some(line) => {
                let arm = next_arm(alloc, reader, depth, line)?;
                match arm {
                    Arm::Element(element) => more.push(MoreElement { line, element })?,
                    Arm::Others(others) => {
                        let elements = Elements { first, more };
                        return Ok(Arms { elements, others });
                    }
                }
            }
            None => {
                let elements = Elements { first, more };
                return Ok(Arms {
                    elements,
                    others: Others::Nothing,
                });
            }
        }
    }
}

// Reads what stands behind a semicolon in this line.
#[cycle(statement)]
fn next_arm(
    alloc: Global,
    reader: &mut Reader<'_>,
    depth: Depth,
    semicolon: u32,
) -> Result<Arm, Stop>
    ensures { Parses (λ m. spec.next_arm m depth.forms semicolon) arm_in reader.old result reader.new }
{
    match reader.kind() {
        Kind::End => Ok(Arm::Others(Others::Semicolon(semicolon))),
        _ => {
            let constants = constants(alloc, reader)?;
            match others_line(reader, &constants) {
                Some(line) => {
                    let colon = reader.pass();
                    let head = OthersHead {
                        semicolon,
                        line,
                        colon,
                    };
                    let chosen = statement(alloc, reader, depth)?;
                    let end = reader.maybe(Kind::Semicolon);
                    others(alloc, head, chosen, end)
                }
                None => Ok(Arm::Element(element(alloc, reader, depth, constants)?)),
            }
        }
    }
}

// What stands behind `others`.
fn others(alloc: Global, head: OthersHead, chosen: Statement, end: Option<u32>) -> Result<Arm, Stop>
    ensures { Makes arm_in result (λ spellings. spec.tail
        (tree.others head.semicolon head.line head.colon (statement_in spellings chosen) end)) }
{
    Ok(Arm::Others(Others::Others(head, Boxed::new(alloc, chosen)?, end)))
}

// The line of `others`, where constants before a colon are that name alone.
fn others_line(reader: &Reader<'_>, constants: &Separated<Constant>) -> Option<u32>
    ensures { result ≡ others_before_colon (head reader.now.tokens).kind
        (separated_in (constant_in reader.now.spellings) constants.now) }
{
    if !constants.more.is_empty() {
        return None;
    }
    match (reader.kind(), constants.first) {
        (Kind::Colon, Constant::Named(None, ident)) if reader.spells(ident, OTHERS) => {
            Some(ident.line)
        }
        _ => None,
    }
}

// Reads `":" stmt` behind the constants of an element.
#[cycle(statement)]
fn element(
    alloc: Global,
    reader: &mut Reader<'_>,
    depth: Depth,
    constants: Separated<Constant>,
) -> Result<Element, Stop>
    ensures { Parses (λ m. spec.element m depth.forms
        (separated_in (constant_in reader.old.spellings) constants)) an_element_in reader.old result reader.new }
{
    if is_others(reader, last_of(&constants)) {
        return Err(Stop::Misplaced);
    }
    let colon = reader.take(Kind::Colon)?;
    let statement = statement(alloc, reader, depth)?;
    Ok(Element {
        constants,
        colon,
        statement,
    })
}

// The last of some constants.
fn last_of(constants: &Separated<Constant>) -> Constant
    ensures { (spellings : List ℕ) → constant_in spellings result
        ≡ last_item (separated_in (constant_in spellings) constants.now) }
{
    match constants.more.as_slice().last() {
        Some(behind) => behind.item,
        None => constants.first,
    }
}

// Whether a constant is the name `others`.
fn is_others(reader: &Reader<'_>, constant: Constant) -> bool
    ensures { result ≡ spec.is_others (constant_in reader.now.spellings constant) }
{
    match constant {
        Constant::Named(_, ident) => reader.spells(ident, OTHERS),
        _ => false,
    }
}
