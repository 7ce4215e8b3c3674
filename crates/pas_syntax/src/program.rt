//! Programs.
ghost use Rattle.std.specs.Prelude.{◌≡◌, IfOk, Ok, List};
ghost use Rattle.wb_base.specs.WorkResult.{IfFault};
ghost use Rattle.pas_tokens.specs.Tokens.{Token, tokens_of, fault_in};
ghost use Rattle.pas_syntax.specs.Parse.{Means, IsOfText, IsFaultOf, left_out, misplaced_by};
ghost use Rattle.pas_syntax.specs.ProgramViews.{program_in};
ghost use Rattle.pas_syntax.specs.inner.Places.{spelled_of};

use crate::programs::program_tree;
use crate::reader::Reader;
use crate::regions::part_behind;
use crate::spellings::spellings;
use crate::stop::Stop;
use crate::tree::ProgramTree;
use pas_tokens::Cursor;
use std::alloc::Global;
use std::marker::Model;
use wb_base::faults::{PASCAL_LEFT_OUT, PASCAL_SYNTAX};
use wb_base::{Fault, FileTag, Text, WorkErr};

/// A program that some text means.
#[derive(Drop)]
pub struct Program {
    spellings: Text,
    tree: ProgramTree,
}

impl Model for Program {
    ghost use Rattle.std.specs.Coded.{codes};
    ghost use Rattle.pas_syntax.specs.contracts.tree.ProgramTree as row;
    ghost use Rattle.pas_syntax.specs.Parse.{IsOfText};
    ghost use Rattle.pas_syntax.specs.ProgramViews.{program_in};
    ghost use Rattle.pas_syntax.specs.Parsed.{Parsed};

    ghost Value = { Parsed };

    ghost coded = { Prim.hlevel (codes, row.the_row.coded) };

    ghost view = { λ program. record { spellings = program.spellings; tree = program.tree } };

    ghost invariant = { λ program. IsOfText (program_in program.spellings program.tree) };
}

impl Program {
    /// The spellings of all names, in small letters, and of all strings, one after the other. The spans of the tree are
    /// parts of them.
    pub fn spellings(&self) -> &[u8]
        ensures { result.now ≡ self.now.spellings }
    {
        self.spellings.bytes()
    }

    /// The tree.
    pub fn tree(&self) -> &ProgramTree
        ensures tree { result.now ≡ self.now.tree }
        ensures of_text { IsOfText (program_in self.now.spellings self.now.tree) }
    {
        &self.tree
    }
}

/// Reads the program that a text means, by the grammar of ISO 7185 in this project's profile.
///
/// # Errors
///
/// The fault of the first token that shows one: 28 where the text has more than 16,777,216 bytes, at line 0; 50, 51 or
/// 53 of the tokens, which are cut off first; else 52 for a token that may not stand there, or 53 where it shows a part
/// of Pascal that is left out or passes a limit of nesting, at the line of the token.
pub fn parse(alloc: Global, text: &[u8]) -> Result<Program, WorkErr>
    ensures ok { IfOk result (λ program. Means text.now (program_in program.spellings program.tree)) }
    ensures fault { IfFault result (λ fault. IsFaultOf text.now fault) }
{
    let cursor = Cursor::new(text)?;
    let spellings = spellings(alloc, cursor)?;
    let tree = tree_of(alloc, text, spellings.bytes())?;
    Ok(Program { spellings, tree })
}

// Reads the tree that a text means, of which these are the spellings.
fn tree_of(alloc: Global, text: &[u8], spellings: &[u8]) -> Result<ProgramTree, WorkErr>
    requires { (tokens : List Token) → tokens_of text.now ≡ Ok tokens → spellings.now ≡ spelled_of tokens }
    ensures ok { IfOk result (λ tree. Means text.now (program_in spellings.now tree)) }
    ensures fault { IfFault result (λ fault. IsFaultOf text.now fault) }
{
    let cursor = Cursor::new(text)?;
    let mut reader = Reader::new(cursor, spellings);
    match program_tree(alloc, &mut reader) {
        Ok(tree) => Ok(tree),
        Err(Stop::OutOfMemory) => Err(WorkErr::OutOfMemory),
        Err(Stop::LeftOut(part)) => Err(WorkErr::Fault(left_out(reader.line(), part))),
        Err(Stop::Misplaced) => {
            let line = reader.line();
            let again = Cursor::new(text)?;
            let part = part_behind(again, reader.taken());
            Err(WorkErr::Fault(misplaced(line, part)))
        }
    }
}

// A part of Pascal that is left out.
fn left_out(line: u32, which: u8) -> Fault
    ensures { result ≡ fault_in line (left_out which) }
{
    Fault {
        code: PASCAL_LEFT_OUT,
        file: FileTag::Pas,
        line,
        which,
    }
}

// A token that may not stand where it stands, and the part of Pascal that it shows there, if any.
fn misplaced(line: u32, part: Option<u8>) -> Fault
    ensures { result ≡ fault_in line (misplaced_by part) }
{
    match part {
        Some(which) => left_out(line, which),
        None => Fault {
            code: PASCAL_SYNTAX,
            file: FileTag::Pas,
            line,
            which: 0,
        },
    }
}
