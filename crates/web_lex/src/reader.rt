//! The reader of a web's tokens.
ghost use Rattle.std.specs.Prelude.{◌≡◌, ◌≢◌, ◌<◌, ◌≤◌, Ok, Err, None, IfOk, OnOk, IfErr, OnErr, length, slice_get};
ghost use Rattle.wb_base.specs.WorkResult.{IfFault};
ghost use Rattle.wb_base.specs.declared.faults.WorkErr.TheVariants.{OutOfMemory};
ghost use Rattle.web_lex.specs.Token.{token_of, end_of_input};
ghost use Rattle.web_lex.specs.Gaps.{gap_at};
ghost use Rattle.web_lex.specs.Reading.{token_at, first_token, begins_exponent};
ghost use Rattle.web_lex.specs.inner.Reads.{read_of};

use crate::codes::Code;
use crate::cursor::Cursor;
use crate::gaps::skip_gaps;
use crate::section_names::{SectionName, read_name};
use crate::skipping::find_code;
use crate::tokens::{Lexed, first_of_line};
use change_merge::Lines;
use std::alloc::Global;
use std::marker::Model;
use wb_base::faults::REAL_CONSTANT;
use wb_base::{Fault, FileTag, Place, WorkErr};

/// A reader of the words of a web, over its merged lines. To contracts it is what is left of the web's text, whether a
/// digit stands directly before that, the place of its last token, that of the end, and the fault that it met.
///
/// A token costs its own bytes: texts are slices of the lines, and only the name of a section is copied.
#[derive(Drop)]
pub struct Reader<'l> {
    cursor: Cursor<'l>,
    after_digit: bool,
    place: Place,
    fault: Option<Fault>,
}

impl<'l> Model for Reader<'l> {
    ghost use Rattle.web_lex.specs.Reading.{Reading};

    ghost Value = { Reading };

    ghost view = { λ reader. record {
      rest = reader.cursor.rest;
      after_digit = reader.after_digit;
      place = reader.place;
      end = reader.cursor.end;
      fault = reader.fault;
    } };
}

impl<'l> Reader<'l> {
    ghost use Rattle.web_lex.specs.Reading.{reading_of, next_token, next_name, skipped, after_fault};

    /// A reader of these lines before their first token.
    pub fn new(lines: &'l Lines) -> Reader<'l>
        ensures { result ≡ reading_of lines.now }
    {
        Reader {
            cursor: Cursor::new(lines),
            after_digit: false,
            place: Place {
                file: FileTag::Web,
                line: 0,
            },
            fault: None,
        }
    }

    /// Passes text outside Pascal, and answers the next code that is neither ignored nor a doubled at sign. At the end
    /// of the input, and after a fault, this is [`Code::End`].
    pub fn skip_ahead(&mut self) -> Code
        ensures code { result ≡ (skipped self.old).0 }
        ensures after { self.new ≡ (skipped self.old).1 }
        ensures shorter { result ≢ Code.End → length self.new.rest < length self.old.rest }
        ensures not_longer { length self.new.rest ≤ length self.old.rest }
    {
        if self.fault.is_some() {
            return Code::End;
        }
        self.after_digit = false;
        match find_code(&mut self.cursor) {
            Some((code, place)) => {
                self.place = place;
                code
            }
            None => {
                self.place = self.cursor.end();
                Code::End
            }
        }
    }

    /// Reads the next token of Pascal text. White space, comments, ignored codes and control texts before it vanish.
    ///
    /// Faults, each at the line of the byte that shows it: 8 a byte outside 32 to 126 but the tab, and the tab in a
    /// string or verbatim text; 9 a comment that does not end, or holds a section start; 10 a string that does not end
    /// on its line; 11 an at sign that is not doubled in a string or verbatim text; 13 `}` or `@>` where nothing is to
    /// be ended; 14 a number without digits, a verbatim text that does not end on its line, a control text that does
    /// not end or holds another code; 18 a number past 2147483647; 35 `e` or `E` directly after a digit; 43 `@$`. After
    /// a fault the same fault is answered again.
    pub fn next(&mut self) -> Result<Lexed<'l>, Fault>
        ensures ok { IfOk result (λ lexed. next_token self.old ≡ Ok (token_of lexed, self.new)) }
        ensures fault { IfErr result (λ fault. next_token self.old ≡ Err fault) }
        ensures after_fault { IfErr result (λ fault. self.new ≡ after_fault self.old fault) }
        ensures shorter { IfOk result (λ lexed. token_of lexed ≢ end_of_input
            → length self.new.rest < length self.old.rest) }
        ensures not_longer { length self.new.rest ≤ length self.old.rest }
    {
        match self.read() {
            Ok(token) => Ok(token),
            Err(fault) => {
                self.remember(fault);
                Err(fault)
            }
        }
    }

    /// Reads on after `@<`: the name of a section and the `@>` that ends it.
    ///
    /// Faults: 8 a byte outside 32 to 126 but the tab; 12 a name that does not end, holds a section start, or is empty.
    /// After a fault the same fault is answered again. Where no memory is found, the reader is as it was.
    pub fn section_name(&mut self, alloc: Global) -> Result<SectionName, WorkErr>
        ensures ok { IfOk result (λ name. next_name self.old ≡ Ok (name, self.new)) }
        ensures fault { IfFault result (λ fault. next_name self.old ≡ Err fault) }
        ensures after_fault { IfFault result (λ fault. self.new ≡ after_fault self.old fault) }
        ensures out_of_memory { result ≡ Err OutOfMemory → self.new ≡ self.old }
        ensures not_longer { length self.new.rest ≤ length self.old.rest }
    {
        match self.read_name(alloc) {
            Ok(name) => Ok(name),
            Err(WorkErr::Fault(fault)) => {
                self.remember(fault);
                Err(WorkErr::Fault(fault))
            }
            Err(WorkErr::OutOfMemory) => Err(WorkErr::OutOfMemory),
        }
    }

    /// The line of the last token: line 0 of the web before the first, at the end of the input the last line, or line 0
    /// of the web where there is none, and after a fault that of the fault. The name of a section stands at the line of
    /// its `@<`.
    pub fn place(&self) -> Place
        ensures { result ≡ self.now.place }
    {
        self.place
    }

    // Reads the next token; at a fault the reader stays as it is.
    fn read(&mut self) -> Result<Lexed<'l>, Fault>
        ensures ok { IfOk result (λ lexed. next_token self.old ≡ Ok (token_of lexed, self.new)) }
        ensures fault { IfErr result (λ fault. next_token self.old ≡ Err fault) }
        ensures after_fault { IfErr result (λ _. self.new ≡ self.old) }
        ensures shorter { IfOk result (λ lexed. token_of lexed ≢ end_of_input
            → length self.new.rest < length self.old.rest) }
        ensures not_longer { length self.new.rest ≤ length self.old.rest }
    {
        if let Some(fault) = self.fault {
            return Err(fault);
        }
        let mut cursor = self.cursor.copied();
        match read_token(&mut cursor, self.after_digit) {
            Ok(read) => {
                self.cursor = cursor;
                self.after_digit = read.after_digit;
                self.place = read.place;
                Ok(read.token)
            }
            Err(fault) => Err(fault),
        }
    }

    // Reads the name of a section; at a fault and without memory the reader stays as it is.
    fn read_name(&mut self, alloc: Global) -> Result<SectionName, WorkErr>
        ensures ok { IfOk result (λ name. next_name self.old ≡ Ok (name, self.new)) }
        ensures fault { IfFault result (λ fault. next_name self.old ≡ Err fault) }
        ensures err { OnErr result (self.new ≡ self.old) }
        ensures not_longer { length self.new.rest ≤ length self.old.rest }
    {
        if let Some(fault) = self.fault {
            return Err(WorkErr::Fault(fault));
        }
        let mut cursor = self.cursor.copied();
        match read_name(&mut cursor, alloc) {
            Ok(name) => {
                self.cursor = cursor;
                self.after_digit = false;
                Ok(name)
            }
            Err(error) => Err(error),
        }
    }

    // Keeps a fault.
    fn remember(&mut self, fault: Fault)
        ensures { self.new ≡ after_fault self.old fault }
    {
        self.place = Place {
            file: fault.file,
            line: fault.line,
        };
        self.fault = Some(fault);
    }
}

// A token with its place, and whether it ends in a decimal digit as a digit or number does.
#[derive(Clone, Copy)]
struct Read<'l> {
    token: Lexed<'l>,
    place: Place,
    after_digit: bool,
}

// Reads the next token, where a digit stands directly before it or not.
fn read_token<'l>(cursor: &mut Cursor<'l>, after_digit: bool) -> Result<Read<'l>, Fault>
    ensures token { token_at cursor.old.end after_digit cursor.old.rest ≡ read_of result cursor.new.rest }
    ensures shorter { IfOk result (λ read. token_of read.token ≢ end_of_input
        → length cursor.new.rest < length cursor.old.rest) }
    ensures not_longer { OnOk result (length cursor.new.rest ≤ length cursor.old.rest) }
    ensures end { cursor.new.end ≡ cursor.old.end }
{
    if after_digit && begins_exponent(cursor) {
        return Err(Fault::at(REAL_CONSTANT, cursor.place()));
    }
    skip_gaps(cursor)?;
    read_first(cursor)
}

// Whether `e` or `E` comes next.
fn begins_exponent(cursor: &Cursor<'_>) -> bool
    ensures { result ≡ begins_exponent cursor.now.rest }
{
    matches!(cursor.first(), Some(b'e' | b'E'))
}

// Reads the token that comes next, where nothing vanishes before it.
fn read_first<'l>(cursor: &mut Cursor<'l>) -> Result<Read<'l>, Fault>
    requires { gap_at cursor.old.end cursor.old.rest ≡ Ok None }
    ensures token { first_token cursor.old.end cursor.old.rest ≡ read_of result cursor.new.rest }
    ensures shorter { IfOk result (λ read. token_of read.token ≢ end_of_input
        → length cursor.new.rest < length cursor.old.rest) }
    ensures not_longer { length cursor.new.rest ≤ length cursor.old.rest }
    ensures end { cursor.new.end ≡ cursor.old.end }
{
    let place = cursor.place();
    let Some(_) = cursor.first() else {
        return Ok(Read {
            token: Lexed::End,
            place,
            after_digit: false,
        });
    };
    let line = cursor.line();
    match first_of_line(line) {
        Ok(found) => {
            cursor.pass(found.size);
            Ok(Read {
                token: found.token,
                place,
                after_digit: found.token.ends_in_digit(byte_at(line, found.size - 1)),
            })
        }
        Err(code) => Err(Fault::at(code, place)),
    }
}

// The byte at this index, if there is one.
fn byte_at(bytes: &[u8], index: usize) -> Option<u8>
    ensures { result ≡ slice_get bytes.now index }
{
    bytes.get(index).copied()
}
