//! A place in a Pascal text that is read.
ghost use Rattle.std.specs.Prelude.{◌≡◌, ◌≢◌, ◌≤◌, suc, length, map, Ok};
ghost use Rattle.std.specs.Char.{to_ascii_lowercase};
ghost use Rattle.std.specs.Str.{bytes_eq};
ghost use Rattle.wb_base.specs.declared.faults.TheConstants.{FILE_LIMIT};
ghost use Rattle.pas_tokens.specs.declared.kinds.Kind.TheVariants as k;
ghost use Rattle.pas_tokens.specs.inner.CodeCuts.{token_by, payload_by};
ghost use Rattle.pas_tokens.specs.declared.kinds.Kind.{Kind};
ghost use Rattle.pas_syntax.specs.Views.{spelled_in, ident_in, numeral_in, quoted_in};
ghost use Rattle.pas_syntax.specs.inner.Prog.{head};
ghost use Rattle.pas_syntax.specs.inner.Places.{Fits, IsMark, AreTokens, Passes, Parses, spelled_by, spelled_of, same};
ghost use Rattle.pas_syntax.specs.inner.Marks.{mark, maybe_mark};
ghost use Rattle.pas_syntax.specs.inner.Readers.{ident, quoted};
ghost use Rattle.pas_syntax.specs.inner.StatementReaders.{numeral};

use crate::stop::Stop;
use crate::tree::{Ident, Lined, Numeral, Quoted, Span};
use pas_tokens::{Cursor, Kind, Payload, Token};
use std::marker::Model;

// A place in a Pascal text, before one of its tokens.
#[derive(Drop)]
pub(crate) struct Reader<'t> {
    cursor: Cursor<'t>,
    // The spellings of all names and strings of the text, and how many bytes of them stand before this place.
    spellings: &'t [u8],
    spelled: usize,
    // How many tokens stand before this place.
    taken: usize,
}

impl<'t> Model for Reader<'t> {
    ghost use Rattle.pas_syntax.specs.inner.Places.{Place, place_of, IsReader};

    ghost Value = { Place };

    ghost view = { place_of };

    ghost invariant = { IsReader };
}

impl<'t> Reader<'t> {
    // The first place of a text of which these are the spellings.
    pub(crate) fn new(cursor: Cursor<'t>, spellings: &'t [u8]) -> Reader<'t>
        requires tokens { AreTokens cursor }
        requires spelled { spellings.now ≡ spelled_of cursor }
        requires short { length spellings.now ≤ FILE_LIMIT }
        requires few { length cursor ≤ suc FILE_LIMIT }
        ensures { result ≡ record { spellings = spellings.now; taken = 0; tokens = cursor.entry } }
    {
        Reader {
            cursor,
            spellings,
            spelled: 0,
            taken: 0,
        }
    }

    // How many tokens stand before this place.
    pub(crate) fn taken(&self) -> usize
        ensures { result ≡ self.now.taken }
    {
        self.taken
    }

    // The token that comes next.
    pub(crate) fn peek(&self) -> Token<'t>
        ensures token { token_by result ≡ head self.now.tokens }
        ensures fits { Fits (head self.now.tokens).kind (head self.now.tokens).payload }
    {
        self.cursor.peek()
    }

    // What the token is that comes next.
    pub(crate) fn kind(&self) -> Kind
        ensures kind { result ≡ (head self.now.tokens).kind }
        ensures fits { Fits (head self.now.tokens).kind (head self.now.tokens).payload }
    {
        self.peek().kind
    }

    // The line of the token that comes next.
    pub(crate) fn line(&self) -> u32
        ensures line { result ≡ (head self.now.tokens).line }
        ensures tokens { AreTokens self.now.tokens }
    {
        self.cursor.peek().line
    }

    // Goes behind the token that comes next, which is not the end of the text, and tells its line.
    pub(crate) fn pass(&mut self) -> u32
        requires { (head self.old.tokens).kind ≢ k.EndOfText }
        ensures { Passes self.old result self.new }
    {
        let token = self.cursor.peek();
        self.spelled += spelled_by(token.payload);
        self.taken += 1;
        self.cursor.advance();
        token.line
    }

    // Goes behind a token of this kind, and tells its line.
    pub(crate) fn take(&mut self, kind: Kind) -> Result<u32, Stop>
        requires { IsMark kind }
        ensures { Parses (λ _. mark kind) same self.old result self.new }
    {
        if kind == self.kind() {
            Ok(self.pass())
        } else {
            Err(Stop::Misplaced)
        }
    }

    // Goes behind a token of this kind, if it comes next, and tells its line.
    pub(crate) fn maybe(&mut self, kind: Kind) -> Option<u32>
        requires { IsMark kind }
        ensures { Parses (λ _. maybe_mark kind) same self.old (Ok result) self.new }
    {
        if kind == self.kind() {
            Some(self.pass())
        } else {
            None
        }
    }

    // Goes behind a token that is not the end of the text, and pairs its line with this.
    pub(crate) fn lined<T>(&mut self, item: T) -> Lined<T>
        requires { (head self.old.tokens).kind ≢ k.EndOfText }
        ensures item { result.item ≡ item }
        ensures passes { Passes self.old result.line self.new }
    {
        Lined {
            item,
            line: self.pass(),
        }
    }

    // Goes behind a name.
    pub(crate) fn ident(&mut self) -> Result<Ident, Stop>
        ensures { Parses (λ _. ident) ident_in self.old result self.new }
    {
        match self.kind() {
            Kind::Name => {
                let span = self.span();
                Ok(Ident {
                    span,
                    line: self.pass(),
                })
            }
            _ => Err(Stop::Misplaced),
        }
    }

    // Goes behind a number.
    pub(crate) fn numeral(&mut self) -> Result<Numeral, Stop>
        ensures { Parses (λ _. numeral) (λ _. numeral_in) self.old result self.new }
    {
        match self.peek().payload {
            Payload::Value(value) => Ok(Numeral {
                value,
                line: self.pass(),
            }),
            _ => Err(Stop::Misplaced),
        }
    }

    // Goes behind a string.
    pub(crate) fn quoted(&mut self) -> Result<Quoted, Stop>
        ensures { Parses (λ _. quoted) quoted_in self.old result self.new }
    {
        match self.kind() {
            Kind::Text => {
                let span = self.span();
                Ok(Quoted {
                    span,
                    line: self.pass(),
                })
            }
            _ => Err(Stop::Misplaced),
        }
    }

    // Whether a name before this place is spelled so.
    pub(crate) fn spells(&self, ident: Ident, name: &[u8]) -> bool
        ensures { result ≡ bytes_eq (spelled_in self.now.spellings ident.span) name.now }
    {
        let first = self.spellings.len().min(ident.span.first as usize);
        let rest = &self.spellings[first..];
        let count = rest.len().min(ident.span.count as usize);
        &rest[..count] == name
    }

    // Whether the name that comes next is spelled so, in small or large letters.
    pub(crate) fn comes(&self, name: &[u8]) -> bool
        ensures { k.Name ≡ (head self.now.tokens).kind → result ≡ bytes_eq (spelled_by (head self.now.tokens).payload)
            (map to_ascii_lowercase name.now) }
    {
        match self.peek().payload {
            Payload::Spelling(bytes) => bytes.eq_ignore_ascii_case(name),
            _ => false,
        }
    }

    // Where the spelling of the token that comes next stands.
    fn span(&self) -> Span
        ensures { spelled_in self.now.spellings result ≡ spelled_by (head self.now.tokens).payload }
    {
        Span {
            first: self.spelled as u32,
            count: spelled_by(self.cursor.peek().payload) as u32,
        }
    }
}

// How many bytes of the spellings belong to a token.
fn spelled_by(payload: Payload<'_>) -> usize
    ensures { (kind : Kind) → result ≡ length (spelled_by (payload_by kind payload.exit)) }
{
    match payload {
        Payload::Spelling(bytes) => bytes.len(),
        _ => 0,
    }
}
