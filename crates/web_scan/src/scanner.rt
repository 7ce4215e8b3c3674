//! A reader within a web, with what the web before it gave.
ghost use Rattle.std.specs.Prelude.{◌≡◌, ◌≢◌, ◌<◌, ◌≤◌, length, Ok, Err, IfOk};
ghost use Rattle.wb_base.specs.WorkResult.{IfFault};
ghost use Rattle.web_lex.specs.Token.{token_of, end_of_input};
ghost use Rattle.web_scan.specs.Scanned.{scanning_of, place_of_last, token_read, code_found};
ghost use Rattle.web_scan.specs.Sections.{name_read};
ghost use Rattle.web_scan.specs.Lawful.{IsLawful};

use crate::parts::Parts;
use crate::web::Web;
use change_merge::Lines;
use std::alloc::Global;
use std::marker::Model;
use wb_base::{Options, Place, WorkErr};
use web_lex::{Code, Lexed, Reader};

// A reader within a web, with what the web before it gave.
#[derive(Drop)]
pub(crate) struct Scanner<'l> {
    pub(crate) alloc: Global,
    reader: Reader<'l>,
    pub(crate) parts: Parts,
}

impl<'l> Model for Scanner<'l> {
    ghost use Rattle.web_scan.specs.Scanned.{Scanning};

    ghost Value = { Scanning };

    ghost view = { λ scanner. record { reading = scanner.reader; web = scanner.parts } };
}

impl<'l> Scanner<'l> {
    // The begin of a web.
    pub(crate) fn new(alloc: Global, options: Options, lines: &'l Lines) -> Scanner<'l>
        ensures { result ≡ scanning_of options lines.now }
    {
        Scanner {
            alloc,
            reader: Reader::new(lines),
            parts: Parts::new(alloc, options),
        }
    }

    // The place of the last token.
    pub(crate) fn place(&self) -> Place
        ensures { result ≡ place_of_last self.now }
    {
        self.reader.place()
    }

    // Reads the next token.
    pub(crate) fn token(&mut self) -> Result<Lexed<'l>, WorkErr>
        ensures ok { IfOk result (λ token. token_read self.old ≡ Ok (token_of token, self.new)) }
        ensures fault { IfFault result (λ fault. token_read self.old ≡ Err fault) }
        ensures web { self.new.web ≡ self.old.web }
        ensures shorter { IfOk result (λ token. token_of token ≢ end_of_input
            → length self.new.reading.rest < length self.old.reading.rest) }
        ensures not_longer { length self.new.reading.rest ≤ length self.old.reading.rest }
    {
        Ok(self.reader.next()?)
    }

    // Passes text outside Pascal, and answers the next code that is not passed.
    pub(crate) fn skip_ahead(&mut self) -> Code
        ensures found { code_found self.old ≡ (result, self.new) }
        ensures shorter { result ≢ Code.End → length self.new.reading.rest < length self.old.reading.rest }
        ensures not_longer { length self.new.reading.rest ≤ length self.old.reading.rest }
    {
        self.reader.skip_ahead()
    }

    // Reads the name of a section after `@<`, and answers its place among the names.
    pub(crate) fn section_name(&mut self) -> Result<u32, WorkErr>
        ensures ok { IfOk result (λ found. name_read self.old ≡ Ok (found, self.new)) }
        ensures fault { IfFault result (λ fault. name_read self.old ≡ Err fault) }
        ensures tokens { self.new.web.tokens ≡ self.old.web.tokens }
        ensures not_longer { length self.new.reading.rest ≤ length self.old.reading.rest }
    {
        let name = self.reader.section_name(self.alloc)?;
        let place = self.reader.place();
        self.parts.find_section(place, &name)
    }

    // The web, at its end.
    pub(crate) fn into_web(self) -> Web
        requires { IsLawful self.web }
        ensures { result ≡ self.entry.web }
    {
        Web::new(self.parts)
    }
}
