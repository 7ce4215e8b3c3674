//! The sections of a web.
ghost use Rattle.std.specs.Prelude.{◌≡◌, ◌≢◌, ◌<◌, ◌≤◌, ℕ, length, Ok, Err, IfOk, OnOk};
ghost use Rattle.wb_base.specs.WorkResult.{IfFault};
ghost use Rattle.web_scan.specs.Texts.{still_open, stored_since};
ghost use Rattle.web_scan.specs.Sections.{sections, section, section_parts, named_text, head_read, pascal_text};
ghost use Rattle.web_scan.specs.Sections.{section_text, section_used};
ghost use Rattle.web_scan.specs.inner.Open.{IsOpen};
ghost use Rattle.web_scan.specs.inner.Ended.{section_ended};
ghost use Rattle.web_lex.specs.Token.{token_of};
ghost use Rattle.web_scan.specs.Sections.{is_equals};

use crate::definitions::{is_same, is_sign};
use crate::scanner::Scanner;
use crate::texts::{OpenText, ending_code};
use wb_base::faults::{DEFINITION_IN_PASCAL, NO_EQUALS_SIGN};
use wb_base::{Fault, Tok, WorkErr};
use web_lex::{Code, Lexed};
use web_names::Class;

// Whether a token ends the head of a named text: `=` or `==`.
fn is_equals(token: Lexed<'_>) -> bool
    ensures { result ≡ is_equals (token_of token.entry) }
{
    is_sign(b'=', token) || is_same(token)
}

impl<'l> Scanner<'l> {
    // Scans the sections of a web from a code on. What stands before the first is passed.
    pub(crate) fn sections(&mut self, first: Code) -> Result<(), WorkErr>
        ensures ok { OnOk result ((most : ℕ) → length self.old.reading.rest < most
            → sections most first self.old ≡ Ok self.new.web) }
        ensures fault { IfFault result (λ fault. (most : ℕ) → length self.old.reading.rest < most
            → sections most first self.old ≡ Err fault) }
    {
        let mut code = first;
        loop {
            match code {
                Code::End => return Ok(()),
                Code::Section => code = self.section()?,
                _ => code = self.skip_ahead(),
            }
        }
    }

    // Scans a section after the code that begins it, and answers the code that ends it.
    fn section(&mut self) -> Result<Code, WorkErr>
        ensures ok { IfOk result (λ code. section self.old ≡ Ok (code, self.new)) }
        ensures fault { IfFault result (λ fault. section self.old ≡ Err fault) }
        ensures shorter { IfOk result (λ code. code ≢ Code.End
            → length self.new.reading.rest < length self.old.reading.rest) }
    {
        let place = self.place();
        self.parts.begin_section(place)?;
        let code = self.skip_ahead();
        self.section_parts(code)
    }

    // Scans the definitions and the Pascal text of a section from a code on, and answers the code that ends it.
    fn section_parts(&mut self, first: Code) -> Result<Code, WorkErr>
        ensures ok { IfOk result (λ code. (most : ℕ) → length self.old.reading.rest < most
            → section_parts most first self.old
            ≡ Ok (code, self.new)) }
        ensures fault { IfFault result (λ fault. (most : ℕ) → length self.old.reading.rest < most
            → section_parts most first self.old ≡ Err fault) }
        ensures not_longer { OnOk result (length self.new.reading.rest ≤ length self.old.reading.rest) }
    {
        let mut code = first;
        loop {
            match code {
                Code::Definition => code = self.definition()?,
                Code::Pascal => return self.pascal_text(None),
                Code::Name => return self.named_text(),
                Code::Section | Code::End => return Ok(code),
                _ => code = self.skip_ahead(),
            }
        }
    }

    // Scans a Pascal text after its `@<`, and answers the code that ends it.
    fn named_text(&mut self) -> Result<Code, WorkErr>
        ensures ok { IfOk result (λ code. named_text self.old ≡ Ok (code, self.new)) }
        ensures fault { IfFault result (λ fault. named_text self.old ≡ Err fault) }
        ensures not_longer { OnOk result (length self.new.reading.rest ≤ length self.old.reading.rest) }
    {
        let name = self.section_name()?;
        self.head_signs()?;
        self.pascal_text(Some(name))
    }

    // Reads the signs after the name of a Pascal text: any number of `+`, and then `=` or `==`.
    fn head_signs(&mut self) -> Result<(), WorkErr>
        ensures ok { OnOk result ((most : ℕ) → length self.old.reading.rest < most
            → head_read most self.old ≡ Ok self.new) }
        ensures fault { IfFault result (λ fault. (most : ℕ) → length self.old.reading.rest < most
            → head_read most self.old ≡ Err fault) }
        ensures not_longer { OnOk result (length self.new.reading.rest ≤ length self.old.reading.rest) }
    {
        loop {
            let token = self.token()?;
            if is_equals(token) {
                return Ok(());
            }
            if !is_sign(b'+', token) {
                return Err(Fault::at(NO_EQUALS_SIGN, self.place()).into());
            }
        }
    }

    // Scans a Pascal text under the name with this place, or of the unnamed section. Answers the code that ends it.
    fn pascal_text(&mut self, name: Option<u32>) -> Result<Code, WorkErr>
        ensures ok { IfOk result (λ code. pascal_text name self.old ≡ Ok (code, self.new)) }
        ensures fault { IfFault result (λ fault. pascal_text name self.old ≡ Err fault) }
        ensures not_longer { OnOk result (length self.new.reading.rest ≤ length self.old.reading.rest) }
    {
        let mut text = self.begin_text(Class::Ordinary);
        let code = self.section_text(&mut text)?;
        self.parts.add_piece(name, text.first)?;
        Ok(code)
    }

    // Scans the tokens of a section's text, and answers the code that ends it.
    fn section_text(&mut self, text: &mut OpenText) -> Result<Code, WorkErr>
        requires open { IsOpen text.old self.old.web }
        requires class { text.old.class ≡ Class.Ordinary }
        ensures ok { IfOk result (λ code. (most : ℕ) → length self.old.reading.rest < most
            → section_text most text.old.first self.old
            ≡ Ok (stored_since text.old.first self.new.web, code, self.new)) }
        ensures fault { IfFault result (λ fault. (most : ℕ) → length self.old.reading.rest < most
            → section_text most text.old.first self.old ≡ Err fault) }
        ensures first { text.new.first ≡ text.old.first }
        ensures within { OnOk result (text.new.first ≤ length self.new.web.tokens) }
        ensures not_longer { OnOk result (length self.new.reading.rest ≤ length self.old.reading.rest) }
    {
        loop {
            let token = self.token()?;
            match ending_code(token) {
                None => self.text_token(text, token)?,
                Some(code) => match code {
                    Code::Name => self.section_used()?,
                    _ => return self.section_end(text, code),
                },
            }
        }
    }

    // A code other than a name's, which ends the text of a macro, in the text of a section: a section start or the end
    // of the input ends it, and no other may stand in it.
    fn section_end(&self, text: &OpenText, code: Code) -> Result<Code, WorkErr>
        requires { IsOpen text.now self.now.web }
        ensures ok { IfOk result (λ ended. section_ended text.now.first code self.now
            ≡ Ok (stored_since text.now.first self.now.web, ended, self.now)) }
        ensures fault { IfFault result (λ fault. section_ended text.now.first code self.now ≡ Err fault) }
    {
        match code {
            Code::End | Code::Section => {
                self.check_ended(text)?;
                Ok(code)
            }
            _ => Err(Fault::at(DEFINITION_IN_PASCAL, self.place()).into()),
        }
    }

    // Stores the name of a section in a text.
    fn section_used(&mut self) -> Result<(), WorkErr>
        ensures ok { OnOk result (section_used self.old ≡ Ok self.new) }
        ensures fault { IfFault result (λ fault. section_used self.old ≡ Err fault) }
        ensures not_longer { OnOk result (length self.new.reading.rest ≤ length self.old.reading.rest) }
        ensures grows { OnOk result (length self.old.web.tokens ≤ length self.new.web.tokens) }
        ensures open { OnOk result ((first : ℕ) → first ≤ length self.old.web.tokens
            → still_open (stored_since first self.new.web) ≡ still_open (stored_since first self.old.web)) }
    {
        let name = self.section_name()?;
        let place = self.place();
        self.parts.store(place, Tok::Section(name))
    }
}
