//! The tokens of the texts of macros and sections.
ghost use Rattle.std.specs.Prelude.{◌≡◌, ◌<◌, ◌≤◌, ℕ, length, Ok, Err, IfOk, OnOk};
ghost use Rattle.wb_base.specs.WorkResult.{IfFault};
ghost use Rattle.web_lex.specs.Token.{token_of, control};
ghost use Rattle.web_names.specs.declared.classes.Class.{Class};
ghost use Rattle.web_scan.specs.Scanned.{place_of_last};
ghost use Rattle.web_scan.specs.Texts.{sign_token, token_stored, text_token, stored_since, ended_text, ending_code};
ghost use Rattle.web_scan.specs.Texts.{macro_text};
ghost use Rattle.web_scan.specs.inner.Open.{IsOpen};

use crate::scanner::Scanner;
use crate::strings::{quoted_text, string_value, verbatim_text};
use wb_base::faults::UNBALANCED_PARENTHESES;
use wb_base::{Fault, Tok, WorkErr};
use web_lex::{Code, Lexed};
use web_names::Class;

// A text that is read: the class of its macro, or the ordinary one for the text of a section, how many tokens are
// stored before it, and how many of its parentheses are open.
#[derive(Drop)]
pub(crate) struct OpenText {
    pub(crate) class: Class,
    pub(crate) first: u32,
    depth: u32,
}

// The code by which a token ends the right side of a definition, if it does.
pub(crate) fn ending_code(token: Lexed<'_>) -> Option<Code>
    ensures { result ≡ ending_code (token_of token.entry) }
{
    match token {
        Lexed::End => Some(Code::End),
        Lexed::Code(code) => match code {
            Code::Definition | Code::Format | Code::Pascal | Code::Name | Code::Section => Some(
                code,
            ),
            _ => None,
        },
        _ => None,
    }
}

impl<'l> Scanner<'l> {
    // A text of a macro of this class, or of a section where it is the ordinary one, before its first token.
    pub(crate) fn begin_text(&self, class: Class) -> OpenText
        ensures class { result.class ≡ class }
        ensures first { result.first ≡ length self.now.web.tokens }
        ensures open { IsOpen result self.now.web }
    {
        OpenText {
            class,
            first: self.parts.token_count(),
            depth: 0,
        }
    }

    // Reads the text of a macro, and answers the code that ends it.
    pub(crate) fn macro_text(&mut self, text: &mut OpenText) -> Result<Code, WorkErr>
        requires { IsOpen text.old self.old.web }
        ensures ok { IfOk result (λ code. (most : ℕ) → length self.old.reading.rest < most
            → macro_text most text.old.class text.old.first self.old
            ≡ Ok (stored_since text.old.first self.new.web, code, self.new)) }
        ensures fault { IfFault result (λ fault. (most : ℕ) → length self.old.reading.rest < most
            → macro_text most text.old.class text.old.first self.old ≡ Err fault) }
        ensures first { text.new.first ≡ text.old.first }
        ensures within { OnOk result (text.new.first ≤ length self.new.web.tokens) }
        ensures not_longer { OnOk result (length self.new.reading.rest ≤ length self.old.reading.rest) }
    {
        loop {
            let token = self.token()?;
            if let Some(code) = ending_code(token) {
                self.check_ended(text)?;
                return Ok(code);
            }
            self.text_token(text, token)?;
        }
    }

    // At the token that ends a text, no parenthesis may be open.
    pub(crate) fn check_ended(&self, text: &OpenText) -> Result<(), WorkErr>
        requires { IsOpen text.now self.now.web }
        ensures ok { OnOk result (ended_text text.now.first self.now
            ≡ Ok (stored_since text.now.first self.now.web)) }
        ensures fault { IfFault result (λ fault. ended_text text.now.first self.now ≡ Err fault) }
    {
        if text.depth == 0 {
            Ok(())
        } else {
            Err(Fault::at(UNBALANCED_PARENTHESES, self.place()).into())
        }
    }

    // Stores the next token of a text, unless it closes a parenthesis that is not open.
    pub(crate) fn text_token(
        &mut self,
        text: &mut OpenText,
        token: Lexed<'l>,
    ) -> Result<(), WorkErr>
        requires { IsOpen text.old self.old.web }
        ensures ok { OnOk result (text_token text.old.class text.old.first (token_of token.entry) self.old
            ≡ Ok self.new) }
        ensures fault { IfFault result (λ fault.
            text_token text.old.class text.old.first (token_of token.entry) self.old ≡ Err fault) }
        ensures open { OnOk result (IsOpen text.new self.new.web) }
        ensures class { text.new.class ≡ text.old.class }
        ensures first { text.new.first ≡ text.old.first }
        ensures reading { self.new.reading ≡ self.old.reading }
    {
        match token {
            Lexed::Sign(b'(') => {
                self.store_token(text.class, token)?;
                text.depth += 1;
            }
            Lexed::Sign(b')') => {
                if text.depth == 0 {
                    return Err(Fault::at(UNBALANCED_PARENTHESES, self.place()).into());
                }
                self.store_token(text.class, token)?;
                text.depth -= 1;
            }
            _ => self.store_token(text.class, token)?,
        }
        Ok(())
    }

    // Stores a token of a text.
    fn store_token(&mut self, class: Class, token: Lexed<'l>) -> Result<(), WorkErr>
        ensures ok { OnOk result (token_stored class (place_of_last self.old) (token_of token.entry) self.old.web
            ≡ Ok self.new.web) }
        ensures fault { IfFault result (λ fault.
            token_stored class (place_of_last self.old) (token_of token.entry) self.old.web ≡ Err fault) }
        ensures grows { length self.old.web.tokens ≤ length self.new.web.tokens }
        ensures reading { self.new.reading ≡ self.old.reading }
    {
        let place = self.place();
        match token {
            Lexed::Letter(letter) => self.parts.store_letter(place, letter),
            Lexed::Digit(digit) => self.parts.store(place, Tok::Digit(digit)),
            Lexed::Word(word) => self.parts.store_word(place, word),
            Lexed::Based(value) => self.parts.store(place, Tok::Number(i64::from(value))),
            Lexed::Sign(byte) => self.parts.store(place, sign_token(class, byte)),
            Lexed::Joined(joined) => self.parts.store(place, Tok::Joined(joined)),
            Lexed::Quoted(bytes) => {
                let text = quoted_text(self.alloc, bytes)?;
                self.parts.store_quoted(place, text)
            }
            Lexed::Pool(bytes) => {
                let value = string_value(self.alloc, bytes)?;
                self.parts.store_string(place, value.bytes())
            }
            Lexed::Verbatim(bytes) => {
                let text = verbatim_text(self.alloc, bytes)?;
                self.parts.store_verbatim(place, text)
            }
            Lexed::Code(code) => self.store_code(code),
            Lexed::End => Ok(()),
        }
    }

    // Stores the token of a code.
    fn store_code(&mut self, code: Code) -> Result<(), WorkErr>
        ensures ok { OnOk result ((class : Class) → token_stored class (place_of_last self.old) (control code)
            self.old.web ≡ Ok self.new.web) }
        ensures fault { IfFault result (λ fault. (class : Class) →
            token_stored class (place_of_last self.old) (control code) self.old.web ≡ Err fault) }
        ensures grows { length self.old.web.tokens ≤ length self.new.web.tokens }
        ensures reading { self.new.reading ≡ self.old.reading }
    {
        let token = match code {
            Code::Join => Tok::Join,
            Code::Line => Tok::Line,
            Code::MetaOpen => Tok::MetaOpen,
            Code::MetaClose => Tok::MetaClose,
            _ => return Ok(()),
        };
        let place = self.place();
        self.parts.store(place, token)
    }
}

// The token of a sign: `#` is the parameter in the text of a parametric macro.
fn sign_token(class: Class, byte: u8) -> Tok
    ensures { result ≡ sign_token class byte }
{
    if class == Class::Parametric && byte == b'#' {
        Tok::Param
    } else {
        Tok::Sign(byte)
    }
}
