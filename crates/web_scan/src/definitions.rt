//! The definitions of macros.
ghost use Rattle.std.specs.Prelude.{◌≡◌, ◌≢◌, ◌<◌, ◌≤◌, length, Ok, Err, IfOk, OnOk};
ghost use Rattle.wb_base.specs.WorkResult.{IfFault};
ghost use Rattle.wb_base.specs.FaultAt.{fault_at};
ghost use Rattle.wb_base.specs.declared.faults.WorkErr.TheVariants.{Fault as of_input};
ghost use Rattle.web_lex.specs.Token.{token_of};
ghost use Rattle.web_scan.specs.Scanned.{place_of_last};
ghost use Rattle.web_scan.specs.Definitions.{definition, class_read, parameter_read, expected, is_sign, is_same};
ghost use Rattle.web_scan.specs.Definitions.{right_side_read};

use crate::scanner::Scanner;
use wb_base::faults::BAD_DEFINITION;
use wb_base::{Fault, Joined, Place, WorkErr};
use web_lex::{Code, Lexed};
use web_names::Class;

// Whether a token is this sign.
pub(crate) fn is_sign(byte: u8, token: Lexed<'_>) -> bool
    ensures { result ≡ is_sign byte (token_of token.entry) }
{
    matches!(token, Lexed::Sign(other) if other == byte)
}

// Whether a token is `==`.
pub(crate) fn is_same(token: Lexed<'_>) -> bool
    ensures { result ≡ is_same (token_of token.entry) }
{
    matches!(token, Lexed::Joined(Joined::Same))
}

impl<'l> Scanner<'l> {
    // Reads a definition after its `@d`, and answers the code that ends it.
    pub(crate) fn definition(&mut self) -> Result<Code, WorkErr>
        ensures ok { IfOk result (λ code. definition self.old ≡ Ok (code, self.new)) }
        ensures fault { IfFault result (λ fault. definition self.old ≡ Err fault) }
        ensures shorter { OnOk result (length self.new.reading.rest < length self.old.reading.rest) }
    {
        let Lexed::Word(word) = self.token()? else {
            return Err(self.bad_definition());
        };
        let at_name = self.place();
        let class = self.class_signs()?;
        let at_sign = self.place();
        let id = self.parts.define(at_sign, word, class)?;
        self.right_side(at_name, id, class)
    }

    // The fault of a token that does not fit the form of a definition.
    fn bad_definition(&self) -> WorkErr
        ensures { result ≡ of_input (fault_at BAD_DEFINITION (place_of_last self.now)) }
    {
        Fault::at(BAD_DEFINITION, self.place()).into()
    }

    // Reads the signs after the name, and answers the class that they tell.
    fn class_signs(&mut self) -> Result<Class, WorkErr>
        ensures ok { IfOk result (λ class. class_read self.old ≡ Ok (class, self.new)) }
        ensures fault { IfFault result (λ fault. class_read self.old ≡ Err fault) }
        ensures class { IfOk result (λ class. class ≢ Class.Ordinary) }
        ensures not_longer { OnOk result (length self.new.reading.rest ≤ length self.old.reading.rest) }
    {
        match self.token()? {
            Lexed::Sign(b'=') => Ok(Class::Numeric),
            Lexed::Joined(Joined::Same) => Ok(Class::Simple),
            Lexed::Sign(b'(') => {
                self.parameter()?;
                Ok(Class::Parametric)
            }
            _ => Err(self.bad_definition()),
        }
    }

    // Reads `#`, `)` and `==`.
    fn parameter(&mut self) -> Result<(), WorkErr>
        ensures ok { OnOk result (parameter_read self.old ≡ Ok (Class.Parametric, self.new)) }
        ensures fault { IfFault result (λ fault. parameter_read self.old ≡ Err fault) }
        ensures not_longer { OnOk result (length self.new.reading.rest ≤ length self.old.reading.rest) }
    {
        self.expect_sign(b'#')?;
        self.expect_sign(b')')?;
        if is_same(self.token()?) {
            Ok(())
        } else {
            Err(self.bad_definition())
        }
    }

    // Reads this sign.
    fn expect_sign(&mut self, wanted: u8) -> Result<(), WorkErr>
        ensures ok { OnOk result (expected BAD_DEFINITION (is_sign wanted) self.old ≡ Ok self.new) }
        ensures fault { IfFault result (λ fault. expected BAD_DEFINITION (is_sign wanted) self.old ≡ Err fault) }
        ensures not_longer { OnOk result (length self.new.reading.rest ≤ length self.old.reading.rest) }
    {
        if is_sign(wanted, self.token()?) {
            Ok(())
        } else {
            Err(self.bad_definition())
        }
    }

    // Reads the right side of the macro with this id and class, whose name stands at this place. Answers the code that
    // ends it.
    fn right_side(&mut self, at_name: Place, id: u32, class: Class) -> Result<Code, WorkErr>
        requires id { id < length self.old.web.names.names }
        requires class { class ≢ Class.Ordinary }
        ensures ok { IfOk result (λ code. right_side_read at_name id class self.old ≡ Ok (code, self.new)) }
        ensures fault { IfFault result (λ fault. right_side_read at_name id class self.old ≡ Err fault) }
        ensures not_longer { OnOk result (length self.new.reading.rest ≤ length self.old.reading.rest) }
    {
        if class == Class::Numeric {
            return self.numeric_side(at_name, id);
        }
        self.parts.set_text_number(id)?;
        let mut text = self.begin_text(class);
        let code = self.macro_text(&mut text)?;
        self.parts.add_text(text.first)?;
        Ok(code)
    }
}
