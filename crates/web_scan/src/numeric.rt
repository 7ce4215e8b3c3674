//! The right sides of numeric definitions, and their values.
ghost use Rattle.std.specs.Prelude.{◌≡◌, false, ◌<◌, ◌≤◌, ◌+ℤ◌, ◌*ℤ◌, ◌∷◌, [], ℕ, List, length, None, Ok, Err, IfOk};
ghost use Rattle.std.specs.Prelude.{IfErr, OnOk, IsOkAnd};
ghost use Rattle.wb_base.specs.WorkResult.{IfFault};
ghost use Rattle.web_lex.specs.Token.{token_of};
ghost use Rattle.web_scan.specs.Scanned.{place_of_last};
ghost use Rattle.web_scan.specs.Numeric.{Term, constant, value_of, with_digit, with_sign, with_token, right_side};
ghost use Rattle.web_scan.specs.Definitions.{right_side_read};
ghost use Rattle.web_scan.specs.inner.StandsFor.{sign_of, IsTotalOf, StandsFor, AddedTo, ReadTo};

use crate::scanner::Scanner;
use crate::strings::string_value;
use crate::texts::ending_code;
use wb_base::faults::{BAD_NUMERIC_DEFINITION, VALUE_TOO_BIG};
use wb_base::{Fault, OutOfMemory, Place, WorkErr};
use web_lex::{Code, Lexed};
use web_names::Class;

// The greatest value of a constant.
const GREATEST_VALUE: u64 = 2_147_483_647;

// The absolute value that a numeric macro's must be below. This project's own.
const VALUE_LIMIT: u64 = 32_768;

// A right side that is read: the sum of its constants but for the number that its last digits make, if it ends in one,
// and whether the signs since the constant before make the next one negative.
#[derive(Drop)]
struct Sum {
    total: i64,
    negated: bool,
    number: Option<u32>,
}

impl Sum {
    // No constants and no signs.
    fn new() -> Sum
        ensures { StandsFor result [] }
    {
        Sum {
            total: 0,
            negated: false,
            number: None,
        }
    }

    // The number that the last digits make is whole.
    fn end_number(&mut self) -> Result<(), OutOfMemory>
        ensures { OnOk result ((terms : List Term) → StandsFor self.old terms → IsTotalOf self.new terms) }
    {
        if let Some(value) = self.number {
            self.number = None;
            self.add_product(i64::from(value))?;
        }
        Ok(())
    }

    // Adds a constant that is not made of digits.
    fn add(&mut self, value: i64) -> Result<(), OutOfMemory>
        ensures { OnOk result ((terms : List Term) → StandsFor self.old terms
            → StandsFor self.new (constant value ∷ terms)) }
    {
        self.end_number()?;
        self.add_product(value)
    }

    // Adds a constant times the signs before it. A sum past the type's range would take more constants than a web has,
    // and finds no place.
    fn add_product(&mut self, value: i64) -> Result<(), OutOfMemory>
        ensures total { OnOk result (self.new.total ≡ (sign_of self.old.negated *ℤ value) +ℤ self.old.total) }
        ensures signs { OnOk result (self.new.negated ≡ false) }
        ensures number { self.new.number ≡ self.old.number }
    {
        let sum = if self.negated {
            self.total.checked_sub(value)
        } else {
            self.total.checked_add(value)
        };
        let Some(total) = sum else {
            return Err(OutOfMemory);
        };
        self.total = total;
        self.negated = false;
        Ok(())
    }

    // Adds a digit, unless its number is then too big. A byte below the digits, which none is, would count as 0.
    fn add_digit(&mut self, place: Place, byte: u8) -> Result<(), Fault>
        ensures ok { OnOk result ((terms : List Term) → StandsFor self.old terms
            → IsOkAnd (with_digit place byte terms) (StandsFor self.new)) }
        ensures fault { IfErr result (λ fault. (terms : List Term) → StandsFor self.old terms
            → with_digit place byte terms ≡ Err fault) }
    {
        let digit = u64::from(byte.saturating_sub(b'0'));
        let value = u64::from(self.number.unwrap_or(0)) * 10 + digit;
        if value > GREATEST_VALUE {
            return Err(Fault::at(VALUE_TOO_BIG, place));
        }
        self.number = Some(value as u32);
        Ok(())
    }

    // Adds a sign.
    fn add_sign(&mut self, place: Place, byte: u8) -> Result<(), WorkErr>
        ensures ok { OnOk result ((terms : List Term) → StandsFor self.old terms
            → IsOkAnd (with_sign place byte terms) (StandsFor self.new)) }
        ensures fault { IfFault result (λ fault. (terms : List Term) → with_sign place byte terms ≡ Err fault) }
    {
        match byte {
            b'+' => self.end_number()?,
            b'-' => {
                self.end_number()?;
                self.negated = !self.negated;
            }
            _ => return Err(Fault::at(BAD_NUMERIC_DEFINITION, place).into()),
        }
        Ok(())
    }

    // The value of the whole right side, which is too big at the place of the name.
    fn value(mut self, at_name: Place) -> Result<i32, WorkErr>
        ensures ok { IfOk result (λ value. (terms : List Term) → StandsFor self terms
            → value_of at_name terms ≡ Ok value) }
        ensures fault { IfFault result (λ fault. (terms : List Term) → StandsFor self terms
            → value_of at_name terms ≡ Err fault) }
    {
        self.end_number()?;
        if self.total.unsigned_abs() < VALUE_LIMIT {
            Ok(self.total as i32)
        } else {
            Err(Fault::at(VALUE_TOO_BIG, at_name).into())
        }
    }
}

impl<'l> Scanner<'l> {
    // Reads the right side of the numeric macro with this id, whose name stands at this place, and gives it its value.
    // Answers the code that ends it.
    pub(crate) fn numeric_side(&mut self, at_name: Place, id: u32) -> Result<Code, WorkErr>
        requires { id < length self.old.web.names.names }
        ensures ok { IfOk result (λ code. right_side_read at_name id Class.Numeric self.old ≡ Ok (code, self.new)) }
        ensures fault { IfFault result (λ fault. right_side_read at_name id Class.Numeric self.old ≡ Err fault) }
        ensures not_longer { OnOk result (length self.new.reading.rest ≤ length self.old.reading.rest) }
    {
        let mut sum = Sum::new();
        let code = self.add_terms(id, &mut sum)?;
        self.parts.set_value(id, sum.value(at_name)?);
        Ok(code)
    }

    // Adds the terms of a right side, and answers the code that ends it.
    fn add_terms(&mut self, id: u32, sum: &mut Sum) -> Result<Code, WorkErr>
        ensures ok { IfOk result (λ code. (terms : List Term) → StandsFor sum.old terms
            → (most : ℕ) → length self.old.reading.rest < most
            → IsOkAnd (right_side most id terms self.old) (ReadTo sum.new code self.new)) }
        ensures fault { IfFault result (λ fault. (terms : List Term) → StandsFor sum.old terms
            → (most : ℕ) → length self.old.reading.rest < most → right_side most id terms self.old ≡ Err fault) }
        ensures names { OnOk result (self.new.web.names ≡ self.old.web.names) }
        ensures not_longer { OnOk result (length self.new.reading.rest ≤ length self.old.reading.rest) }
    {
        loop {
            let token = self.token()?;
            if let Some(code) = ending_code(token) {
                return Ok(code);
            }
            self.add_term(id, sum, token)?;
        }
    }

    // Adds a term of a right side.
    fn add_term(&mut self, id: u32, sum: &mut Sum, token: Lexed<'l>) -> Result<(), WorkErr>
        ensures ok { OnOk result ((terms : List Term) → StandsFor sum.old terms
            → IsOkAnd (with_token id (place_of_last self.old) (token_of token.entry) terms self.old.web)
            (AddedTo sum.new self.new.web)) }
        ensures fault { IfFault result (λ fault. (terms : List Term) → StandsFor sum.old terms
            → with_token id (place_of_last self.old) (token_of token.entry) terms self.old.web ≡ Err fault) }
        ensures names { OnOk result (self.new.web.names ≡ self.old.web.names) }
        ensures reading { self.new.reading ≡ self.old.reading }
    {
        let place = self.place();
        match token {
            Lexed::Sign(byte) => sum.add_sign(place, byte)?,
            Lexed::Digit(byte) => sum.add_digit(place, byte)?,
            Lexed::Based(value) => sum.add(i64::from(value))?,
            Lexed::Pool(bytes) => {
                let value = string_value(self.alloc, bytes)?;
                let number = self.parts.number_string(place, value.bytes())?;
                sum.add(i64::from(number))?;
            }
            Lexed::Word(word) => {
                let value = self.parts.word_value(place, id, word)?;
                sum.add(i64::from(value))?;
            }
            _ => return Err(Fault::at(BAD_NUMERIC_DEFINITION, place).into()),
        }
        Ok(())
    }
}
