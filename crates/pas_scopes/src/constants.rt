//! Constants (ISO 7185, 6.3, in this project's profile).
ghost use Rattle.std.specs.Prelude.{◌≡◌, ◌∷◌, ◌++◌, [], ℕ, pos, ⊤, IfOk};
ghost use Rattle.pas_syntax.specs.Views.{sign_in, ident_in, quoted_in, constant_in};
ghost use Rattle.pas_syntax.specs.Words.{Word, name_at, text_at, words_if, constant_sign, constant_words};
ghost use Rattle.pas_typed.specs.declared.types.Base.TheVariants as base;
ghost use Rattle.pas_rules.specs.Marks.{Judged as SpecJudged};
ghost use Rattle.pas_rules.specs.Scopes.{entity_of};
ghost use Rattle.pas_rules.specs.TypeForms as spec;
ghost use Rattle.pas_scopes.specs.NameViews.{IsSmall};
ghost use Rattle.pas_scopes.specs.ScopeViews.{scopes_view, IsClear};
ghost use Rattle.pas_scopes.specs.Answers.{lawful_end, EndsAs};
ghost use Rattle.pas_scopes.specs.Constants.{only_byte, ordinal_view, signed_view, Tells};

use crate::names::Entity;
use crate::scopes::Scopes;
use crate::stop::{Stop, demand, fault, left_out};
use pas_syntax::Sign;
use pas_syntax::tree::{Constant, Ident, Lined, Numeral, Quoted};
use pas_typed::types::Base;
use wb_base::faults::{STRINGS_OUTSIDE_WRITE, UNKNOWN_NAME, WRONG_TYPE};

/// A value of an ordinal type, and the line of the last token of what tells it.
#[derive(Clone, Copy)]
pub struct Ordinal {
    /// What the value is.
    pub base: Base,
    /// The value as a number.
    pub value: i64,
    /// The line of the last token.
    pub line: u32,
}

/// The value of a constant.
pub fn constant_of(scopes: &Scopes<'_>, constant: Constant) -> Result<Ordinal, Stop>
    ensures tells { (n : ℕ) → Tells (IsClear (scopes_view scopes.now))
        (constant_words n (constant_in scopes.now.spellings.now constant))
        (spec.constant_of (scopes_view scopes.now) (constant_in scopes.now.spellings.now constant)) result }
    ensures small { IfOk result (λ found. IsSmall found.value) }
{
    match constant {
        Constant::Number(sign, numeral) => behind_sign(sign, number(numeral)),
        Constant::Named(sign, ident) => behind_sign(sign, constant_named(scopes, ident)?),
        Constant::Text(quoted) => char_of(scopes, quoted),
    }
}

// The value of a number.
fn number(numeral: Numeral) -> Ordinal
    ensures value { result ≡ record { base = base.Integer; value = pos numeral.value; line = numeral.line } }
    ensures small { IsSmall result.value }
{
    Ordinal {
        base: Base::Integer,
        value: i64::from(numeral.value),
        line: numeral.line,
    }
}

// The value of a name as a constant.
fn constant_named(scopes: &Scopes<'_>, ident: Ident) -> Result<Ordinal, Stop>
    ensures tells { (n : ℕ) → Tells (IsClear (scopes_view scopes.now))
        (name_at n (ident_in scopes.now.spellings.now ident) ∷ [])
        (spec.as_constant (entity_of (scopes_view scopes.now) (ident_in scopes.now.spellings.now ident).name)) result }
    ensures line { IfOk result (λ found. found.line ≡ ident.line) }
    ensures small { IfOk result (λ found. IsSmall found.value) }
{
    match scopes.named(ident) {
        Some(Entity::Constant(base, value)) => Ok(Ordinal {
            base,
            value,
            line: ident.line,
        }),
        Some(_) => Err(fault(WRONG_TYPE, ident.line)),
        None => Err(fault(UNKNOWN_NAME, ident.line)),
    }
}

// A constant behind a sign, which must be an integer.
fn behind_sign(sign: Option<Lined<Sign>>, found: Ordinal) -> Result<Ordinal, Stop>
    requires { IsSmall found.value }
    ensures tells { (n : ℕ) (word : Word) (part : SpecJudged spec.ConstantValue) → word.token.line ≡ found.line
        → EndsAs (word ∷ []) part (ordinal_view found) (lawful_end found.line)
        → Tells ⊤ (words_if (constant_sign n) (sign_in sign) ++ word ∷ [])
        (spec.behind_sign (sign_in sign) part) result }
    ensures small { IfOk result (λ found. IsSmall found.value) }
{
    match sign {
        Some(lead) => {
            demand(found.base == Base::Integer, WRONG_TYPE, found.line)?;
            Ok(with_sign(lead.item, found))
        }
        None => Ok(found),
    }
}

// A number with a sign.
fn with_sign(sign: Sign, found: Ordinal) -> Ordinal
    requires { IsSmall found.value }
    ensures value { result ≡ signed_view sign found }
    ensures small { IsSmall result.value }
{
    match sign {
        Sign::Plus => found,
        Sign::Minus => Ordinal {
            value: -found.value,
            ..found
        },
    }
}

// The value of a string as a char: one of one byte. A longer one may stand only where something is written.
pub(crate) fn char_of(scopes: &Scopes<'_>, quoted: Quoted) -> Result<Ordinal, Stop>
    ensures tells { (n : ℕ) → Tells ⊤ (text_at n (quoted_in scopes.now.spellings.now quoted) ∷ [])
        (spec.char_in (spec.undoubled (quoted_in scopes.now.spellings.now quoted).text)) result }
    ensures small { IfOk result (λ found. IsSmall found.value) }
{
    match single_byte(scopes.spelling(quoted.span)) {
        Some(byte) => Ok(Ordinal {
            base: Base::Char,
            value: i64::from(byte),
            line: quoted.line,
        }),
        None => Err(left_out(STRINGS_OUTSIDE_WRITE, quoted.line)),
    }
}

// The byte of a string that has one alone, in which a quote stands twice.
pub(crate) fn single_byte(text: &[u8]) -> Option<u8>
    ensures { result ≡ only_byte (spec.undoubled text.now) }
{
    match text.len() {
        1 => Some(text[0]),
        2 if text[0] == b'\'' => Some(text[0]),
        _ => None,
    }
}
