//! Names of types and subranges (ISO 7185, 6.4, in this project's profile).
ghost use Rattle.std.specs.Prelude.{◌≡◌, ◌∷◌, ◌++◌, [], ℕ, IfOk, OnErr};
ghost use Rattle.pas_tokens.specs.declared.kinds.Kind.TheVariants as k;
ghost use Rattle.pas_syntax.specs.Views.{ident_in, constant_in, simple_in};
ghost use Rattle.pas_syntax.specs.Words.{at, name_at, constant_words, simple_words};
ghost use Rattle.pas_typed.specs.TypeViews.{type_view, table_view};
ghost use Rattle.pas_rules.specs.Scopes.{Scopes as SpecScopes};
ghost use Rattle.pas_rules.specs.TypeForms as spec;
ghost use Rattle.pas_scopes.specs.ScopeViews.{scopes_view, made_view, IsClear, Agrees};
ghost use Rattle.pas_scopes.specs.Answers.{lawful_end, end_in};
ghost use Rattle.pas_scopes.specs.TypeAnswers.{no_type_by, AnswersIf, IsRange};
ghost use Rattle.pas_scopes.specs.FormAnswers.{IsUnknownIf, Grows};

use crate::constants::{Ordinal, constant_of};
use crate::judged::Judged;
use crate::names::Entity;
use crate::scopes::Scopes;
use crate::stop::{Stop, fault, left_out};
use pas_syntax::tree::{Constant, Ident, Simple};
use pas_typed::types::{PasType, Range, Structure};
use wb_base::faults::{CONSTANT_OUT_OF_RANGE, REAL_NUMBERS, UNKNOWN_NAME, WRONG_TYPE};

// The name of the type of real numbers.
const REAL: &[u8] = b"real";

/// The type that a name stands for. `real` is left out where it is not declared.
pub fn type_named(scopes: &Scopes<'_>, ident: Ident) -> Result<Judged<PasType>, Stop>
    ensures answers { (n : ℕ) → AnswersIf (IsClear (scopes_view scopes.now))
        (name_at n (ident_in scopes.now.spellings.now ident) ∷ [])
        (spec.type_named (scopes_view scopes.now) (ident_in scopes.now.spellings.now ident)) type_view result }
    ensures unknown { IsUnknownIf
        (spec.type_named (scopes_view scopes.now) (ident_in scopes.now.spellings.now ident)) result }
    ensures lawful { IfOk result (λ found. end_in found.end ≡ lawful_end found.end.line) }
{
    match scopes.named(ident) {
        Some(Entity::Type(pas_type)) => Ok(Judged::lawful(pas_type, ident.line)),
        Some(_) => Err(fault(WRONG_TYPE, ident.line)),
        None => Err(no_type(scopes.spelling(ident.span), ident.line)),
    }
}

// What a name in this line shows that stands for nothing.
fn no_type(name: &[u8], line: u32) -> Stop
    ensures { result ≡ no_type_by name.now line }
{
    if name == REAL {
        left_out(REAL_NUMBERS, line)
    } else {
        fault(UNKNOWN_NAME, line)
    }
}

// What a name or a subrange makes.
pub(crate) fn simple_of(scopes: &mut Scopes<'_>, simple: Simple) -> Result<Judged<PasType>, Stop>
    ensures answers { (s : SpecScopes) → Agrees s (scopes_view scopes.old) → (n : ℕ) → AnswersIf (IsClear s)
        (simple_words n (simple_in scopes.old.spellings.now simple))
        (spec.simple_of s (table_view scopes.old.spellings.now scopes.old.types)
        (simple_in scopes.old.spellings.now simple)) (made_view scopes.new) result }
    ensures unknown { (s : SpecScopes) → Agrees s (scopes_view scopes.old) → IsUnknownIf
        (spec.simple_of s (table_view scopes.old.spellings.now scopes.old.types)
        (simple_in scopes.old.spellings.now simple)) result }
    ensures kept { scopes.new ≡ record scopes.old { types = scopes.new.types } }
    ensures grows { Grows scopes.old.types scopes.new.types }
    ensures err { OnErr result (scopes.new ≡ scopes.old) }
    ensures lawful { IfOk result (λ found. end_in found.end ≡ lawful_end found.end.line) }
{
    match simple {
        Simple::Named(ident) => type_named(scopes, ident),
        Simple::Range(low, _, high) => subrange_of(scopes, low, high),
    }
}

// What a subrange makes.
fn subrange_of(
    scopes: &mut Scopes<'_>,
    low: Constant,
    high: Constant,
) -> Result<Judged<PasType>, Stop>
    ensures answers { (s : SpecScopes) → Agrees s (scopes_view scopes.old) → (n line : ℕ) → AnswersIf (IsClear s)
        (constant_words n (constant_in scopes.old.spellings.now low) ++ at n k.Dots line
        ∷ constant_words n (constant_in scopes.old.spellings.now high))
        (spec.subrange_of (table_view scopes.old.spellings.now scopes.old.types)
        (spec.constant_of s (constant_in scopes.old.spellings.now low))
        (spec.constant_of s (constant_in scopes.old.spellings.now high))) (made_view scopes.new) result }
    ensures unknown { (s : SpecScopes) → Agrees s (scopes_view scopes.old) → IsUnknownIf
        (spec.subrange_of (table_view scopes.old.spellings.now scopes.old.types)
        (spec.constant_of s (constant_in scopes.old.spellings.now low))
        (spec.constant_of s (constant_in scopes.old.spellings.now high))) result }
    ensures kept { scopes.new ≡ record scopes.old { types = scopes.new.types } }
    ensures grows { Grows scopes.old.types scopes.new.types }
    ensures err { OnErr result (scopes.new ≡ scopes.old) }
    ensures lawful { IfOk result (λ found. end_in found.end ≡ lawful_end found.end.line) }
{
    let low = constant_of(scopes, low)?;
    let high = constant_of(scopes, high)?;
    let range = range_between(low, high)?;
    let pas_type = scopes.types.make(Structure::Subrange(range))?;
    Ok(Judged::lawful(pas_type, high.line))
}

// The values between two bounds, of which the second is of the base of the first, and not below it.
fn range_between(low: Ordinal, high: Ordinal) -> Result<Range, Stop>
    ensures { IsRange low high result }
{
    if low.base != high.base {
        Err(fault(WRONG_TYPE, high.line))
    } else if low.value <= high.value {
        Ok(Range {
            base: low.base,
            low: low.value,
            high: high.value,
        })
    } else {
        Err(fault(CONSTANT_OUT_OF_RANGE, high.line))
    }
}
