//! Expressions (ISO 7185, 6.7, in this project's profile).
ghost use Rattle.std.specs.Prelude.{◌≡◌, ◌∷◌, ◌++◌, [], ℕ, pos, List, None, false, is_some};
ghost use Rattle.wb_base.specs.declared.faults.TheConstants.{WRONG_TYPE as WRONG_TYPE_CODE};
ghost use Rattle.pas_syntax.specs.Views.{ident_in, numeral_in, quoted_in, expr_in, sum_in, term_in, factor_in};
ghost use Rattle.pas_syntax.specs.Views.{variable_in};
ghost use Rattle.pas_syntax.specs.Words.{Word, name_at, number_at, text_at, expr_words, sum_words, term_words};
ghost use Rattle.pas_syntax.specs.Words.{factor_words};
ghost use Rattle.pas_syntax.specs.Words.{variable_words};
ghost use Rattle.pas_typed.specs.Types.{integer, base_of, is_of};
ghost use Rattle.pas_typed.specs.Typed as typed;
ghost use Rattle.pas_typed.specs.Typed.{Value as SpecValue, Place as SpecPlace};
ghost use Rattle.pas_typed.specs.TypeOf.{type_of};
ghost use Rattle.pas_typed.specs.TypeViews.{base_view};
ghost use Rattle.pas_typed.specs.TypedViews.{value_view, place_view};
ghost use Rattle.pas_rules.specs.Marks.{means, noted, Judged as SpecJudged};
ghost use Rattle.pas_rules.specs.Scopes.{entity_of};
ghost use Rattle.pas_rules.specs.Expressions as spec;
ghost use Rattle.pas_rules.specs.TypeForms.{char_in, undoubled};
ghost use Rattle.pas_scopes.specs.ScopeViews.{scopes_view, IsClear};
ghost use Rattle.pas_scopes.specs.Ends.{Ends};
ghost use Rattle.pas_scopes.specs.Answers.{end_in, noted_end, EndsAs, Answers};
ghost use Rattle.pas_scopes.specs.inner.ExpressionAnswers.{parenthesized_of, char_value};

use crate::constants::char_of;
use crate::functions::{called, function_alone, missing_arguments, test_alone};
use crate::judged::Judged;
use crate::names::Entity;
use crate::scopes::Scopes;
use crate::stop::{Stop, fault};
use crate::variables::{place_of, whole};
use pas_syntax::tree::{Expr, Factor, Ident, Numeral, Quoted, Sum, Term, Variable};
use pas_syntax::{Adding, Multiplying, Relation, Sign};
use pas_typed::typed::{Place, Value};
use pas_typed::types::Base;
use sqlite_items::Boxed;
use wb_base::faults::{UNKNOWN_NAME, WRONG_TYPE};

/// What an expression means.
#[cycle(expression)]
pub fn value_of(scopes: &Scopes<'_>, expr: &Expr) -> Result<Judged<Value>, Stop>
    ensures { IsClear (scopes_view scopes.now) → (lead deep : ℕ)
        → Answers (expr_words lead deep (expr_in scopes.now.spellings.now expr.now))
        (spec.value_of (scopes_view scopes.now) (expr_in scopes.now.spellings.now expr.now)) value_view result }
{
    match expr {
        Expr::Sum(sum) => sum_of(scopes, sum),
        Expr::Relation(left, relation, right) => {
            let first = sum_of(scopes, left.get())?;
            let first = ordinal(scopes, first).before(relation.line)?;
            let second = sum_of(scopes, right.get())?;
            comparison_of(scopes, first, relation.item, second)
        }
    }
}

// What a sum means.
#[cycle(expression)]
fn sum_of(scopes: &Scopes<'_>, sum: &Sum) -> Result<Judged<Value>, Stop>
    ensures { IsClear (scopes_view scopes.now) → (lead deep : ℕ)
        → Answers (sum_words lead deep (sum_in scopes.now.spellings.now sum.now))
        (spec.sum_of (scopes_view scopes.now) (sum_in scopes.now.spellings.now sum.now)) value_view result }
{
    match sum {
        Sum::FirstTerm(term) => term_of(scopes, term),
        Sum::SignedTerm(sign, term) => {
            let operand = term_of(scopes, term)?;
            signed_of(scopes, sign.item, operand)
        }
        Sum::MoreTerms(left, adding, right) => {
            let first = sum_of(scopes, left.get())?;
            let first = only(scopes, addition_base(adding.item), first).before(adding.line)?;
            let second = term_of(scopes, right.get())?;
            addition_of(scopes, first, adding.item, second)
        }
    }
}

// What a term means.
#[cycle(expression)]
fn term_of(scopes: &Scopes<'_>, term: &Term) -> Result<Judged<Value>, Stop>
    ensures { IsClear (scopes_view scopes.now) → (lead deep : ℕ)
        → Answers (term_words lead deep (term_in scopes.now.spellings.now term.now))
        (spec.term_of (scopes_view scopes.now) (term_in scopes.now.spellings.now term.now)) value_view result }
{
    match term {
        Term::FirstFactor(factor) => factor_of(scopes, factor),
        Term::MoreFactors(left, multiplying, right) => {
            let first = term_of(scopes, left.get())?;
            let first = only(scopes, product_base(multiplying.item), first).before(
                multiplying.line,
            )?;
            let second = factor_of(scopes, right.get())?;
            product_of(scopes, first, multiplying.item, second)
        }
    }
}

// What a factor means.
#[cycle(expression)]
fn factor_of(scopes: &Scopes<'_>, factor: &Factor) -> Result<Judged<Value>, Stop>
    ensures { IsClear (scopes_view scopes.now) → (lead deep : ℕ)
        → Answers (factor_words lead deep (factor_in scopes.now.spellings.now factor.now))
        (spec.factor_of (scopes_view scopes.now) (factor_in scopes.now.spellings.now factor.now)) value_view result }
{
    match factor {
        Factor::Literal(numeral) => Ok(literal(*numeral)),
        Factor::Text(quoted) => literal_text(scopes, *quoted),
        Factor::Parenthesized(_, inner, closed) => {
            let inner = value_of(scopes, inner.get())?;
            parenthesized(scopes, inner, *closed)
        }
        Factor::Negated(_, factor) => {
            let operand = factor_of(scopes, factor.get())?;
            negated_of(scopes, operand)
        }
        Factor::Variable(variable) => variable_value(scopes, variable.get()),
        Factor::Call(call) => called(scopes, call.get()),
    }
}

// What a variable means as a value, where a name by itself may be something else.
#[cycle(expression)]
fn variable_value(scopes: &Scopes<'_>, variable: &Variable) -> Result<Judged<Value>, Stop>
    ensures { IsClear (scopes_view scopes.now) → (lead deep : ℕ)
        → Answers (variable_words lead deep (variable_in scopes.now.spellings.now variable.now))
        (spec.variable_value (scopes_view scopes.now) (variable_in scopes.now.spellings.now variable.now)) value_view
        result }
{
    if variable.selectors.is_empty() {
        name_alone(scopes, variable.name)
    } else {
        read_of(scopes, place_of(scopes, variable)?)
    }
}

// What a relation of two operands means, of which the second is of the base of the first.
fn comparison_of(
    scopes: &Scopes<'_>,
    first: Value,
    relation: Relation,
    second: Judged<Value>,
) -> Result<Judged<Value>, Stop>
    ensures { (words more : List Word) (word : Word) (left right : SpecJudged SpecValue) (line : ℕ)
        → Ends words (noted (spec.ordinal_only (scopes_view scopes.now).outer.types) left) (value_view first) line None
        false
        → EndsAs more right (value_view second.value) (end_in second.end)
        → Answers (words ++ word ∷ more)
        (spec.comparison_of (scopes_view scopes.now).outer.types left relation right) value_view result }
{
    let is_like = scopes
        .types
        .are_compatible(first.pas_type(), second.value.pas_type());
    let second = second.noted(is_like, WRONG_TYPE);
    Ok(Judged {
        value: Value::Comparison(
            Boxed::new(scopes.alloc, first)?,
            relation,
            Boxed::new(scopes.alloc, second.value)?,
        ),
        end: second.end,
    })
}

// What two operands of an operator between terms mean.
fn addition_of(
    scopes: &Scopes<'_>,
    first: Value,
    adding: Adding,
    second: Judged<Value>,
) -> Result<Judged<Value>, Stop>
    ensures { (words more : List Word) (word : Word) (left right : SpecJudged SpecValue) (line : ℕ)
        → Ends words (noted (spec.only (spec.addition_base adding) (scopes_view scopes.now).outer.types) left)
        (value_view first) line None false
        → EndsAs more right (value_view second.value) (end_in second.end)
        → Answers (words ++ word ∷ more)
        (spec.addition_of (scopes_view scopes.now).outer.types left adding right) value_view result }
{
    let second = only(scopes, addition_base(adding), second);
    Ok(Judged {
        value: Value::Addition(
            Boxed::new(scopes.alloc, first)?,
            adding,
            Boxed::new(scopes.alloc, second.value)?,
        ),
        end: second.end,
    })
}

// What two operands of an operator between factors mean.
fn product_of(
    scopes: &Scopes<'_>,
    first: Value,
    multiplying: Multiplying,
    second: Judged<Value>,
) -> Result<Judged<Value>, Stop>
    ensures { (words more : List Word) (word : Word) (left right : SpecJudged SpecValue) (line : ℕ)
        → Ends words (noted (spec.only (spec.product_base multiplying) (scopes_view scopes.now).outer.types) left)
        (value_view first) line None false
        → EndsAs more right (value_view second.value) (end_in second.end)
        → Answers (words ++ word ∷ more)
        (spec.product_of (scopes_view scopes.now).outer.types left multiplying right) value_view result }
{
    let second = only(scopes, product_base(multiplying), second);
    Ok(Judged {
        value: Value::Product(
            Boxed::new(scopes.alloc, first)?,
            multiplying,
            Boxed::new(scopes.alloc, second.value)?,
        ),
        end: second.end,
    })
}

// What a term behind a sign means, which is an integer.
fn signed_of(scopes: &Scopes<'_>, sign: Sign, operand: Judged<Value>) -> Result<Judged<Value>, Stop>
    ensures { (words : List Word) (word : Word) (part : SpecJudged SpecValue)
        → EndsAs words part (value_view operand.value) (end_in operand.end)
        → Answers (word ∷ words) (spec.signed_of (scopes_view scopes.now).outer.types sign part) value_view result }
{
    let operand = only(scopes, Base::Integer, operand);
    Ok(Judged {
        value: Value::Signed(sign, Boxed::new(scopes.alloc, operand.value)?),
        end: operand.end,
    })
}

// What a factor behind `not` means, which is a boolean.
fn negated_of(scopes: &Scopes<'_>, operand: Judged<Value>) -> Result<Judged<Value>, Stop>
    ensures { (words : List Word) (word : Word) (part : SpecJudged SpecValue)
        → EndsAs words part (value_view operand.value) (end_in operand.end)
        → Answers (word ∷ words) (spec.negated_of (scopes_view scopes.now).outer.types part) value_view result }
{
    let operand = only(scopes, Base::Boolean, operand);
    Ok(Judged {
        value: Value::Negated(Boxed::new(scopes.alloc, operand.value)?),
        end: operand.end,
    })
}

// What a number means.
fn literal(numeral: Numeral) -> Judged<Value>
    ensures { (n : ℕ) → EndsAs (number_at n (numeral_in numeral) ∷ [])
        (means (typed.constant integer (pos numeral.value))) (value_view result.value) (end_in result.end) }
{
    let value = Value::Constant(Base::Integer, i64::from(numeral.value));
    Judged::lawful(value, numeral.line)
}

// What a string means, which has one byte.
fn literal_text(scopes: &Scopes<'_>, quoted: Quoted) -> Result<Judged<Value>, Stop>
    ensures { (n : ℕ) → Answers (text_at n (quoted_in scopes.now.spellings.now quoted) ∷ [])
        (char_value (char_in (undoubled (quoted_in scopes.now.spellings.now quoted).text))) value_view result }
{
    let found = char_of(scopes, quoted)?;
    Ok(Judged::lawful(Value::Constant(found.base, found.value), found.line))
}

// What an expression means before the parenthesis in this line.
fn parenthesized(
    scopes: &Scopes<'_>,
    inner: Judged<Value>,
    closed: u32,
) -> Result<Judged<Value>, Stop>
    ensures { (words : List Word) (opened last : Word) (part : SpecJudged SpecValue) → last.token.line ≡ closed
        → EndsAs words part (value_view inner.value) (end_in inner.end)
        → Answers (opened ∷ (words ++ last ∷ [])) (parenthesized_of part) value_view result }
{
    let inner = inner.closed(closed)?;
    Ok(Judged {
        value: Value::Parenthesized(Boxed::new(scopes.alloc, inner.value)?),
        end: inner.end,
    })
}

// What a place means as a value.
fn read_of(scopes: &Scopes<'_>, place: Judged<Place>) -> Result<Judged<Value>, Stop>
    ensures { (words : List Word) (part : SpecJudged SpecPlace)
        → EndsAs words part (place_view place.value) (end_in place.end)
        → Answers words (spec.read_of part) value_view result }
{
    Ok(Judged {
        value: Value::Read(Boxed::new(scopes.alloc, place.value)?),
        end: place.end,
    })
}

// A value that must be ordinal.
fn ordinal(scopes: &Scopes<'_>, found: Judged<Value>) -> Judged<Value>
    ensures value { result.value ≡ found.value }
    ensures end { end_in result.end ≡ noted_end
        (is_some (base_of (scopes_view scopes.now).outer.types (type_of (value_view found.value))))
        WRONG_TYPE_CODE (end_in found.end) }
{
    let is_ordinal = scopes.types.base_of(found.value.pas_type()).is_some();
    found.noted(is_ordinal, WRONG_TYPE)
}

/// A value that must be of this base.
pub fn only(scopes: &Scopes<'_>, base: Base, found: Judged<Value>) -> Judged<Value>
    ensures value { result.value ≡ found.value }
    ensures end { end_in result.end ≡ noted_end
        (is_of (base_view base) (scopes_view scopes.now).outer.types (type_of (value_view found.value)))
        WRONG_TYPE_CODE (end_in found.end) }
{
    let is_fit = scopes.types.is_of(base, found.value.pas_type());
    found.noted(is_fit, WRONG_TYPE)
}

// The base of the operands of an operator between factors.
fn product_base(multiplying: Multiplying) -> Base
    ensures { base_view result ≡ spec.product_base multiplying }
{
    match multiplying {
        Multiplying::And => Base::Boolean,
        _ => Base::Integer,
    }
}

// The base of the operands of an operator between terms.
fn addition_base(adding: Adding) -> Base
    ensures { base_view result ≡ spec.addition_base adding }
{
    match adding {
        Adding::Or => Base::Boolean,
        _ => Base::Integer,
    }
}

// What a name by itself means as a value: a constant, a variable, or the call of a function without arguments.
fn name_alone(scopes: &Scopes<'_>, ident: Ident) -> Result<Judged<Value>, Stop>
    ensures { IsClear (scopes_view scopes.now) → (n : ℕ)
        → Answers (name_at n (ident_in scopes.now.spellings.now ident) ∷ [])
        (spec.as_value (scopes_view scopes.now)
        (entity_of (scopes_view scopes.now) (ident_in scopes.now.spellings.now ident).name)) value_view result }
{
    match scopes.named(ident) {
        Some(Entity::Constant(base, value)) => {
            Ok(Judged::lawful(Value::Constant(base, value), ident.line))
        }
        Some(Entity::Variable(slot)) => read_of(
            scopes,
            Judged::lawful(whole(scopes, slot), ident.line),
        ),
        Some(Entity::Routine(number)) => function_alone(scopes, ident, number),
        Some(Entity::Function(function)) => Ok(missing_arguments(function, ident.line)),
        Some(Entity::FileTest(test)) => test_alone(scopes, ident, test),
        Some(_) => Err(fault(WRONG_TYPE, ident.line)),
        None => Err(fault(UNKNOWN_NAME, ident.line)),
    }
}
