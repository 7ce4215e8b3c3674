//! Statements that are made of their parts.
ghost use Rattle.std.specs.Prelude.{◌≡◌, ℕ, List, None, IfOk};
ghost use Rattle.pas_typed.specs.Typed as typed;
ghost use Rattle.pas_typed.specs.TypeViews.{type_view};
ghost use Rattle.pas_typed.specs.TypedViews.{slot_view, place_view, value_view, statement_view, statements_view};
ghost use Rattle.pas_typed.specs.TypedViews.{arms_view};
ghost use Rattle.pas_rules.specs.Statements.{list_of};

use pas_typed::typed::{Arms, Counted, Labelled, Place, Statement, Statements, Value};
use pas_typed::types::PasType;
use sqlite_items::{Boxed, Items};
use std::alloc::{AllocError, Global};

// A value is assigned to a place.
pub(crate) fn assigns(alloc: Global, place: Place, value: Value) -> Result<Statement, AllocError>
    ensures { (spellings : List ℕ) → IfOk result (λ made.
        statement_view spellings made ≡ typed.assigns (place_view place) (value_view value)) }
{
    Ok(Statement::Assigns(Boxed::new(alloc, place)?, Boxed::new(alloc, value)?))
}

// A value becomes the result of a function.
pub(crate) fn sets_result(
    alloc: Global,
    number: u32,
    pas_type: PasType,
    value: Value,
) -> Result<Statement, AllocError>
    ensures { (spellings : List ℕ) → IfOk result (λ made.
        statement_view spellings made ≡ typed.sets_result number (type_view pas_type) (value_view value)) }
{
    Ok(Statement::SetsResult(number, pas_type, Boxed::new(alloc, value)?))
}

// An `if` without `else`.
pub(crate) fn if_then(
    alloc: Global,
    test: Value,
    chosen: Statement,
) -> Result<Statement, AllocError>
    ensures { (spellings : List ℕ) → IfOk result (λ made.
        statement_view spellings made ≡ typed.if_then (value_view test) (statement_view spellings chosen)) }
{
    Ok(Statement::If(Boxed::new(alloc, test)?, Boxed::new(alloc, chosen)?))
}

// An `if` with `else`.
pub(crate) fn if_else(
    alloc: Global,
    test: Value,
    chosen: Statement,
    other: Statement,
) -> Result<Statement, AllocError>
    ensures { (spellings : List ℕ) → IfOk result (λ made.
        statement_view spellings made
        ≡ typed.if_else (value_view test) (statement_view spellings chosen) (statement_view spellings other)) }
{
    let test = Boxed::new(alloc, test)?;
    let chosen = Boxed::new(alloc, chosen)?;
    Ok(Statement::IfElse(test, chosen, Boxed::new(alloc, other)?))
}

// A `case` without `others`.
pub(crate) fn case(alloc: Global, selector: Value, arms: Arms) -> Result<Statement, AllocError>
    ensures { (spellings : List ℕ) → IfOk result (λ made.
        statement_view spellings made ≡ typed.case (value_view selector) (arms_view spellings arms)) }
{
    Ok(Statement::Case(Boxed::new(alloc, selector)?, arms))
}

// A `case` with `others`.
pub(crate) fn case_others(
    alloc: Global,
    selector: Value,
    arms: Arms,
    chosen: Statement,
) -> Result<Statement, AllocError>
    ensures { (spellings : List ℕ) → IfOk result (λ made.
        statement_view spellings made
        ≡ typed.case_others (value_view selector) (arms_view spellings arms) (statement_view spellings chosen)) }
{
    let selector = Boxed::new(alloc, selector)?;
    Ok(Statement::CaseOthers(selector, arms, Boxed::new(alloc, chosen)?))
}

// A `while`.
pub(crate) fn while_do(alloc: Global, test: Value, body: Statement) -> Result<Statement, AllocError>
    ensures { (spellings : List ℕ) → IfOk result (λ made.
        statement_view spellings made ≡ typed.while (value_view test) (list_of (statement_view spellings body))) }
{
    let test = Boxed::new(alloc, test)?;
    Ok(Statement::While(test, body_of(alloc, body)?))
}

// A `repeat`.
pub(crate) fn repeat(alloc: Global, list: Statements, test: Value) -> Result<Statement, AllocError>
    ensures { (spellings : List ℕ) → IfOk result (λ made.
        statement_view spellings made ≡ typed.repeat (statements_view spellings list) (value_view test)) }
{
    Ok(Statement::Repeat(list, Boxed::new(alloc, test)?))
}

// A `for`.
pub(crate) fn for_do(alloc: Global, head: Counted, body: Statement) -> Result<Statement, AllocError>
    ensures { (spellings : List ℕ) → IfOk result (λ made.
        statement_view spellings made ≡ typed.for (slot_view head.slot) head.way (value_view head.first)
        (value_view head.last) (list_of (statement_view spellings body))) }
{
    let head = Boxed::new(alloc, head)?;
    Ok(Statement::For(head, body_of(alloc, body)?))
}

// The body of a loop as a list.
fn body_of(alloc: Global, statement: Statement) -> Result<Statements, AllocError>
    ensures { (spellings : List ℕ) → IfOk result (λ list.
        statements_view spellings list ≡ list_of (statement_view spellings statement)) }
{
    match statement {
        Statement::Compound(list) => Ok(list),
        statement => one_alone(alloc, statement),
    }
}

// One statement as a list.
fn one_alone(alloc: Global, statement: Statement) -> Result<Statements, AllocError>
    ensures { (spellings : List ℕ) → IfOk result (λ list.
        statements_view spellings list
        ≡ typed.item None (statement_view spellings statement) typed.no_statements) }
{
    let mut list = Items::new(alloc);
    list.push(Labelled {
        label: None,
        statement,
    })?;
    Ok(list)
}
