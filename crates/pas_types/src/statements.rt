//! Statements (ISO 7185, 6.8, in this project's profile).
ghost use Rattle.std.specs.Prelude.{◌≡◌, ℕ, true, List, [], ◌∷◌, ◌++◌, Some, IfOk, OnOk};
ghost use Rattle.wb_base.specs.declared.faults.TheConstants.{WRONG_TYPE};
ghost use Rattle.pas_tokens.specs.Cutting.{Wrong, wrong};
ghost use Rattle.pas_syntax.specs.Tree as tree;
ghost use Rattle.pas_syntax.specs.Views.{ident_in, lined_in, expr_in};
ghost use Rattle.pas_syntax.specs.Words.{Word, name_at, expr_words, statements_words};
ghost use Rattle.pas_syntax.specs.ProgramViews.{plain_in, statement_in, statements_in};
ghost use Rattle.pas_syntax.specs.inner.StatementViews.{for_head_in};
ghost use Rattle.pas_typed.specs.Typed as typed;
ghost use Rattle.pas_typed.specs.TypeViews.{type_view};
ghost use Rattle.pas_typed.specs.TypedViews.{slot_view, value_view, statement_view, statements_view};
ghost use Rattle.pas_rules.specs.Marks.{Judged as SpecJudged, unless, checked};
ghost use Rattle.pas_rules.specs.Scopes.{entity_of};
ghost use Rattle.pas_rules.specs.Expressions.{value_of as value_by};
ghost use Rattle.pas_rules.specs.Labels.{labels_in, labels_at, labels_in_list, labels_of_list};
ghost use Rattle.pas_rules.specs.Statements as spec;
ghost use Rattle.pas_scopes.specs.ScopeViews.{scopes_view, IsClear};
ghost use Rattle.pas_scopes.specs.Answers.{end_in, EndsAs, Settles};
ghost use Rattle.pas_types.specs.inner.LabelViews.{spot_in};
ghost use Rattle.pas_types.specs.inner.FlowViews.{Goes, IsPlain, IsStatement, IsListed, IsList, IsBlock, Precedes};

use crate::assignments::assignment_of;
use crate::calls::call_of;
use crate::cases::{arms_of, case_of, line_behind, others_of, selector_of};
use crate::flow::Flow;
use crate::labels::{Spot, label_of};
use crate::made::{for_do, if_else, if_then, repeat, while_do};
use pas_scopes::expressions::value_of;
use pas_scopes::judged::Judged;
use pas_scopes::names::Entity;
use pas_scopes::scopes::Scopes;
use pas_scopes::stop::{Stop, before, demand, fault};
use pas_syntax::tree::{
    Behind, Expr, ForHead, Guard, Ident, Plain, Statement as StatementTree,
    Statements as StatementsTree,
};
use pas_typed::typed::{Counted, Labelled, Mode, Slot, Statement, Statements, Value};
use pas_typed::types::Base;
use sqlite_items::{Boxed, Items};
use wb_base::faults::{UNKNOWN_NAME, WRONG_TYPE};

// The value that was found, where one more rule is to hold.
pub(crate) fn fit(found: Judged<Value>, holds: bool) -> Result<Value, Stop>
    ensures settles { (words : List Word) (demand : typed.Value → List Wrong) (part : SpecJudged typed.Value)
        → EndsAs words part (value_view found.value) (end_in found.end)
        → demand (value_view found.value) ≡ unless holds (wrong WRONG_TYPE)
        → Settles words (checked demand part) value_view result }
    ensures value { IfOk result (λ value. value ≡ found.value) }
    ensures holds { OnOk result (holds ≡ true) }
{
    found.noted(holds, WRONG_TYPE).settled()
}

// What a test means, which is a boolean.
fn condition(scopes: &Scopes<'_>, expr: &Expr) -> Result<Value, Stop>
    ensures { IsClear (scopes_view scopes.now) → (n : ℕ)
        → Settles (expr_words n 0 (expr_in scopes.now.spellings.now expr.now))
        (spec.test_of (scopes_view scopes.now) (expr_in scopes.now.spellings.now expr.now)) value_view result }
{
    let found = value_of(scopes, expr)?;
    let is_boolean = scopes.types.is_of(Base::Boolean, found.value.pas_type());
    fit(found, is_boolean)
}

// What the test between two words means.
fn test_of(scopes: &Scopes<'_>, guard: &Guard) -> Result<Value, Stop>
    ensures { IsClear (scopes_view scopes.now) → (n : ℕ)
        → Precedes guard.now.behind (expr_words n 0 (expr_in scopes.now.spellings.now guard.now.value))
        (spec.test_of (scopes_view scopes.now) (expr_in scopes.now.spellings.now guard.now.value)) value_view result }
{
    before(guard.behind, condition(scopes, &guard.value))
}

// The variable of a `for` with this name, which is declared as one, and ordinal.
fn counter_named(scopes: &Scopes<'_>, ident: Ident) -> Result<Slot, Stop>
    ensures { IsClear (scopes_view scopes.now) → (n line : ℕ)
        → Precedes line (name_at n (ident_in scopes.now.spellings.now ident) ∷ [])
        (spec.for_variable (scopes_view scopes.now).outer.types
        (entity_of (scopes_view scopes.now) (ident_in scopes.now.spellings.now ident).name)) slot_view result }
{
    match scopes.named(ident) {
        Some(Entity::Variable(slot)) => {
            demand(counts(scopes, slot), WRONG_TYPE, ident.line)?;
            Ok(slot)
        }
        Some(_) => Err(fault(WRONG_TYPE, ident.line)),
        None => Err(fault(UNKNOWN_NAME, ident.line)),
    }
}

// Whether a variable is declared as one, and ordinal.
fn counts(scopes: &Scopes<'_>, slot: Slot) -> bool
    ensures { result ≡ spec.counts (scopes_view scopes.now).outer.types (slot_view slot) }
{
    match slot.mode {
        Mode::Declared => scopes.types.range_of(slot.pas_type).is_some(),
        _ => false,
    }
}

// What a limit of a `for` means, which is compatible with the variable.
fn limit_of(scopes: &Scopes<'_>, slot: Slot, expr: &Expr) -> Result<Value, Stop>
    ensures { IsClear (scopes_view scopes.now) → (n : ℕ)
        → Settles (expr_words n 0 (expr_in scopes.now.spellings.now expr.now))
        (checked (spec.fits_slot (scopes_view scopes.now).outer.types (Some (slot_view slot)))
        (value_by (scopes_view scopes.now) (expr_in scopes.now.spellings.now expr.now))) value_view result }
{
    let found = value_of(scopes, expr)?;
    let is_fit = scopes
        .types
        .are_compatible(slot.pas_type, found.value.pas_type());
    fit(found, is_fit)
}

// What the statements of a list mean.
#[cycle(statement)]
pub(crate) fn statements_of(
    scopes: &Scopes<'_>,
    flow: &mut Flow<'_>,
    list: &StatementsTree,
) -> Result<Statements, Stop>
    ensures means { IsBlock scopes.now flow.old (statements_in scopes.now.spellings.now list.now) result }
    ensures goes { Goes scopes.now flow.old (labels_in_list (statements_in scopes.now.spellings.now list.now)) result
        flow.new }
{
    flow.block.enter(list)?;
    let found = in_turn(scopes, flow, list)?;
    flow.block.leave(list);
    Ok(found)
}

// What the statements of a list mean, of which the labels are among those around.
#[cycle(statement)]
fn in_turn(
    scopes: &Scopes<'_>,
    flow: &mut Flow<'_>,
    list: &StatementsTree,
) -> Result<Statements, Stop>
    ensures means { IsList scopes.now flow.old (statements_in scopes.now.spellings.now list.now) result }
    ensures goes { Goes scopes.now flow.old (labels_in_list (statements_in scopes.now.spellings.now list.now)) result
        flow.new }
{
    let mut statements = Items::new(scopes.alloc);
    let mut found = labelled(scopes, flow, &list.first);
    for next in list.more.as_slice() {
        statements.push(before(next.line, found)?)?;
        found = labelled(scopes, flow, &next.statement);
    }
    statements.push(found?)?;
    Ok(statements)
}

// What a statement of a list means, with its label.
#[cycle(statement)]
fn labelled(
    scopes: &Scopes<'_>,
    flow: &mut Flow<'_>,
    statement: &StatementTree,
) -> Result<Labelled, Stop>
    ensures means { IsListed scopes.now flow.old (statement_in scopes.now.spellings.now statement.now) result }
    ensures goes { Goes scopes.now flow.old (labels_at (statement_in scopes.now.spellings.now statement.now)) result
        flow.new }
{
    Ok(Labelled {
        label: label_of(statement),
        statement: statement_of(scopes, flow, Spot::InList, statement)?,
    })
}

// What a statement means.
#[cycle(statement)]
pub(crate) fn statement_of(
    scopes: &Scopes<'_>,
    flow: &mut Flow<'_>,
    spot: Spot,
    statement: &StatementTree,
) -> Result<Statement, Stop>
    ensures means { IsStatement scopes.now flow.old (spot_in spot)
        (statement_in scopes.now.spellings.now statement.now) result }
    ensures goes { Goes scopes.now flow.old (labels_at (statement_in scopes.now.spellings.now statement.now)) result
        flow.new }
{
    match statement {
        StatementTree::Unlabelled(plain) => plain_of(scopes, flow, plain),
        StatementTree::Labelled(label, plain) => {
            flow.block.stand(label.numeral, spot)?;
            plain_of(scopes, flow, plain.get())
        }
    }
}

// What a statement without a label means.
#[cycle(statement)]
fn plain_of(scopes: &Scopes<'_>, flow: &mut Flow<'_>, plain: &Plain) -> Result<Statement, Stop>
    ensures means { IsPlain scopes.now flow.old (plain_in scopes.now.spellings.now plain.now) result }
    ensures goes { Goes scopes.now flow.old (labels_in (plain_in scopes.now.spellings.now plain.now)) result
        flow.new }
{
    match plain {
        Plain::Empty => Ok(Statement::Empty),
        Plain::Assignment(assignment) => assignment_of(scopes, assignment.get()),
        Plain::Call(call) => call_of(scopes, call.get()),
        Plain::Compound(body) => compound_of(scopes, flow, &body.get().list, body.get().end),
        Plain::If(guard, chosen) => if_of(scopes, flow, guard.get(), chosen.get()),
        Plain::IfElse(guard, chosen, line, other) => {
            let test = test_of(scopes, guard.get())?;
            let chosen = statement_of(scopes, flow, Spot::Elsewhere, chosen.get());
            let chosen = before(*line, chosen)?;
            let other = statement_of(scopes, flow, Spot::Elsewhere, other.get())?;
            Ok(if_else(scopes.alloc, test, chosen, other)?)
        }
        Plain::Case(guard, elements, others, end) => {
            let (selector, base) = selector_of(scopes, guard.get())?;
            let arms = arms_of(scopes, flow, base, elements.get());
            let arms = before(line_behind(others.get(), *end), arms)?;
            let others = others_of(scopes, flow, others.get(), *end)?;
            Ok(case_of(scopes.alloc, selector, arms, others)?)
        }
        Plain::While(guard, body) => while_of(scopes, flow, guard.get(), body.get()),
        Plain::Repeat(_, list, until) => repeat_of(scopes, flow, list.get(), until.get()),
        Plain::For(head, body) => for_of(scopes, flow, head.get(), body.get()),
        Plain::Goto(_, numeral) => flow.goto_of(scopes, *numeral),
    }
}

// What a compound means that ends in this line.
#[cycle(statement)]
fn compound_of(
    scopes: &Scopes<'_>,
    flow: &mut Flow<'_>,
    list: &StatementsTree,
    end: u32,
) -> Result<Statement, Stop>
    ensures means { (begin : ℕ) → IsPlain scopes.now flow.old (tree.compound begin
        (statements_in scopes.now.spellings.now list.now) end) result }
    ensures goes { Goes scopes.now flow.old (labels_in_list (statements_in scopes.now.spellings.now list.now)) result
        flow.new }
{
    let list = before(end, statements_of(scopes, flow, list))?;
    Ok(Statement::Compound(list))
}

// What an `if` without `else` means.
#[cycle(statement)]
fn if_of(
    scopes: &Scopes<'_>,
    flow: &mut Flow<'_>,
    guard: &Guard,
    chosen: &StatementTree,
) -> Result<Statement, Stop>
    ensures means { IsPlain scopes.now flow.old (tree.if_then guard.now.line
        (expr_in scopes.now.spellings.now guard.now.value) guard.now.behind
        (statement_in scopes.now.spellings.now chosen.now)) result }
    ensures goes { Goes scopes.now flow.old (labels_at (statement_in scopes.now.spellings.now chosen.now)) result
        flow.new }
{
    let test = test_of(scopes, guard)?;
    let chosen = statement_of(scopes, flow, Spot::Elsewhere, chosen)?;
    Ok(if_then(scopes.alloc, test, chosen)?)
}

// What a `while` means.
#[cycle(statement)]
fn while_of(
    scopes: &Scopes<'_>,
    flow: &mut Flow<'_>,
    guard: &Guard,
    body: &StatementTree,
) -> Result<Statement, Stop>
    ensures means { IsPlain scopes.now flow.old (tree.while guard.now.line
        (expr_in scopes.now.spellings.now guard.now.value) guard.now.behind
        (statement_in scopes.now.spellings.now body.now)) result }
    ensures goes { Goes scopes.now flow.old (labels_at (statement_in scopes.now.spellings.now body.now)) result
        flow.new }
{
    let test = test_of(scopes, guard)?;
    let body = statement_of(scopes, flow, Spot::Elsewhere, body)?;
    Ok(while_do(scopes.alloc, test, body)?)
}

// What a `repeat` means.
#[cycle(statement)]
fn repeat_of(
    scopes: &Scopes<'_>,
    flow: &mut Flow<'_>,
    list: &StatementsTree,
    until: &Behind<Expr>,
) -> Result<Statement, Stop>
    ensures means { (line : ℕ) → IsPlain scopes.now flow.old (tree.repeat line
        (statements_in scopes.now.spellings.now list.now) until.now.line
        (expr_in scopes.now.spellings.now until.now.item)) result }
    ensures goes { Goes scopes.now flow.old (labels_in_list (statements_in scopes.now.spellings.now list.now)) result
        flow.new }
{
    let list = before(until.line, statements_of(scopes, flow, list))?;
    let test = condition(scopes, &until.item)?;
    Ok(repeat(scopes.alloc, list, test)?)
}

// What a `for` means.
#[cycle(statement)]
fn for_of(
    scopes: &Scopes<'_>,
    flow: &mut Flow<'_>,
    head: &ForHead,
    body: &StatementTree,
) -> Result<Statement, Stop>
    ensures means { let h = for_head_in scopes.now.spellings.now head.now in
        IsPlain scopes.now flow.old (tree.for h.line h.name h.becomes h.first h.toward h.last h.do_line
        (statement_in scopes.now.spellings.now body.now)) result }
    ensures goes { Goes scopes.now flow.old (labels_at (statement_in scopes.now.spellings.now body.now)) result
        flow.new }
{
    let slot = counter_named(scopes, head.name)?;
    let first = before(head.way.line, limit_of(scopes, slot, &head.first))?;
    let last = before(head.do_line, limit_of(scopes, slot, &head.last))?;
    let body = statement_of(scopes, flow, Spot::Elsewhere, body)?;
    let counted = Counted {
        slot,
        way: head.way.item,
        first,
        last,
    };
    Ok(for_do(scopes.alloc, counted, body)?)
}
