//! Whether statements give a function its result (ISO 7185, 6.6.2).
ghost use Rattle.std.specs.Prelude.{◌≡◌, ℕ, List};
ghost use Rattle.pas_typed.specs.TypedViews.{statement_view, statements_view, arms_view};
ghost use Rattle.pas_rules.specs.Routines as spec;

use pas_typed::typed::{Arm, Labelled, Statement};

// Whether a statement gives the function its result.
#[cycle(results)]
fn gives_result(statement: &Statement) -> bool
    ensures { (spellings : List ℕ) → result ≡ spec.gives_result (statement_view spellings statement.now) }
{
    match statement {
        Statement::SetsResult(..) => true,
        Statement::Compound(list) => list_gives_result(list.as_slice()),
        Statement::If(_, chosen) => gives_result(chosen.get()),
        Statement::IfElse(_, chosen, other) => {
            gives_result(chosen.get()) || gives_result(other.get())
        }
        Statement::Case(_, arms) => arms_give_result(arms.as_slice()),
        Statement::CaseOthers(_, arms, other) => {
            arms_give_result(arms.as_slice()) || gives_result(other.get())
        }
        Statement::While(_, list) => list_gives_result(list.as_slice()),
        Statement::Repeat(list, _) => list_gives_result(list.as_slice()),
        Statement::For(_, list) => list_gives_result(list.as_slice()),
        Statement::Empty
        | Statement::Assigns(..)
        | Statement::Calls(..)
        | Statement::Goto(_)
        | Statement::GotoLast(_)
        | Statement::Steps(..)
        | Statement::Reads(..)
        | Statement::ReadsLine(..)
        | Statement::Writes(..)
        | Statement::WritesLine(..)
        | Statement::WritesBytes(..)
        | Statement::Halts(_) => false,
    }
}

// Whether a statement of a list gives the function its result.
#[cycle(results)]
pub(crate) fn list_gives_result(list: &[Labelled]) -> bool
    ensures { (spellings : List ℕ) → result ≡ spec.list_gives_result (statements_view spellings list.now) }
{
    for labelled in list {
        if gives_result(&labelled.statement) {
            return true;
        }
    }
    false
}

// Whether a statement of the elements of a case gives the function its result.
#[cycle(results)]
fn arms_give_result(arms: &[Arm]) -> bool
    ensures { (spellings : List ℕ) → result ≡ spec.arm_gives_result (arms_view spellings arms.now) }
{
    for arm in arms {
        if gives_result(&arm.statement) {
            return true;
        }
    }
    false
}
