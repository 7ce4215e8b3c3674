//! Cases (ISO 7185, 6.8.3.5, in this project's profile).
ghost use Rattle.std.specs.Prelude.{◌≡◌, ◌∷◌, ◌++◌, [], ℕ, List, Some, None, IfOk};
ghost use Rattle.pas_tokens.specs.declared.kinds.Kind.TheVariants as k;
ghost use Rattle.pas_syntax.specs.Views.{expr_in, constant_in, separated_in};
ghost use Rattle.pas_syntax.specs.Words.{expr_words, constant_words, separated};
ghost use Rattle.pas_syntax.specs.ProgramViews.{element_in, elements_in, others_in};
ghost use Rattle.pas_typed.specs.TypeViews.{base_view};
ghost use Rattle.pas_typed.specs.TypedViews.{value_view, statement_view, arms_view};
ghost use Rattle.pas_rules.specs.Marks.{checked};
ghost use Rattle.pas_rules.specs.Expressions as value_rule;
ghost use Rattle.pas_rules.specs.Labels.{labels_at, labels_in_elements, labels_in_others};
ghost use Rattle.pas_rules.specs.Statements as spec;
ghost use Rattle.pas_scopes.specs.ScopeViews.{scopes_view, IsClear};
ghost use Rattle.pas_types.specs.inner.FlowViews.{Goes, Precedes};
ghost use Rattle.pas_types.specs.inner.CaseViews.{Holds, choice_part, IsArm, AreArms, others_view, AreOthers};
ghost use Rattle.pas_types.specs.inner.CaseViews.{behind_elements};

use crate::flow::Flow;
use crate::labels::Spot;
use crate::made::{case, case_others};
use crate::statements::{fit, statement_of};
use indexmap::IndexSet;
use pas_scopes::constants::constant_of;
use pas_scopes::expressions::value_of;
use pas_scopes::scopes::Scopes;
use pas_scopes::stop::{Stop, before, demand, fault};
use pas_syntax::tree::{Constant, Element, Elements, Guard, Others, Separated};
use pas_typed::typed::{Arm, Arms, Statement, Value};
use pas_typed::types::Base;
use sqlite_items::Items;
use std::alloc::{AllocError, Global};
use wb_base::faults::{DUPLICATE_NAME, WRONG_TYPE};

// What the selector of a case means, which is ordinal, and its base.
pub(crate) fn selector_of(scopes: &Scopes<'_>, guard: &Guard) -> Result<(Value, Base), Stop>
    ensures means { IsClear (scopes_view scopes.now) → (n : ℕ)
        → Precedes guard.now.behind (expr_words n 0 (expr_in scopes.now.spellings.now guard.now.value))
        (checked (value_rule.ordinal_only (scopes_view scopes.now).outer.types)
        (value_rule.value_of (scopes_view scopes.now) (expr_in scopes.now.spellings.now guard.now.value)))
        (λ found. value_view found.0) result }
    ensures base { IfOk result (λ found.
        spec.base_of_value (scopes_view scopes.now).outer.types (Some (value_view found.0))
        ≡ Some (base_view found.1)) }
{
    let found = value_of(scopes, &guard.value)?;
    let line = found.end.line;
    let base = scopes.types.base_of(found.value.pas_type());
    let value = before(guard.behind, fit(found, base.is_some()))?;
    match base {
        Some(base) => Ok((value, base)),
        None => Err(fault(WRONG_TYPE, line)),
    }
}

// The line of the word behind the elements of a case that ends in this line.
pub(crate) fn line_behind(others: &Others, end: u32) -> u32
    ensures { (spellings : List ℕ) → result ≡ behind_elements end (others_in spellings others.now) }
{
    match others {
        Others::Nothing => end,
        Others::Semicolon(line) => *line,
        Others::Others(head, _, _) => head.semicolon,
    }
}

// What the elements of a case mean, of which the selector is of this base.
#[cycle(statement)]
pub(crate) fn arms_of(
    scopes: &Scopes<'_>,
    flow: &mut Flow<'_>,
    base: Base,
    elements: &Elements,
) -> Result<Arms, Stop>
    ensures means { AreArms scopes.now flow.old base (elements_in scopes.now.spellings.now elements.now) result }
    ensures goes { Goes scopes.now flow.old
        (labels_in_elements (elements_in scopes.now.spellings.now elements.now)) result flow.new }
{
    let mut taken = IndexSet::new(scopes.alloc);
    let mut arms = Items::new(scopes.alloc);
    let mut found = arm_of(scopes, flow, base, &mut taken, &elements.first);
    for next in elements.more.as_slice() {
        arms.push(before(next.line, found)?)?;
        found = arm_of(scopes, flow, base, &mut taken, &next.element);
    }
    arms.push(found?)?;
    Ok(arms)
}

// What an element of a case means, where these constants stand before it.
#[cycle(statement)]
fn arm_of(
    scopes: &Scopes<'_>,
    flow: &mut Flow<'_>,
    base: Base,
    taken: &mut IndexSet<i64>,
    element: &Element,
) -> Result<Arm, Stop>
    ensures means { IsArm scopes.now flow.old base taken.old.keys (element_in scopes.now.spellings.now element.now)
        result }
    ensures taken { IsClear (scopes_view scopes.now) → IfOk result (λ found. taken.new.keys ≡ taken.old.keys
        ++ spec.values_known (spec.constants_of (scopes_view scopes.now) None []
        (element_in scopes.now.spellings.now element.now).constants)) }
    ensures goes { Goes scopes.now flow.old
        (labels_at (element_in scopes.now.spellings.now element.now).statement) result flow.new }
{
    let constants = constants_of(scopes, base, taken, &element.constants)?;
    let statement = statement_of(scopes, flow, Spot::Elsewhere, &element.statement)?;
    Ok(Arm {
        constants,
        statement,
    })
}

// What stands behind the elements of a case that ends in this line.
#[cycle(statement)]
pub(crate) fn others_of(
    scopes: &Scopes<'_>,
    flow: &mut Flow<'_>,
    others: &Others,
    end: u32,
) -> Result<Option<Statement>, Stop>
    ensures means { AreOthers scopes.now flow.old end (others_in scopes.now.spellings.now others.now) result }
    ensures goes { Goes scopes.now flow.old (labels_in_others (others_in scopes.now.spellings.now others.now)) result
        flow.new }
{
    match others {
        Others::Others(_, chosen, semicolon) => {
            let chosen = statement_of(scopes, flow, Spot::Elsewhere, chosen.get());
            Ok(Some(before(semicolon.unwrap_or(end), chosen)?))
        }
        Others::Nothing | Others::Semicolon(_) => Ok(None),
    }
}

// The case of a selector and arms, with others or without.
pub(crate) fn case_of(
    alloc: Global,
    selector: Value,
    arms: Arms,
    others: Option<Statement>,
) -> Result<Statement, AllocError>
    ensures { (spellings : List ℕ) → IfOk result (λ made.
        statement_view spellings made
        ≡ others_view spellings others (value_view selector) (arms_view spellings arms)) }
{
    match others {
        Some(chosen) => case_others(alloc, selector, arms, chosen),
        None => case(alloc, selector, arms),
    }
}

// The constants of an element, of this base, where these stand before them.
fn constants_of(
    scopes: &Scopes<'_>,
    base: Base,
    taken: &mut IndexSet<i64>,
    constants: &Separated<Constant>,
) -> Result<Items<i64>, Stop>
    ensures means { IsClear (scopes_view scopes.now) → (n : ℕ)
        → Holds (separated n k.Comma (constant_words n)
        (separated_in (constant_in scopes.now.spellings.now) constants.now))
        (spec.constants_of (scopes_view scopes.now) (Some (base_view base)) taken.old.keys
        (separated_in (constant_in scopes.now.spellings.now) constants.now)) (λ values. values) result }
    ensures taken { IfOk result (λ values. taken.new.keys ≡ taken.old.keys ++ values) }
{
    let mut values = Items::new(scopes.alloc);
    values.push(choice_of(scopes, base, taken, constants.first)?)?;
    for behind in constants.more.as_slice() {
        values.push(choice_of(scopes, base, taken, behind.item)?)?;
    }
    Ok(values)
}

// A constant of an element, which is of this base, and none of these.
fn choice_of(
    scopes: &Scopes<'_>,
    base: Base,
    taken: &mut IndexSet<i64>,
    constant: Constant,
) -> Result<i64, Stop>
    ensures means { IsClear (scopes_view scopes.now) → (n : ℕ)
        → Holds (constant_words n (constant_in scopes.now.spellings.now constant))
        (choice_part (scopes_view scopes.now) (base_view base) taken.old.keys
        (constant_in scopes.now.spellings.now constant)) (λ value. value) result }
    ensures taken { IfOk result (λ value. taken.new.keys ≡ taken.old.keys ++ value ∷ []) }
{
    let found = constant_of(scopes, constant)?;
    demand(base.is(found.base), WRONG_TYPE, found.line)?;
    let is_new = taken.insert(found.value)?;
    demand(is_new, DUPLICATE_NAME, found.line)?;
    Ok(found.value)
}
