//! Assignments (ISO 7185, 6.8.2.2, in this project's profile).
ghost use Rattle.std.specs.Prelude.{◌≡◌, ℕ, List, ◌∷◌, [], option_map, option_and_then};
ghost use Rattle.pas_syntax.specs.Views.{ident_in, expr_in, variable_in};
ghost use Rattle.pas_syntax.specs.Words.{Word, name_at, variable_words, plain_words};
ghost use Rattle.pas_syntax.specs.inner.StatementViews.{assignment_in};
ghost use Rattle.pas_typed.specs.TypeViews.{type_view, table_view};
ghost use Rattle.pas_typed.specs.TypedViews.{statement_view};
ghost use Rattle.pas_rules.specs.Marks.{checked};
ghost use Rattle.pas_rules.specs.Scopes.{entity_of};
ghost use Rattle.pas_rules.specs.Expressions.{value_of as value_by, heading_of};
ghost use Rattle.pas_rules.specs.Statements as spec;
ghost use Rattle.pas_scopes.specs.ScopeViews.{scopes_view, inner_view, IsClear};
ghost use Rattle.pas_scopes.specs.Answers.{Answers, Settles};
ghost use Rattle.pas_types.specs.inner.FlowViews.{Precedes};
ghost use Rattle.pas_types.specs.inner.TargetViews.{target_view};

use crate::made::{assigns, sets_result};
use crate::statements::fit;
use pas_scopes::expressions::value_of;
use pas_scopes::judged::Judged;
use pas_scopes::names::Entity;
use pas_scopes::scopes::{Inner, Scopes};
use pas_scopes::stop::{Stop, count_of, fault};
use pas_scopes::variables::{place_of, whole};
use pas_syntax::tree::{Assignment, Ident, Variable};
use pas_typed::typed::{Place, Statement};
use pas_typed::types::{PasType, Table};
use wb_base::faults::{UNKNOWN_NAME, WRONG_TYPE};

// What is assigned to: a place, or the result of the function in whose body it stands, which has this number behind
// the function's variables.
#[derive(Drop)]
enum Target {
    Place(Place),
    Result(u32, PasType),
}

impl Target {
    // The type of what is assigned to.
    fn pas_type(&self) -> PasType
        ensures { type_view result ≡ spec.type_of_target (target_view self.now) }
    {
        match self {
            Target::Place(place) => place.pas_type(),
            Target::Result(_, pas_type) => *pas_type,
        }
    }

    // Whether it is a file.
    fn is_file(&self, types: &Table) -> bool
        ensures { (spellings : List ℕ)
            → spec.is_file_target (table_view spellings types.now) (target_view self.now) ≡ result }
    {
        match self {
            Target::Place(place) => types.is_file(place.pas_type()),
            Target::Result(..) => false,
        }
    }
}

// What an assignment means: that of a compatible value.
pub(crate) fn assignment_of(scopes: &Scopes<'_>, assignment: &Assignment) -> Result<Statement, Stop>
    ensures { IsClear (scopes_view scopes.now) → (n : ℕ)
        → Settles (plain_words n (assignment_in scopes.now.spellings.now assignment.now))
        (spec.assignment_of (scopes_view scopes.now).outer.types
        (spec.target_of (scopes_view scopes.now) (variable_in scopes.now.spellings.now assignment.now.target))
        (value_by (scopes_view scopes.now) (expr_in scopes.now.spellings.now assignment.now.value)))
        (statement_view scopes.now.spellings.now) result }
{
    let target = lawful_target(scopes, assignment)?;
    let found = value_of(scopes, &assignment.value)?;
    let is_fit = scopes
        .types
        .are_compatible(target.pas_type(), found.value.pas_type());
    let value = fit(found, is_fit)?;
    match target {
        Target::Place(place) => Ok(assigns(scopes.alloc, place, value)?),
        Target::Result(number, pas_type) => {
            Ok(sets_result(scopes.alloc, number, pas_type, value)?)
        }
    }
}

// What the target of an assignment means, which is no file.
fn lawful_target(scopes: &Scopes<'_>, assignment: &Assignment) -> Result<Target, Stop>
    ensures { IsClear (scopes_view scopes.now) → (n : ℕ)
        → Precedes assignment.now.becomes
        (variable_words n 0 (variable_in scopes.now.spellings.now assignment.now.target))
        (checked (spec.assigned_only (scopes_view scopes.now).outer.types)
        (spec.target_of (scopes_view scopes.now) (variable_in scopes.now.spellings.now assignment.now.target)))
        target_view result }
{
    let target = target_of(scopes, &assignment.target)?;
    let is_file = target.value.is_file(&scopes.types);
    target
        .noted(!is_file, WRONG_TYPE)
        .before(assignment.becomes)
}

// What a variable means as a target, where a name by itself may be that of a function.
fn target_of(scopes: &Scopes<'_>, variable: &Variable) -> Result<Judged<Target>, Stop>
    ensures { IsClear (scopes_view scopes.now) → (n : ℕ)
        → Answers (variable_words n 0 (variable_in scopes.now.spellings.now variable.now))
        (spec.target_of (scopes_view scopes.now) (variable_in scopes.now.spellings.now variable.now))
        target_view result }
{
    if variable.selectors.is_empty() {
        target_named(scopes, variable.name)
    } else {
        let place = place_of(scopes, variable)?;
        Ok(Judged {
            value: Target::Place(place.value),
            end: place.end,
        })
    }
}

// What a name by itself means as a target.
fn target_named(scopes: &Scopes<'_>, ident: Ident) -> Result<Judged<Target>, Stop>
    ensures { IsClear (scopes_view scopes.now) → (n : ℕ)
        → Answers (name_at n (ident_in scopes.now.spellings.now ident) ∷ [])
        (spec.target_named (scopes_view scopes.now)
        (entity_of (scopes_view scopes.now) (ident_in scopes.now.spellings.now ident).name)) target_view result }
{
    match scopes.named(ident) {
        Some(Entity::Variable(slot)) => {
            Ok(Judged::lawful(Target::Place(whole(scopes, slot)), ident.line))
        }
        Some(Entity::Routine(number)) => result_of(scopes, ident, number),
        Some(_) => Err(fault(WRONG_TYPE, ident.line)),
        None => Err(fault(UNKNOWN_NAME, ident.line)),
    }
}

// What the name of the routine with this number means as a target: its result, if it is the function in whose body
// this is.
fn result_of(scopes: &Scopes<'_>, ident: Ident, number: u32) -> Result<Judged<Target>, Stop>
    ensures { (n : ℕ) → Answers (name_at n (ident_in scopes.now.spellings.now ident) ∷ [])
        (spec.target_routine (scopes_view scopes.now) (scopes_view scopes.now).inner number) target_view result }
{
    match &scopes.inner {
        Some(inner) if inner.number == number => {
            own_result(inner, result_type(scopes, number), ident.line)
        }
        _ => Err(fault(WRONG_TYPE, ident.line)),
    }
}

// The result of the function of a scope, which is of this type, as a target in this line.
fn own_result(inner: &Inner<'_>, found: Option<PasType>, line: u32) -> Result<Judged<Target>, Stop>
    ensures { (spellings : List ℕ) (word : Word) → word.token.line ≡ line
        → Answers (word ∷ []) (spec.target_result (inner_view spellings inner.now) (option_map type_view found))
        target_view result }
{
    match found {
        Some(pas_type) => {
            let number = count_of(inner.variables.len())?;
            Ok(Judged::lawful(Target::Result(number, pas_type), line))
        }
        None => Err(fault(WRONG_TYPE, line)),
    }
}

// The type of the result of a routine, if it is a function.
fn result_type(scopes: &Scopes<'_>, number: u32) -> Option<PasType>
    ensures { option_map type_view result
        ≡ option_and_then (λ heading. heading.result) (heading_of (scopes_view scopes.now) number) }
{
    match scopes.heading_of(number) {
        Some(heading) => heading.result,
        None => None,
    }
}
