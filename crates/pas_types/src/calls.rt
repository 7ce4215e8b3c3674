//! Statements that call a procedure (ISO 7185, 6.8.2.3 and 6.9, in this project's profile).
ghost use Rattle.std.specs.Prelude.{◌≡◌, ◌≢◌, ℕ, ◌+◌, ◌∷◌, [], List, Some, map, option_map};
ghost use Rattle.std.specs.Option.{option_copied};
ghost use Rattle.pas_syntax.specs.Tree as tree;
ghost use Rattle.pas_syntax.specs.Views.{ident_in, expr_in, if_there};
ghost use Rattle.pas_syntax.specs.ProgramViews.{argument_in, arguments_in};
ghost use Rattle.pas_syntax.specs.Words.{Word, name_at, expr_words, argument_words, plain_words};
ghost use Rattle.pas_typed.specs.Types.{integer};
ghost use Rattle.pas_typed.specs.Typed as typed;
ghost use Rattle.pas_typed.specs.Typed.{Value as SpecValue};
ghost use Rattle.pas_typed.specs.TypedViews.{variable_view, passed_view, passed_views, heading_view, statement_view};
ghost use Rattle.pas_typed.specs.TypedViews.{value_view, place_view, file_step_view};
ghost use Rattle.pas_rules.specs.Marks.{Judged as SpecJudged};
ghost use Rattle.pas_rules.specs.Scopes.{entity_of, unclear};
ghost use Rattle.pas_scopes.specs.NameViews.{entity_view, procedure_view};
ghost use Rattle.pas_rules.specs.Expressions.{Demand, value_of, heading_of, file_only, only};
ghost use Rattle.pas_rules.specs.Calls as spec;
ghost use Rattle.pas_scopes.specs.ScopeViews.{scopes_view, IsClear};
ghost use Rattle.pas_scopes.specs.Answers.{end_in, EndsAs, StandsAs, Stands, Settles};
ghost use Rattle.pas_scopes.specs.Arguments.{taken_by, taken_as, plainly, passing_in, passing_part, sole_part};

use crate::transfers::{Extent, read_alone, read_call, write_alone, write_call};
use pas_scopes::expressions::value_of;
use pas_scopes::functions::{argument_of, is_file, one_too_many, place_alone};
use pas_scopes::judged::Judged;
use pas_scopes::names::{Entity, Procedure};
use pas_scopes::scopes::Scopes;
use pas_scopes::stop::{Stop, demand, fault};
use pas_syntax::tree::{Argument, Arguments, Ident, ProcedureCall};
use pas_typed::typed::{FileStep, Heading, Passed, Place, Statement, Value, Variable};
use pas_typed::types::Base;
use sqlite_items::{Boxed, Items};
use wb_base::faults::{UNKNOWN_NAME, WRONG_TYPE};

// What the call of a procedure means.
pub(crate) fn call_of(scopes: &Scopes<'_>, call: &ProcedureCall) -> Result<Statement, Stop>
    ensures { IsClear (scopes_view scopes.now) → (n : ℕ)
        → Settles (plain_words n (tree.procedure_call (ident_in scopes.now.spellings.now call.now.name)
        (if_there (arguments_in scopes.now.spellings.now) call.now.arguments)))
        (spec.call_of (scopes_view scopes.now)
        (entity_of (scopes_view scopes.now) (ident_in scopes.now.spellings.now call.now.name).name)
        (if_there (arguments_in scopes.now.spellings.now) call.now.arguments))
        (statement_view scopes.now.spellings.now) result }
{
    match &call.arguments {
        Some(arguments) => call_with(scopes, call.name, arguments),
        None => call_alone(scopes, call.name),
    }
}

// What a name by itself means as a statement.
fn call_alone(scopes: &Scopes<'_>, ident: Ident) -> Result<Statement, Stop>
    ensures { IsClear (scopes_view scopes.now) → (n : ℕ)
        → Settles (name_at n (ident_in scopes.now.spellings.now ident) ∷ [])
        (spec.call_alone (scopes_view scopes.now)
        (entity_of (scopes_view scopes.now) (ident_in scopes.now.spellings.now ident).name))
        (statement_view scopes.now.spellings.now) result }
{
    match scopes.named(ident) {
        Some(entity) => alone_as(scopes, entity, ident),
        None => Err(fault(UNKNOWN_NAME, ident.line)),
    }
}

// The same of a name that stands for this.
fn alone_as(scopes: &Scopes<'_>, entity: Entity, ident: Ident) -> Result<Statement, Stop>
    ensures { entity_view entity ≢ unclear → (n : ℕ)
        → Settles (name_at n (ident_in scopes.now.spellings.now ident) ∷ [])
        (spec.call_alone (scopes_view scopes.now) (Some (entity_view entity)))
        (statement_view scopes.now.spellings.now) result }
{
    match entity {
        Entity::Routine(number) => routine_alone(scopes, ident, number),
        Entity::FileStep(_) => Err(Stop::Missing),
        Entity::Procedure(procedure) => procedure_alone(scopes, procedure, ident.line),
        _ => Err(fault(WRONG_TYPE, ident.line)),
    }
}

// What the name of a required procedure in this line means as a statement.
fn procedure_alone(scopes: &Scopes<'_>, procedure: Procedure, line: u32) -> Result<Statement, Stop>
    ensures { (word : Word) → word.token.line ≡ line → Settles (word ∷ [])
        (spec.procedure_alone (scopes_view scopes.now) (procedure_view procedure))
        (statement_view scopes.now.spellings.now) result }
{
    match procedure {
        Procedure::Read => read_alone(scopes, line, Extent::ItemsAlone),
        Procedure::Readln => read_alone(scopes, line, Extent::WholeLine),
        Procedure::Write => write_alone(scopes, line, Extent::ItemsAlone),
        Procedure::Writeln => write_alone(scopes, line, Extent::WholeLine),
        Procedure::Uexit => Err(Stop::Missing),
    }
}

// What a call with arguments means.
fn call_with(scopes: &Scopes<'_>, ident: Ident, arguments: &Arguments) -> Result<Statement, Stop>
    ensures { IsClear (scopes_view scopes.now) → (n : ℕ) → Settles
        (plain_words n (tree.procedure_call (ident_in scopes.now.spellings.now ident)
        (Some (arguments_in scopes.now.spellings.now arguments.now))))
        (spec.call_by (scopes_view scopes.now) (spec.actuals_of (scopes_view scopes.now)
        (arguments_in scopes.now.spellings.now arguments.now).items)
        (entity_of (scopes_view scopes.now) (ident_in scopes.now.spellings.now ident).name))
        (statement_view scopes.now.spellings.now) result }
{
    match scopes.named(ident) {
        Some(entity) => with_as(scopes, entity, ident, arguments),
        None => Err(fault(UNKNOWN_NAME, ident.line)),
    }
}

// The same of a name that stands for this.
fn with_as(
    scopes: &Scopes<'_>,
    entity: Entity,
    ident: Ident,
    arguments: &Arguments,
) -> Result<Statement, Stop>
    ensures { IsClear (scopes_view scopes.now) → entity_view entity ≢ unclear → (n : ℕ) → Settles
        (plain_words n (tree.procedure_call (ident_in scopes.now.spellings.now ident)
        (Some (arguments_in scopes.now.spellings.now arguments.now))))
        (spec.call_by (scopes_view scopes.now) (spec.actuals_of (scopes_view scopes.now)
        (arguments_in scopes.now.spellings.now arguments.now).items) (Some (entity_view entity)))
        (statement_view scopes.now.spellings.now) result }
{
    match entity {
        Entity::Routine(number) => routine_with(scopes, ident, number, arguments),
        Entity::FileStep(step) => step_with(scopes, step, arguments),
        Entity::Procedure(procedure) => procedure_with(scopes, procedure, ident.line, arguments),
        _ => Err(fault(WRONG_TYPE, ident.line)),
    }
}

// What the call with arguments of a required procedure means, of which the name stands in this line.
fn procedure_with(
    scopes: &Scopes<'_>,
    procedure: Procedure,
    line: u32,
    arguments: &Arguments,
) -> Result<Statement, Stop>
    ensures { IsClear (scopes_view scopes.now) → (n : ℕ) (name : tree.Ident) → name.line ≡ line → Settles
        (plain_words n (tree.procedure_call name (Some (arguments_in scopes.now.spellings.now arguments.now))))
        (spec.procedure_of (scopes_view scopes.now) (procedure_view procedure)
        (spec.actuals_of (scopes_view scopes.now) (arguments_in scopes.now.spellings.now arguments.now).items))
        (statement_view scopes.now.spellings.now) result }
{
    match procedure {
        Procedure::Read => read_call(scopes, line, Extent::ItemsAlone, arguments),
        Procedure::Readln => read_call(scopes, line, Extent::WholeLine, arguments),
        Procedure::Write => write_call(scopes, line, Extent::ItemsAlone, arguments),
        Procedure::Writeln => write_call(scopes, line, Extent::WholeLine, arguments),
        Procedure::Uexit => halt_with(scopes, arguments),
    }
}

// What the name of a routine means as a statement: the call of a procedure that takes no arguments.
fn routine_alone(scopes: &Scopes<'_>, ident: Ident, number: u32) -> Result<Statement, Stop>
    ensures { (n : ℕ) → Settles (name_at n (ident_in scopes.now.spellings.now ident) ∷ [])
        (spec.routine_alone number (heading_of (scopes_view scopes.now) number))
        (statement_view scopes.now.spellings.now) result }
{
    match scopes.heading_of(number) {
        Some(heading) => heading_alone(scopes, ident, number, heading),
        // No text leads here: each routine that has a name has a heading.
        None => Err(Stop::OutOfMemory),
    }
}

// The same of a routine with this heading.
fn heading_alone(
    scopes: &Scopes<'_>,
    ident: Ident,
    number: u32,
    heading: &Heading,
) -> Result<Statement, Stop>
    ensures { (n : ℕ) → Settles (name_at n (ident_in scopes.now.spellings.now ident) ∷ [])
        (spec.routine_alone number (Some (heading_view scopes.now.spellings.now heading.now)))
        (statement_view scopes.now.spellings.now) result }
{
    match heading.result {
        Some(_) => Err(fault(WRONG_TYPE, ident.line)),
        None => {
            if heading.parameters.is_empty() {
                Ok(Statement::Calls(number, Items::new(scopes.alloc)))
            } else {
                Err(Stop::Missing)
            }
        }
    }
}

// What the call of a declared procedure with arguments means.
fn routine_with(
    scopes: &Scopes<'_>,
    ident: Ident,
    number: u32,
    arguments: &Arguments,
) -> Result<Statement, Stop>
    ensures { IsClear (scopes_view scopes.now) → (n : ℕ) → Settles
        (plain_words n (tree.procedure_call (ident_in scopes.now.spellings.now ident)
        (Some (arguments_in scopes.now.spellings.now arguments.now))))
        (spec.routine_with (scopes_view scopes.now) number
        (map spec.without_width (spec.actuals_of (scopes_view scopes.now)
        (arguments_in scopes.now.spellings.now arguments.now).items)) (heading_of (scopes_view scopes.now) number))
        (statement_view scopes.now.spellings.now) result }
{
    match scopes.heading_of(number) {
        Some(heading) => match heading.result {
            Some(_) => Err(fault(WRONG_TYPE, ident.line)),
            None => {
                let passed = passed_to(scopes, &heading.parameters, arguments)?;
                Ok(Statement::Calls(number, passed))
            }
        },
        // No text leads here: each routine that has a name has a heading.
        None => Err(Stop::OutOfMemory),
    }
}

// The arguments as they are passed. Too few show it at the parenthesis behind them.
fn passed_to(
    scopes: &Scopes<'_>,
    parameters: &Items<Variable>,
    arguments: &Arguments,
) -> Result<Items<Passed>, Stop>
    ensures { IsClear (scopes_view scopes.now) → (n : ℕ) (name : tree.Ident) → Settles
        (plain_words n (tree.procedure_call name (Some (arguments_in scopes.now.spellings.now arguments.now))))
        (passing_part (scopes_view scopes.now).outer.types
        (map (variable_view scopes.now.spellings.now) parameters.now) (map spec.without_width
        (spec.actuals_of (scopes_view scopes.now) (arguments_in scopes.now.spellings.now arguments.now).items)))
        passed_views result }
{
    let mut passed = Items::new(scopes.alloc);
    let mut last = actual_of(scopes, parameters.get(0), &arguments.items.first)?;
    for (index, more) in arguments.items.more.as_slice().iter().enumerate() {
        passed.push(last.before(more.line)?)?;
        last = actual_of(scopes, parameters.get(index + 1), &more.item)?;
    }
    passed.push(last.before(arguments.closed)?)?;
    demand(
        parameters.len() <= passed.len(),
        WRONG_TYPE,
        arguments.closed,
    )?;
    Ok(passed)
}

// An argument as it is passed to a parameter, if there is one.
fn actual_of(
    scopes: &Scopes<'_>,
    parameter: Option<&Variable>,
    argument: &Argument,
) -> Result<Judged<Passed>, Stop>
    ensures { IsClear (scopes_view scopes.now) → (n : ℕ)
        → Stands (argument_words n (argument_in scopes.now.spellings.now argument.now))
        (taken_by (option_map (passing_in scopes.now.spellings.now (scopes_view scopes.now).outer.types)
        (option_copied parameter.entry)) (spec.without_width (spec.actual_of (scopes_view scopes.now)
        (argument_in scopes.now.spellings.now argument.now)))) passed_view result }
{
    let found = argument_of(scopes, parameter, &argument.value)?;
    match &argument.width {
        Some(width) => Err(fault(WRONG_TYPE, width.line)),
        None => Ok(found),
    }
}

// What a step of a file means.
fn step_with(scopes: &Scopes<'_>, step: FileStep, arguments: &Arguments) -> Result<Statement, Stop>
    ensures { IsClear (scopes_view scopes.now) → (n : ℕ) (name : tree.Ident) → Settles
        (plain_words n (tree.procedure_call name (Some (arguments_in scopes.now.spellings.now arguments.now))))
        (spec.step_with (scopes_view scopes.now).outer.types (file_step_view step)
        (map spec.without_width (spec.actuals_of (scopes_view scopes.now)
        (arguments_in scopes.now.spellings.now arguments.now).items)))
        (statement_view scopes.now.spellings.now) result }
{
    let found = value_of(scopes, &arguments.items.first.value)?;
    let file = stepped(scopes, found)?;
    let file = sole(scopes, arguments, file)?;
    Ok(Statement::Steps(step, file))
}

// The file that a value is.
fn stepped(scopes: &Scopes<'_>, found: Judged<Value>) -> Result<Judged<Boxed<Place>>, Stop>
    ensures { (words : List Word) (part : SpecJudged SpecValue)
        → EndsAs words part (value_view found.value) (end_in found.end)
        → Stands words (taken_as (plainly (file_only (scopes_view scopes.now).outer.types)) part)
        (λ place. typed.read (place_view place)) result }
{
    let is_fit = is_file(scopes, &found.value);
    let found = found.noted(is_fit, WRONG_TYPE);
    found.end.stands()?;
    Ok(Judged {
        value: place_alone(found.value, found.end.line)?,
        end: found.end,
    })
}

// What `uexit` means.
fn halt_with(scopes: &Scopes<'_>, arguments: &Arguments) -> Result<Statement, Stop>
    ensures { IsClear (scopes_view scopes.now) → (n : ℕ) (name : tree.Ident) → Settles
        (plain_words n (tree.procedure_call name (Some (arguments_in scopes.now.spellings.now arguments.now))))
        (spec.halt_with (scopes_view scopes.now).outer.types
        (map spec.without_width (spec.actuals_of (scopes_view scopes.now)
        (arguments_in scopes.now.spellings.now arguments.now).items)))
        (statement_view scopes.now.spellings.now) result }
{
    let found = value_of(scopes, &arguments.items.first.value)?;
    let status = status_of(scopes, found)?;
    let status = sole(scopes, arguments, status)?;
    Ok(Statement::Halts(Boxed::new(scopes.alloc, status)?))
}

// A value that is an integer.
fn status_of(scopes: &Scopes<'_>, found: Judged<Value>) -> Result<Judged<Value>, Stop>
    ensures { (words : List Word) (part : SpecJudged SpecValue)
        → EndsAs words part (value_view found.value) (end_in found.end)
        → Stands words (taken_as (plainly (only integer (scopes_view scopes.now).outer.types)) part) value_view result }
{
    let is_fit = scopes.types.is_of(Base::Integer, found.value.pas_type());
    let found = found.noted(is_fit, WRONG_TYPE);
    found.end.stands()?;
    Ok(found)
}

// The first argument of a procedure, which has no width, and behind which none may stand.
fn sole<T: Drop>(scopes: &Scopes<'_>, arguments: &Arguments, found: Judged<T>) -> Result<T, Stop>
    ensures { (n : ℕ) (name : tree.Ident) (demand : Demand) (view : T → SpecValue)
        → StandsAs (expr_words (n + 1) 0 (expr_in scopes.now.spellings.now arguments.now.items.first.value))
        (taken_as (plainly demand) (value_of (scopes_view scopes.now)
        (expr_in scopes.now.spellings.now arguments.now.items.first.value))) (view found.value) (end_in found.end)
        → Settles
        (plain_words n (tree.procedure_call name (Some (arguments_in scopes.now.spellings.now arguments.now))))
        (sole_part demand (map spec.without_width (spec.actuals_of (scopes_view scopes.now)
        (arguments_in scopes.now.spellings.now arguments.now).items))) view result }
{
    match &arguments.items.first.width {
        Some(width) => Err(fault(WRONG_TYPE, width.line)),
        None => alone(scopes, arguments, found),
    }
}

// The same where the first argument has no width.
fn alone<T: Drop>(scopes: &Scopes<'_>, arguments: &Arguments, found: Judged<T>) -> Result<T, Stop>
    ensures { (n : ℕ) (name : tree.Ident) (demand : Demand) (view : T → SpecValue)
        → StandsAs (argument_words (n + 1) (argument_in scopes.now.spellings.now arguments.now.items.first))
        (taken_by (Some (plainly demand)) (spec.without_width (spec.actual_of (scopes_view scopes.now)
        (argument_in scopes.now.spellings.now arguments.now.items.first)))) (view found.value) (end_in found.end)
        → Settles
        (plain_words n (tree.procedure_call name (Some (arguments_in scopes.now.spellings.now arguments.now))))
        (sole_part demand (map spec.without_width (spec.actuals_of (scopes_view scopes.now)
        (arguments_in scopes.now.spellings.now arguments.now).items))) view result }
{
    match arguments.items.more.get(0) {
        Some(more) => {
            found.before(more.line)?;
            Err(one_too_many(scopes, &more.item.value))
        }
        None => found.before(arguments.closed),
    }
}
