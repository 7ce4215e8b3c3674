//! Blocks of routines (ISO 7185, 6.2.1 and 6.6, in this project's profile).
ghost use Rattle.std.specs.Prelude.{◌≡◌, ℕ, List, [], Some, None, IfSome};
ghost use Rattle.std.specs.Option.{option_copied};
ghost use Rattle.wb_base.specs.declared.faults.TheConstants.{RESULT_NEVER_ASSIGNED};
ghost use Rattle.pas_tokens.specs.Cutting.{wrong};
ghost use Rattle.pas_syntax.specs.Views.{if_there};
ghost use Rattle.pas_syntax.specs.ProgramViews.{statements_in, labels_in, variable_row_in, rows_in, compound_in};
ghost use Rattle.pas_typed.specs.TypedViews.{statements_view, body_view};
ghost use Rattle.pas_scopes.specs.declared.scopes.Inner.{Inner as CodeInner};
ghost use Rattle.pas_rules.specs.Marks.{unless};
ghost use Rattle.pas_rules.specs.Routines as spec;
ghost use Rattle.pas_scopes.specs.ScopeViews.{scopes_view, outer_view};
ghost use Rattle.pas_scopes.specs.FormAnswers.{Grows};
ghost use Rattle.pas_types.specs.inner.LabelViews.{numbers_of, known_labels};
ghost use Rattle.pas_scopes.specs.Locals.{IsWithin};
ghost use Rattle.pas_types.specs.inner.RoutineAnswers.{sort_view, awaited_at, IsReady};
ghost use Rattle.pas_types.specs.inner.BlockAnswers.{IsBody, IsBlock, without_awaited};

use crate::checking::label_numbers;
use crate::flow::Flow;
use crate::headings::Sort;
use crate::labels::Labels;
use crate::results::list_gives_result;
use crate::statements::statements_of;
use pas_scopes::locals::locals_of;
use pas_scopes::scopes::{Inner, KnownRoutine, Scopes};
use pas_scopes::stop::{Stop, before, demand};
use pas_syntax::tree::{Block, Statements as StatementsTree};
use pas_typed::typed::{Body, Labelled, Statements};
use sqlite_items::Items;
use std::alloc::Global;
use wb_base::faults::{RESULT_NEVER_ASSIGNED, WRONG_LABEL};

// What the block of the routine with this number means, of which the body was still to come.
pub(crate) fn block_of(
    scopes: &mut Scopes<'_>,
    program: &Labels,
    number: u32,
    sort: Sort,
    block: &Block,
) -> Result<Body, Stop>
    ensures means { (inner : CodeInner) → IsReady scopes.old → numbers_of program.now ≡ scopes.old.labels
        → awaited_at scopes.old.routines.items number ≡ Some inner → (line : ℕ)
        → IsBlock (outer_view scopes.old) number (sort_view sort)
        (if_there (labels_in scopes.old.spellings.now) block.now.labels)
        (if_there (rows_in scopes.old.spellings.now (variable_row_in scopes.old.spellings.now)) block.now.variables)
        (compound_in scopes.old.spellings.now block.now.body) line (body_view scopes.old.spellings.now) scopes.new
        result }
    ensures kept { scopes.new ≡ record scopes.old {
      types = scopes.new.types;
      routines = scopes.new.routines;
      inner = scopes.new.inner;
    } }
    ensures grows { Grows scopes.old.types scopes.new.types }
{
    let labels = Labels::declared(scopes.alloc, block.labels.as_ref())?;
    let numbers = label_numbers(scopes.alloc, block.labels.as_ref())?;
    enter(scopes, number, numbers);
    locals_of(scopes, block.variables.as_ref())?;
    let body = &block.body;
    let statements = body_of(scopes, program, labels, sort, &body.list, body.end)?;
    Ok(leave(scopes, number, statements))
}

// Goes into the scope that the heading of the routine with this number has made, with these labels.
fn enter(scopes: &mut Scopes<'_>, number: u32, labels: Items<u32>)
    ensures inner { (inner : CodeInner) → awaited_at scopes.old.routines.items number ≡ Some inner
        → scopes.new.inner ≡ Some (record inner { labels = labels }) }
    ensures routines { scopes.new.routines.items ≡ without_awaited number scopes.old.routines.items }
    ensures kept { scopes.new ≡ record scopes.old { routines = scopes.new.routines; inner = scopes.new.inner } }
{
    let awaited = take_awaited(&mut scopes.routines, number);
    let mut inner = scope_of(scopes.alloc, number, awaited);
    inner.labels = labels;
    scopes.inner = Some(inner);
}

// The scope that waits for the body of the routine with this number. It waits no longer.
fn take_awaited<'p>(routines: &mut Vec<KnownRoutine<'p>>, number: u32) -> Option<Inner<'p>>
    ensures awaited { result ≡ awaited_at routines.old.items number }
    ensures rest { routines.new.items ≡ without_awaited number routines.old.items }
{
    let index = number as usize;
    if index < routines.len() {
        routines[index].awaited.take()
    } else {
        None
    }
}

// The scope that is there, or one without names.
fn scope_of<'p>(alloc: Global, number: u32, found: Option<Inner<'p>>) -> Inner<'p>
    ensures { (inner : CodeInner) → found.entry ≡ Some inner → result ≡ inner }
{
    match found {
        Some(inner) => inner,
        None => Inner::new(alloc, number),
    }
}

// Leaves the scope of the routine with this number, of which these are the statements.
fn leave(scopes: &mut Scopes<'_>, number: u32, statements: Statements) -> Body
    ensures body { (inner : CodeInner) → scopes.old.inner ≡ Some inner → result ≡ record {
      routine = inner.number;
      variables = inner.variables;
      labels = inner.labels;
      statements = statements;
    } }
    ensures kept { scopes.new ≡ record scopes.old { inner = None } }
{
    let found = scopes.inner.take();
    let inner = scope_of(scopes.alloc, number, found);
    Body {
        routine: inner.number,
        variables: inner.variables,
        labels: inner.labels,
        statements,
    }
}

// What the statements of a routine of this sort with these labels mean, of which the `end` stands in this line.
fn body_of(
    scopes: &Scopes<'_>,
    program: &Labels,
    labels: Labels,
    sort: Sort,
    list: &StatementsTree,
    end: u32,
) -> Result<Statements, Stop>
    ensures { (inner : CodeInner) → IsWithin inner scopes.now → labels ≡ known_labels inner.labels [] []
        → numbers_of program.now ≡ scopes.now.labels → (begin line : ℕ)
        → IsBody (scopes_view scopes.now) (sort_view sort) inner.labels
        (record { begin = begin; list = statements_in scopes.now.spellings.now list.now; end = end }) line
        (statements_view scopes.now.spellings.now) result }
{
    let mut flow = Flow {
        block: labels,
        program: Some(program),
    };
    let statements = before(end, statements_of(scopes, &mut flow, list))?;
    demand(flow.block.all_stand(), WRONG_LABEL, end)?;
    demand(
        is_given(sort, statements.as_slice()),
        RESULT_NEVER_ASSIGNED,
        end,
    )?;
    Ok(statements)
}

// Whether statements give a function its result, where they must.
fn is_given(sort: Sort, list: &[Labelled]) -> bool
    ensures { (spellings : List ℕ) → spec.result_missing (sort_view sort) (Some (statements_view spellings list.now))
        ≡ unless result (wrong RESULT_NEVER_ASSIGNED) }
{
    match sort {
        Sort::Procedure => true,
        Sort::Function => list_gives_result(list),
    }
}
