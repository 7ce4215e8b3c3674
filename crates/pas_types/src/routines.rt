//! Routines (ISO 7185, 6.6, in this project's profile): headings, `forward`, and blocks.
ghost use Rattle.std.specs.Prelude.{◌≡◌, [], ◌∷◌, ◌++◌, ℕ, List, map, flat_map, None, IfOk, IfErr, IfSome, IsSome};
ghost use Rattle.std.specs.Prelude.{is_some, OnOk, option_to_list};
ghost use Rattle.pas_tokens.specs.declared.kinds.Kind.TheVariants as k;
ghost use Rattle.pas_syntax.specs.Views.{spelled_in};
ghost use Rattle.pas_syntax.specs.ProgramViews.{heading_in, body_in, routine_in};
ghost use Rattle.pas_syntax.specs.Words.{Word, at, body_words, routine_words};
ghost use Rattle.pas_typed.specs.TypedViews.{body_view};
ghost use Rattle.pas_rules.specs.Routines as spec;
ghost use Rattle.pas_rules.specs.Routines.{HeadingStage};
ghost use Rattle.pas_rules.specs.Scopes as name;
ghost use Rattle.pas_rules.specs.Scopes.{with_new};
ghost use Rattle.pas_scopes.specs.ScopeViews.{outer_view};
ghost use Rattle.pas_scopes.specs.declared.stop.Stop.TheVariants as stop;
ghost use Rattle.pas_scopes.specs.FormAnswers.{Grows};
ghost use Rattle.pas_types.specs.inner.LabelViews.{numbers_of};
ghost use Rattle.pas_types.specs.inner.RoutineAnswers.{sort_view, parts_in, awaited_at, IsReady};
ghost use Rattle.pas_rules.specs.HeadingWords.{parts_words};
ghost use Rattle.pas_types.specs.inner.RoutineAnswers.{Heads, HeadsBy, GoesThrough};
ghost use Rattle.pas_types.specs.inner.BlockAnswers.{IsRoutine};
ghost use Rattle.pas_types.specs.inner.RoutineStands.{IsNamed, Steps};

use crate::blocks::block_of;
use crate::headings::{HeadingParts, Sort, awaited, first_heading, head_of, second_heading};
use crate::labels::Labels;
use pas_scopes::names::Entity;
use pas_scopes::scopes::Scopes;
use pas_scopes::stop::{Stop, demand};
use pas_syntax::tree::{Body as BodyTree, Routine};
use pas_typed::typed::Body;
use sqlite_items::Items;
use std::alloc::AllocError;
use wb_base::Fault;
use wb_base::faults::WRONG_TYPE;

// What the bodies of routines mean, in a program with these labels. Behind the first fault their names alone are
// declared.
pub(crate) fn routines_of(
    scopes: &mut Scopes<'_>,
    noted: &mut Option<Fault>,
    labels: &Labels,
    routines: &[Routine],
) -> Result<Items<Body>, Stop>
    ensures declares { IfOk result (λ bodies. scopes.old.routines.items ≡ []
        → (noted.old ≡ None → numbers_of labels.now ≡ scopes.old.labels) → GoesThrough
        (flat_map routine_words (map (routine_in scopes.old.spellings.now) routines.now))
        (λ outer. spec.routines_of outer (map (routine_in scopes.old.spellings.now) routines.now))
        scopes.old noted.old scopes.new noted.new bodies) }
    ensures memory { IfErr result (λ why. why ≡ stop.OutOfMemory) }
    ensures kept { scopes.new ≡ record scopes.old {
      types = scopes.new.types;
      names = scopes.new.names;
      routines = scopes.new.routines;
      inner = scopes.new.inner;
    } }
{
    let mut bodies = Items::new(scopes.alloc);
    for routine in routines {
        let found = next_routine(scopes, noted, labels, routine)?;
        add_body(&mut bodies, found)?;
    }
    Ok(bodies)
}

// Puts a body behind others, if there is one.
fn add_body(bodies: &mut Items<Body>, found: Option<Body>) -> Result<(), AllocError>
    ensures { OnOk result (bodies.new ≡ bodies.old ++ option_to_list found) }
{
    match found {
        Some(body) => bodies.push(body),
        None => Ok(()),
    }
}

// What the body of a routine means, if it has one. Behind the first fault the name of the routine alone is declared.
fn next_routine(
    scopes: &mut Scopes<'_>,
    noted: &mut Option<Fault>,
    labels: &Labels,
    routine: &Routine,
) -> Result<Option<Body>, Stop>
    ensures steps { IfOk result (λ found. (noted.old ≡ None → numbers_of labels.now ≡ scopes.old.labels) → Steps
        (routine_words (routine_in scopes.old.spellings.now routine.now))
        (λ outer. spec.routine_of outer (routine_in scopes.old.spellings.now routine.now)) scopes.old noted.old
        scopes.new noted.new (option_to_list found)) }
    ensures first { noted.new ≡ None → noted.old ≡ None }
    ensures memory { IfErr result (λ why. why ≡ stop.OutOfMemory) }
    ensures kept { scopes.new ≡ record scopes.old {
      types = scopes.new.types;
      names = scopes.new.names;
      routines = scopes.new.routines;
      inner = scopes.new.inner;
    } }
{
    match *noted {
        Some(_) => {
            unclear_name(scopes, routine)?;
            Ok(None)
        }
        None => whole_routine(scopes, noted, labels, routine),
    }
}

// The same where no fault is noted yet.
fn whole_routine(
    scopes: &mut Scopes<'_>,
    noted: &mut Option<Fault>,
    labels: &Labels,
    routine: &Routine,
) -> Result<Option<Body>, Stop>
    ensures steps { IfOk result (λ found. noted.old ≡ None → numbers_of labels.now ≡ scopes.old.labels → Steps
        (routine_words (routine_in scopes.old.spellings.now routine.now))
        (λ outer. spec.routine_of outer (routine_in scopes.old.spellings.now routine.now)) scopes.old noted.old
        scopes.new noted.new (option_to_list found)) }
    ensures memory { IfErr result (λ why. why ≡ stop.OutOfMemory) }
    ensures kept { scopes.new ≡ record scopes.old {
      types = scopes.new.types;
      names = scopes.new.names;
      routines = scopes.new.routines;
      inner = scopes.new.inner;
    } }
{
    let count = scopes.types.len();
    match routine_of(scopes, labels, routine) {
        Ok(found) => Ok(found),
        Err(Stop::Fault(fault)) => {
            *noted = Some(fault);
            scopes.types.shorten(count);
            unclear_name(scopes, routine)?;
            Ok(None)
        }
        Err(_) => Err(Stop::OutOfMemory),
    }
}

// Declares the name of a routine as unclear, if it is not there yet.
fn unclear_name(scopes: &mut Scopes<'_>, routine: &Routine) -> Result<(), AllocError>
    ensures names { OnOk result (scopes.new.names ≡ with_new scopes.old.names
        (spec.head_of (heading_in scopes.old.spellings.now routine.now.heading)).name.name name.unclear) }
    ensures kept { scopes.new ≡ record scopes.old { names = scopes.new.names } }
{
    let name = scopes.spelling(head_of(routine).name.span);
    scopes.names.declare(name, Entity::Unclear)
}

// What the body of a routine means, if it has one, in a program with these labels.
fn routine_of(
    scopes: &mut Scopes<'_>,
    program: &Labels,
    routine: &Routine,
) -> Result<Option<Body>, Stop>
    ensures goes { IsReady scopes.old → numbers_of program.now ≡ scopes.old.labels
        → IsRoutine (routine_words (routine_in scopes.old.spellings.now routine.now))
        (spec.routine_of (outer_view scopes.old) (routine_in scopes.old.spellings.now routine.now))
        (body_view scopes.old.spellings.now) scopes.new result }
    ensures kept { scopes.new ≡ record scopes.old {
      types = scopes.new.types;
      names = scopes.new.names;
      routines = scopes.new.routines;
      inner = scopes.new.inner;
    } }
    ensures names { IsNamed scopes.old.names
        (spec.head_of (heading_in scopes.old.spellings.now routine.now.heading)).name.name scopes.new.names }
    ensures grows { Grows scopes.old.types scopes.new.types }
{
    let head = head_of(routine);
    let found = awaited(scopes, head);
    let number = headed(scopes, head, found)?;
    body_behind(scopes, program, number, head.sort, found, &routine.body)
}

// The number of the routine with this heading, of which the body is still to come: this one, or one of its own.
fn headed(scopes: &mut Scopes<'_>, head: HeadingParts<'_>, found: Option<u32>) -> Result<u32, Stop>
    ensures heads { (word : Word) → IsReady scopes.old
        → IfSome found (λ number. IsSome (awaited_at scopes.old.routines.items number)) → HeadsBy
        (parts_words word (parts_in scopes.old.spellings.now head.entry) head.entry.end)
        (spec.headed_by (outer_view scopes.old) (parts_in scopes.old.spellings.now head.entry) found) scopes.new
        result }
    ensures names { IsNamed scopes.old.names (spelled_in scopes.old.spellings.now head.entry.name.span)
        scopes.new.names }
    ensures kept { scopes.new ≡ record scopes.old {
      names = scopes.new.names;
      routines = scopes.new.routines;
      inner = scopes.new.inner;
    } }
{
    match found {
        Some(number) => {
            second_heading(scopes, head)?;
            Ok(number)
        }
        None => first_heading(scopes, head),
    }
}

// What the body behind the heading of the routine with this number means, if it is not `forward`. That stands behind
// none that was found before.
fn body_behind(
    scopes: &mut Scopes<'_>,
    program: &Labels,
    number: u32,
    sort: Sort,
    found: Option<u32>,
    body: &BodyTree,
) -> Result<Option<Body>, Stop>
    ensures goes { (words : List Word) (stage : HeadingStage) → Heads words stage scopes.old number
        → is_some found ≡ stage.is_second → numbers_of program.now ≡ scopes.old.labels → (end : ℕ)
        → IsRoutine (words ++ (body_words (body_in scopes.old.spellings.now body.now) ++ at 0 k.Semicolon end ∷ []))
        (spec.routine_by stage (sort_view sort) (body_in scopes.old.spellings.now body.now))
        (body_view scopes.old.spellings.now) scopes.new result }
    ensures kept { scopes.new ≡ record scopes.old {
      types = scopes.new.types;
      routines = scopes.new.routines;
      inner = scopes.new.inner;
    } }
    ensures grows { Grows scopes.old.types scopes.new.types }
{
    match body {
        BodyTree::Forward(line) => {
            demand(found.is_none(), WRONG_TYPE, *line)?;
            Ok(None)
        }
        BodyTree::Block(block) => Ok(Some(block_of(scopes, program, number, sort, block)?)),
    }
}
