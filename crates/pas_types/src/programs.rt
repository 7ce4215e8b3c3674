//! Whole programs (ISO 7185, 6.10, in this project's profile): their declarations, one part behind another, and then
//! their statements. Behind the first fault the declarations alone are gone through, since a parameter of the program,
//! which stands before them, shows a fault by what they declare.
ghost use Rattle.std.specs.Prelude.{◌≡◌, ℕ, List, [], map, None, IfOk, IfErr, OnOk};
ghost use Rattle.std.specs.Option.{option_copied};
ghost use Rattle.pas_syntax.specs.Views.{if_there};
ghost use Rattle.pas_syntax.specs.ProgramViews.{labels_in, program_in};
ghost use Rattle.pas_syntax.specs.Words.{words_if, labels_words};
ghost use Rattle.pas_scopes.specs.declared.stop.Stop.TheVariants as stop;
ghost use Rattle.pas_rules.specs.Declarations.{label_marks};
ghost use Rattle.pas_rules.specs.Check as spec;
ghost use Rattle.pas_scopes.specs.DeclaredSoFar.{IsDeclared, Notes};
ghost use Rattle.pas_types.specs.inner.LabelViews.{numbers_of};
ghost use Rattle.pas_types.specs.inner.Programs.{LabelsIf, GoesOver, ComesTo, not_noted, IsFaultlessBy, Checks};
ghost use Rattle.pas_scopes.specs.ScopeViews.{outer_view};
ghost use Rattle.pas_typed.specs.TypedViews.{statements_view, program_view};

use crate::checking::{file_numbers, main_of, parameters_of, parameters_stand, started};
use crate::labels::Labels;
use crate::routines::routines_of;
use pas_scopes::declarations::{constants_of, types_of};
use pas_scopes::globals::globals_of;
use pas_scopes::noting::note;
use pas_scopes::scopes::{KnownRoutine, Scopes};
use pas_scopes::stop::Stop;
use pas_syntax::tree::{Labels as LabelPart, ProgramTree};
use pas_typed::typed::{Body, Heading, Statements, TypedProgram};
use sqlite_items::Items;
use std::alloc::Global;
use wb_base::{Fault, OutOfMemory, Text};

// The labels of a program, where their part shows no fault; one that it shows is noted.
fn labels_of(
    alloc: Global,
    noted: &mut Option<Fault>,
    part: Option<&LabelPart>,
) -> Result<Labels, OutOfMemory>
    ensures notes { OnOk result ((spellings : List ℕ) → Notes
        (words_if labels_words (if_there (labels_in spellings) (option_copied part.entry)))
        (label_marks (if_there (labels_in spellings) (option_copied part.entry))) noted.old noted.new) }
    ensures labels { IfOk result (λ labels. (spellings : List ℕ)
        → LabelsIf (if_there (labels_in spellings) (option_copied part.entry)) labels noted.new) }
{
    match Labels::declared(alloc, part) {
        Ok(labels) => Ok(labels),
        Err(stop) => {
            note(noted, Err(stop))?;
            Ok(Labels::new(alloc))
        }
    }
}

// Goes through the declarations of a program with these labels, behind a fault too, and tells what the bodies of its
// routines mean.
fn declarations_of(
    scopes: &mut Scopes<'_>,
    noted: &mut Option<Fault>,
    labels: &Labels,
    tree: &ProgramTree,
) -> Result<Items<Body>, Stop>
    ensures goes { IfOk result (λ bodies.
        IsDeclared (spec.start (program_in scopes.old.spellings.now tree.now)) scopes.old noted.old
        → (noted.old ≡ None → numbers_of labels.now ≡ scopes.old.labels) → scopes.old.routines.items ≡ []
        → GoesOver (program_in scopes.old.spellings.now tree.now) scopes.old noted.old scopes.new noted.new bodies) }
    ensures memory { IfErr result (λ why. why ≡ stop.OutOfMemory) }
{
    let declarations = &tree.declarations;
    constants_of(scopes, noted, declarations.constants.as_ref())?;
    types_of(scopes, noted, declarations.types.as_ref())?;
    globals_of(scopes, noted, declarations.variables.as_ref())?;
    routines_of(scopes, noted, labels, declarations.routines.as_slice())
}

// What the statements of a program mean, behind its declarations, where neither those nor its parameters show a fault.
fn behind_declarations(
    scopes: &Scopes<'_>,
    noted: Option<Fault>,
    labels: Labels,
    tree: &ProgramTree,
) -> Result<Statements, Stop>
    ensures { ComesTo (program_in scopes.now.spellings.now tree.now) scopes.now noted labels
        → IsFaultlessBy (program_in scopes.now.spellings.now tree.now) scopes.now noted
        (statements_view scopes.now.spellings.now) result }
{
    parameters_stand(scopes, &tree.head)?;
    no_fault(noted)?;
    main_of(scopes, labels, &tree.body)
}

// Nothing is noted.
fn no_fault(noted: Option<Fault>) -> Result<(), Stop>
    ensures { result ≡ not_noted noted }
{
    match noted {
        Some(fault) => Err(Stop::Fault(fault)),
        None => Ok(()),
    }
}

// A typed program of what was made of it.
fn assembled(
    scopes: Scopes<'_>,
    tree: &ProgramTree,
    bodies: Items<Body>,
    statements: Statements,
) -> Result<TypedProgram, OutOfMemory>
    ensures made { IfOk result (λ program. program ≡ record {
      spellings = scopes.entry.spellings.now;
      types = scopes.entry.types;
      globals = scopes.entry.globals;
      files = program.files;
      headings = program.headings;
      bodies = bodies;
      labels = scopes.entry.labels;
      statements = statements;
    }) }
    ensures headings { IfOk result (λ program. program.headings
        ≡ map (λ known. known.heading) scopes.entry.routines.items) }
    ensures files { IfOk result (λ program. program.files ≡ spec.file_numbers (outer_view scopes.entry).globals
        (spec.parameter_names (program_in scopes.entry.spellings.now tree.now))) }
{
    let alloc = scopes.alloc;
    let parameters = parameters_of(alloc, &tree.head)?;
    let files = file_numbers(&scopes, parameters.as_slice())?;
    let mut spellings = Text::new(alloc);
    spellings.push_all(scopes.spellings)?;
    let headings = headings_of(alloc, scopes.routines)?;
    Ok(TypedProgram {
        spellings,
        types: scopes.types,
        globals: scopes.globals,
        files,
        headings,
        bodies,
        labels: scopes.labels,
        statements,
    })
}

// The headings of routines.
fn headings_of(
    alloc: Global,
    routines: Vec<KnownRoutine<'_>>,
) -> Result<Items<Heading>, OutOfMemory>
    ensures { IfOk result (λ headings. headings ≡ map (λ known. known.heading) routines.entry.items) }
{
    let mut headings = Items::new(alloc);
    for known in routines {
        headings.push(known.heading)?;
    }
    Ok(headings)
}

// What a program means, of which these are the spellings.
pub(crate) fn typed(
    alloc: Global,
    spellings: &[u8],
    tree: &ProgramTree,
) -> Result<TypedProgram, Stop>
    ensures { Checks (program_in spellings.now tree.now) program_view result }
{
    let mut scopes = started(alloc, spellings, tree)?;
    let mut noted = None;
    let labels = labels_of(alloc, &mut noted, tree.declarations.labels.as_ref())?;
    let bodies = declarations_of(&mut scopes, &mut noted, &labels, tree)?;
    let statements = behind_declarations(&scopes, noted, labels, tree)?;
    let program = assembled(scopes, tree, bodies, statements)?;
    Ok(program)
}
