//! Programs that are checked.
ghost use Rattle.std.specs.Prelude.{IfOk};
ghost use Rattle.wb_base.specs.WorkResult.{IfFault};
ghost use Rattle.pas_syntax.specs.ProgramViews.{program_in};
ghost use Rattle.pas_typed.specs.TypedViews.{program_view};
ghost use Rattle.pas_rules.specs.Check.{Means, IsFaultOf};

use crate::programs::typed;
use pas_rules::Typed;
use pas_syntax::Program;
use std::alloc::Global;
use wb_base::WorkErr;

/// Checks a program by the rules of scopes and types of ISO 7185 in this project's profile.
///
/// # Errors
///
/// The fault of the first token that shows one, at its line, and at one token the one with the lowest number: 53 for a
/// part of Pascal that is left out, 54 for a name that is not declared, 55 for one that is there already, 56 for what
/// has another type than is needed, 57 for a constant out of its range, 58 for a label that is not declared or does
/// not stand, 59 for a goto to a place that it may not reach, 60 for a limit that is passed, 61 for a file against the
/// rules of files, 62 for a function whose result is never assigned.
pub fn check(alloc: Global, program: &Program) -> Result<Typed, WorkErr>
    ensures ok { IfOk result (λ typed. Means (program_in program.now.spellings program.now.tree)
        (program_view typed)) }
    ensures fault { IfFault result (λ fault. IsFaultOf (program_in program.now.spellings program.now.tree) fault) }
{
    let program = typed(alloc, program.spellings(), program.tree())?;
    let checked = Typed::of_checked(program)?;
    Ok(checked)
}
