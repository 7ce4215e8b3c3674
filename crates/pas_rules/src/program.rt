//! Programs that are typed.
ghost use Rattle.std.specs.Prelude.{◌≡◌, ◌<◌, ◌^◌, length};
ghost use Rattle.std.specs.Result.{OkIff};
ghost use Rattle.pas_typed.specs.TypedViews.{program_view};
ghost use Rattle.pas_typed.specs.Lawful.{IsLawful};
ghost use Rattle.pas_rules.specs.Checked.{IsChecked};
ghost use Rattle.pas_rules.specs.FileNames.{HasShortNames};

use pas_typed::typed::TypedProgram;
use std::marker::Model;
use wb_base::OutOfMemory;

/// A typed program of a text that breaks no rule.
#[derive(Drop)]
pub struct Typed {
    program: TypedProgram,
    files: u32,
}

impl Model for Typed {
    ghost use Rattle.pas_typed.specs.declared.typed.TypedProgram.{TypedProgram};
    ghost use Rattle.pas_typed.specs.contracts.typed.TypedProgram as row;

    ghost Value = { TypedProgram };

    ghost coded = { row.the_row.coded };

    ghost use Rattle.std.specs.Prelude.{◌≡◌, length};
    ghost use Rattle.pas_rules.specs.Checked.{IsChecked};

    ghost view = { λ typed. typed.program };

    ghost invariant = { λ typed. IsChecked typed.program × (typed.files ≡ length typed.program.files) };
}

impl Typed {
    /// A typed program that checking gives of some text.
    ///
    /// # Errors
    ///
    /// Want of memory, where it has more files than a number of 32 bits counts.
    pub fn of_checked(program: TypedProgram) -> Result<Typed, OutOfMemory>
        requires { IsChecked program }
        ensures { OkIff result (length program.files < 2 ^ 32) program }
    {
        let files = u32::try_from(program.files.len()).map_err(|_| OutOfMemory)?;
        Ok(Typed { program, files })
    }

    /// The typed program.
    pub fn program(&self) -> &TypedProgram
        ensures program { result.now ≡ self.now }
        ensures checked { IsChecked self.now }
        ensures lawful { IsLawful (program_view self.now) }
        ensures names { HasShortNames (program_view self.now) }
    {
        &self.program
    }

    /// How many files it has, which are its parameters.
    pub fn file_count(&self) -> u32
        ensures { result ≡ length self.now.files }
    {
        self.files
    }
}
