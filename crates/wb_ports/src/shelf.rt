//! A shelf of files.
ghost use Rattle.std.specs.Prelude.{◌≡◌, ◌≤◌, ℕ, List, length, Option, Bool, true, false, IfOk, IfSome, OnOk, OnErr};
ghost use Rattle.std.specs.Prelude.{OnSome, IsErrOf, is_err};
ghost use Rattle.wb_ports.specs.Counts.{CountsFailure, is_failed};
ghost use Rattle.wb_ports.specs.Held.{WhereTold};
ghost use Rattle.wb_ports.specs.Files.{Loads, SameFiles, Empties, EmptiesOrKeeps, AppendsTo, AppendsPrefixTo};
ghost use Rattle.wb_ports.specs.Files.{KeepsLastFailure};

use crate::{Failed, PortErr};
use std::alloc::Global;
use wb_base::{FILE_LIMIT, Text};

/// At most so many bytes are loaded of a file: one more than an input may have. This project's own.
pub const LOAD_LIMIT: usize = FILE_LIMIT + 1;

/// A call of a shelf.
#[derive(Clone, Copy, Debug, PartialEq, Eq)]
pub enum ShelfCall {
    /// `load`
    Load,
    /// `create`
    Create,
    /// `write`
    Write,
    /// `close`
    Close,
}

/// A call of a shelf that failed.
#[derive(Drop)]
pub struct FailedCall {
    /// Which call it was.
    pub call: ShelfCall,
    /// The name of its file.
    pub name: Text,
}

/// Files by their names, of which at most one is open, for writing.
pub trait Shelf {
    ghost use Rattle.wb_ports.specs.declared.shelf.FailedCall.{FailedCall};

    /// How often a call has failed. It never falls.
    ghost faults: { Self → ℕ };

    /// What the file of each name holds, where the shelf tells its files. Whether it tells never changes.
    ghost files: { Self → Option (List ℕ → Option (List ℕ)) };

    /// Whether a file is open.
    ghost is_open: { Self → Bool };

    /// The name of the open file, where one is open and the shelf tells its files.
    ghost open_name: { Self → List ℕ };

    /// The call that failed last, where the shelf tells its files.
    ghost last_failure: { Self → Option FailedCall };

    /// Answers the bytes of a file, but at most its first `LOAD_LIMIT`. A missing file is a failed call. No file
    /// is changed, opened or closed.
    fn load(&mut self, alloc: Global, name: &[u8]) -> Result<Text, PortErr>
        ensures loaded { IfOk result (λ text. IfSome (files self.old) (λ files. Loads files name.now text)) }
        ensures limit { IfOk result (λ text. length text ≤ LOAD_LIMIT) }
        ensures files { WhereTold SameFiles (files self.old) (files self.new) }
        ensures open { is_open self.new ≡ is_open self.old }
        ensures open_name { open_name self.new ≡ open_name self.old }
        ensures cause { CountsFailure (is_failed result) (faults self.old) (faults self.new) }
        ensures last { KeepsLastFailure (files self.old) ShelfCall.Load name.now (is_failed result)
            (last_failure self.old) (last_failure self.new) };

    /// Makes the named file empty and open. After want of memory every file is as it was and none was opened. After
    /// `Failed` the named file is as it was or empty; whether a file is open is not said.
    fn create(&mut self, name: &[u8]) -> Result<(), PortErr>
        requires { is_open self.old ≡ false }

        ensures ok { OnOk result (WhereTold (Empties name.now) (files self.old) (files self.new)) }
        ensures opened { OnOk result (is_open self.new ≡ true) }
        ensures open_name { OnOk result (OnSome (files self.old) (open_name self.new ≡ name.now)) }

        ensures out_of_memory { IsErrOf result PortErr.OutOfMemory →
            WhereTold SameFiles (files self.old) (files self.new) × (is_open self.new ≡ false) }
        ensures failed { OnErr result (WhereTold (EmptiesOrKeeps name.now) (files self.old) (files self.new)) }

        ensures cause { CountsFailure (is_failed result) (faults self.old) (faults self.new) }
        ensures last { KeepsLastFailure (files self.old) ShelfCall.Create name.now (is_failed result)
            (last_failure self.old) (last_failure self.new) };

    /// Appends the piece to the open file, which stays open. After `Failed` a prefix of the piece was appended.
    fn write(&mut self, piece: &[u8]) -> Result<(), Failed>
        requires { is_open self.old ≡ true }

        ensures ok { OnOk result (WhereTold (AppendsTo (open_name self.old) piece.now) (files self.old)
            (files self.new)) }
        ensures failed { OnErr result (WhereTold (AppendsPrefixTo (open_name self.old) piece.now) (files self.old)
            (files self.new)) }
        ensures open { is_open self.new ≡ true }
        ensures open_name { open_name self.new ≡ open_name self.old }

        ensures cause { CountsFailure (is_err result) (faults self.old) (faults self.new) }
        ensures last { KeepsLastFailure (files self.old) ShelfCall.Write (open_name self.old) (is_err result)
            (last_failure self.old) (last_failure self.new) };

    /// Closes the open file. No file is changed. After `Failed` it is not said whether a file is open.
    fn close(&mut self) -> Result<(), Failed>
        requires { is_open self.old ≡ true }

        ensures closed { OnOk result (is_open self.new ≡ false) }
        ensures files { WhereTold SameFiles (files self.old) (files self.new) }

        ensures cause { CountsFailure (is_err result) (faults self.old) (faults self.new) }
        ensures last { KeepsLastFailure (files self.old) ShelfCall.Close (open_name self.old) (is_err result)
            (last_failure self.old) (last_failure self.new) };
}
