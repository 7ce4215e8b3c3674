//! A sink over the open file of a shelf.
ghost use Rattle.std.specs.Prelude.{◌≡◌, ℕ, true, Option, OnOk, OnErr, is_err};
ghost use Rattle.wb_ports.specs.Counts.{CountsFailure};
ghost use Rattle.wb_ports.specs.Held.{Gains, GainsPrefix};
ghost use Rattle.tangle_core.specs.inner.Filling.{held_by, KeepsInMind, IsReady, StandsEmpty, seen_now};
ghost use Rattle.tangle_core.specs.inner.FillingProps.{KeepsInMind-prop};
ghost use Rattle.wb_ports.specs.declared.shelf.TheConstants.{LOAD_LIMIT};

use crate::TextCopy;
use std::marker::{Brand, PhantomData};
use wb_ports::{Failed, LOAD_LIMIT, Shelf, Sink};

// The shelf and the copy as they were when a sink over them was made.
pub(crate) trait Begun {
    ghost use Rattle.tangle_core.specs.inner.Filling.{Seen};

    ghost seen: { Seen };
}

impl Begun for Brand {
    ghost use Rattle.std.specs.Prelude.{None, [], false};

    ghost seen = { record {
      shelf = record { files = None; open_name = []; faults = 0; last_failure = None };
      copy = record { kept = []; wanted = false; refused = false };
    } };
}

// A sink over the open file of a shelf, and over a copy, if it is wanted. It counts the writes that failed.
#[derive(Drop)]
pub(crate) struct FileSink<'s, S: Shelf, B: Begun> {
    shelf: &'s mut S,
    copy: &'s mut TextCopy,
    failures: u64,
    begun: PhantomData<B>,
    ghost open: { S.is_open shelf.now ≡ true },
    ghost keeps: { KeepsInMind LOAD_LIMIT B.seen
        (record {
          files = S.files shelf.now;
          open_name = S.open_name shelf.now;
          faults = S.faults shelf.now;
          last_failure = S.last_failure shelf.now;
        })
        copy.now failures } by { KeepsInMind-prop _ _ _ _ _ },
}

impl<'s, S: Shelf, B: Begun> FileSink<'s, S, B> {
    // A sink over the open file, which is empty, and over a copy, which is empty if it is wanted.
    pub(crate) fn new(shelf: &'s mut S, copy: &'s mut TextCopy) -> FileSink<'s, S, B>
        requires open { S.is_open shelf.old ≡ true }
        requires copy { IsReady copy.old }
        requires empty { StandsEmpty (S.files shelf.old) (S.open_name shelf.old) }
        requires seen { B.seen ≡ seen_now (S.files shelf.old) (S.open_name shelf.old) (S.faults shelf.old)
            (S.last_failure shelf.old) copy.old }
        ensures shelf { result.shelf.now ≡ shelf.old }
        ensures copy { result.copy.now ≡ copy.old }
        ensures none_failed { result.failures ≡ 0 }
        ensures same_shelf { result.shelf.ghost_name ≡ shelf.entry.ghost_name }
        ensures same_copy { result.copy.ghost_name ≡ copy.entry.ghost_name }
    {
        FileSink {
            shelf,
            copy,
            failures: 0,
            begun: PhantomData,
        }
    }
}

impl<'s, S: Shelf, B: Begun> Sink for FileSink<'s, S, B> {
    type Frame = (&'static mut (), &'static mut ());

    ghost faults = { λ sink. sink.failures };

    ghost held = { λ sink. held_by (S.files sink.shelf.now) (S.open_name sink.shelf.now) };

    ghost frame = { λ sink. (
      record { ref_ptr = sink.shelf.ref_ptr; ghost_name = sink.shelf.ghost_name; now = tt },
      record { ref_ptr = sink.copy.ref_ptr; ghost_name = sink.copy.ghost_name; now = tt },
    ) };

    fn write(&mut self, piece: &[u8]) -> Result<(), Failed> {
        match self.shelf.write(piece) {
            Ok(()) => {
                self.copy.add(piece, LOAD_LIMIT);
                Ok(())
            }
            Err(Failed) => {
                self.failures = self.failures.saturating_add(1);
                Err(Failed)
            }
        }
    }
}
