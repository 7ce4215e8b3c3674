//! How the objects of the outside count their failed calls, and those in memory know which calls are to fail.
ghost use Rattle.std.specs.Prelude.{◌≡◌, ◌+◌, ◌-◌, ◌≤◌, ◌++◌, take, length, vec_len, vec_capacity, nat_le, IfOk};
ghost use Rattle.std.specs.Prelude.{is_err};
ghost use Rattle.wb_ports.specs.Counts.{CountsFailure, Rose, next_count};
ghost use Rattle.wb_ports.specs.InMemory.{is_next_listed, with_call, with_failure, after_call};

use crate::Failed;
use std::alloc::Global;
use std::marker::Model;
use wb_base::OutOfMemory;

// Raises a count, which stands still at its last value.
pub(crate) fn raise(count: &mut u64)
    ensures next { count.new ≡ next_count count.old }
    ensures rose { Rose count.old count.new }
{
    *count = count.saturating_add(1);
}

// The calls of an object in memory: the numbers, from 1, of those that are to fail, how many there were, and how many
// of them failed.
#[derive(Drop)]
pub(crate) struct CallCounter {
    fails: Vec<u64>,
    count: u64,
    faults: u64,
}

impl Model for CallCounter {
    ghost use Rattle.wb_ports.specs.InMemory.{Calls};

    ghost Value = { Calls };

    ghost view = { λ counter. record { fails = counter.fails.items; count = counter.count; faults = counter.faults } };
}

impl CallCounter {
    // No calls yet.
    pub(crate) fn new(alloc: Global, fails: &[u64]) -> Result<CallCounter, OutOfMemory>
        ensures { IfOk result (λ calls. calls ≡ record { fails = fails.now; count = 0; faults = 0 }) }
    {
        Ok(CallCounter {
            fails: Vec::from_slice(alloc, fails)?,
            count: 0,
            faults: 0,
        })
    }

    // Counts a call, and tells whether it is one of those that are to fail.
    pub(crate) fn count_call(&mut self) -> bool
        ensures counted { self.new ≡ with_call self.old }
        ensures listed { result ≡ is_next_listed self.old }
    {
        raise(&mut self.count);
        self.fails.contains(&self.count)
    }

    // Counts a call, which fails where it is one of those that are to fail.
    pub(crate) fn pass(&mut self) -> Result<(), Failed>
        ensures fails { is_err result ≡ is_next_listed self.old }
        ensures counted { self.new ≡ after_call (is_err result) self.old }
        ensures cause { CountsFailure (is_err result) self.old.faults self.new.faults }
    {
        if self.count_call() {
            self.count_failure();
            return Err(Failed);
        }
        Ok(())
    }

    // Counts that the call failed.
    pub(crate) fn count_failure(&mut self)
        ensures counted { self.new ≡ with_failure self.old }
        ensures rose { Rose self.old.faults self.new.faults }
    {
        raise(&mut self.faults);
    }
}

// Appends what fits in the room, which is reserved, and tells whether that was all.
pub(crate) fn append_within(bytes: &mut Vec<u8>, room: usize, piece: &[u8]) -> bool
    requires reserved { room ≤ vec_capacity bytes.old }
    requires within { vec_len bytes.old ≤ room }

    ensures bytes { bytes.new.items ≡ bytes.old.items ++ take (room - vec_len bytes.old) piece.now }
    ensures all { result ≡ nat_le (vec_len bytes.old + length piece.now) room }
    ensures still_reserved { room ≤ vec_capacity bytes.new }
    ensures still_within { vec_len bytes.new ≤ room }
{
    let left = room - bytes.len();
    let fits = piece.len() <= left;
    let fitting = if fits { piece } else { &piece[..left] };
    let appended = bytes.extend_from_slice(fitting);
    prove!(appended.is_ok());
    fits
}
