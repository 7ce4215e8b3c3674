//! A sink in memory, which fails where it is told to.
ghost use Rattle.std.specs.Prelude.{◌≡◌, [], Some, IfOk, OnOk, OnErr, is_err};
ghost use Rattle.wb_ports.specs.Counts.{CountsFailure};
ghost use Rattle.wb_ports.specs.Held.{Gains, GainsPrefix};
ghost use Rattle.wb_ports.specs.MemSink.{SinkState, fails_to_write, after_write};

use crate::counting::{CallCounter, append_within};
use crate::{Failed, Sink};
use std::alloc::Global;
use std::marker::Model;
use wb_base::OutOfMemory;

/// A sink that keeps what it gets. It has room for so many bytes, all of it reserved when it is made, so that a
/// write takes no memory. To contracts it is a `SinkState`. This project's own.
#[derive(Drop)]
pub struct MemSink {
    bytes: Vec<u8>,
    room: usize,
    calls: CallCounter,
}

impl Model for MemSink {
    ghost use Rattle.std.specs.Prelude.{◌≤◌, vec_len, vec_capacity};
    ghost use Rattle.wb_ports.specs.MemSink.{SinkState};

    ghost Value = { SinkState };

    ghost view = { λ sink. record { bytes = sink.bytes.items; room = sink.room; calls = sink.calls } };

    ghost invariant = { λ sink. (sink.room ≤ vec_capacity sink.bytes) × (vec_len sink.bytes ≤ sink.room) };
}

impl MemSink {
    /// An empty sink with room for so many bytes. `fails` lists the numbers, from 1, of the calls that are to fail.
    /// It is refused only where no memory is found.
    pub fn new(alloc: Global, room: usize, fails: &[u64]) -> Result<MemSink, OutOfMemory>
        ensures { IfOk result (λ sink. sink ≡
            record { bytes = []; room = room; calls = record { fails = fails.now; count = 0; faults = 0 } }) }
    {
        Ok(MemSink {
            bytes: Vec::with_capacity(alloc, room)?,
            room,
            calls: CallCounter::new(alloc, fails)?,
        })
    }

    /// The bytes that the sink has got.
    pub fn bytes(&self) -> &[u8]
        ensures { result.now ≡ self.now.bytes }
    {
        &self.bytes
    }
}

impl Sink for MemSink {
    type Frame = ();

    ghost faults = { λ sink. sink.calls.faults };

    ghost held = { λ sink. Some sink.bytes };

    ghost frame = { λ _. tt };

    /// Appends the piece. It fails exactly where the call is listed, and then appends nothing, or where the piece
    /// passes the room, and then appends what fits.
    fn write(&mut self, piece: &[u8]) -> Result<(), Failed>
        ensures fails { is_err result ≡ fails_to_write self.old piece.now }
        ensures state { self.new ≡ after_write self.old piece.now }

        ensures ok { OnOk result (Gains piece.now (Some self.old.bytes) (Some self.new.bytes)) }
        ensures failed { OnErr result (GainsPrefix piece.now (Some self.old.bytes) (Some self.new.bytes)) }
        ensures cause { CountsFailure (is_err result) self.old.calls.faults self.new.calls.faults }
    {
        let listed = self.calls.count_call();
        if !listed && append_within(&mut self.bytes, self.room, piece) {
            return Ok(());
        }
        self.calls.count_failure();
        Err(Failed)
    }
}
