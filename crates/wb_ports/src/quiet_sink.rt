//! A sink that never fails, and tells only what it could keep.
ghost use Rattle.std.specs.Prelude.{◌≡◌, [], Some, IsOk, IfOk, option_copied};
ghost use Rattle.wb_ports.specs.Held.{Gains};
ghost use Rattle.wb_ports.specs.QuietSink.{QuietState, told_after};

use crate::{Failed, Sink};
use std::alloc::Global;
use std::marker::Model;
use wb_base::OutOfMemory;

/// A sink on which no call ever fails. It has room for so many bytes, all of it reserved when it is made. A piece that
/// does not fit in what is left of it is dropped whole, and from then on the sink tells nothing. To contracts it is a
/// `QuietState`. This project's own.
#[derive(Drop)]
pub struct QuietSink {
    bytes: Vec<u8>,
    room: usize,
    tells: bool,
}

impl Model for QuietSink {
    ghost use Rattle.std.specs.Prelude.{◌≤◌, Some, None, if◌then◌else◌, vec_len, vec_capacity};
    ghost use Rattle.wb_ports.specs.QuietSink.{QuietState};

    ghost Value = { QuietState };

    ghost view = { λ sink. record { told = if sink.tells then Some sink.bytes.items else None; room = sink.room } };

    ghost invariant = { λ sink. (sink.room ≤ vec_capacity sink.bytes) × (vec_len sink.bytes ≤ sink.room) };
}

impl QuietSink {
    /// An empty sink with room for so many bytes. It is refused only where no memory is found.
    pub fn new(alloc: Global, room: usize) -> Result<QuietSink, OutOfMemory>
        ensures { IfOk result (λ sink. sink ≡ record { told = Some []; room = room }) }
    {
        Ok(QuietSink {
            bytes: Vec::with_capacity(alloc, room)?,
            room,
            tells: true,
        })
    }

    /// The bytes that the sink has got, and none exactly where a piece was dropped.
    pub fn bytes(&self) -> Option<&[u8]>
        ensures { option_copied result ≡ self.now.told }
    {
        if self.tells { Some(&self.bytes) } else { None }
    }
}

impl Sink for QuietSink {
    type Frame = ();

    ghost faults = { λ _. 0 };

    ghost held = { λ sink. sink.told };

    ghost frame = { λ _. tt };

    /// Appends the piece, or drops it where it does not fit. It never fails.
    fn write(&mut self, piece: &[u8]) -> Result<(), Failed>
        ensures never_failed { IsOk result }
        ensures told { self.new ≡ record self.old { told = told_after self.old.room piece.now self.old.told } }

        ensures ok { Gains piece.now self.old.told self.new.told }
    {
        if self.tells && piece.len() <= self.room - self.bytes.len() {
            let appended = self.bytes.extend_from_slice(piece);
            prove!(appended.is_ok());
        } else {
            self.tells = false;
        }
        Ok(())
    }
}
