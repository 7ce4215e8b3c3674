//! Text that is gathered before it is handed on to a sink.
ghost use Rattle.std.specs.Prelude.{◌≡◌, ◌≤◌, ◌++◌, [], length, OnOk, OnErr, is_err};
ghost use Rattle.wb_ports.specs.Counts.{CountsFailure};
ghost use Rattle.wb_ports.specs.Held.{Gains, GainsPrefix};
ghost use Rattle.web_pool.specs.inner.Gathering.{HandsOn};

use arrayvec::ArrayVec;
use std::marker::Model;
use wb_ports::{Failed, Sink};

// How many bytes are kept back at most.
const ROOM: usize = 8192;

// What is kept back of a text on its way to a sink, so that the sink is not called for every piece. It takes no memory.
// To contracts it is the list of these bytes.
#[derive(Drop)]
pub(crate) struct Gatherer {
    kept: ArrayVec<u8, ROOM>,
}

impl Model for Gatherer {
    ghost use Rattle.std.specs.Prelude.{ℕ, List};

    ghost Value = { List ℕ };

    ghost view = { λ gatherer. gatherer.kept.items };
}

impl Gatherer {
    // Nothing is kept back yet.
    pub(crate) fn new() -> Gatherer
        ensures { result ≡ [] }
    {
        Gatherer {
            kept: ArrayVec::new(),
        }
    }

    // Adds a piece of text, and hands on what was kept back if there is no room for it.
    pub(crate) fn write<K: Sink>(&mut self, piece: &[u8], sink: &mut K) -> Result<(), Failed>
        requires { length piece.now ≤ ROOM }

        ensures ok { OnOk result (HandsOn (self.old ++ piece.now) self.new (K.held sink.old) (K.held sink.new)) }
        ensures failed { OnErr result (GainsPrefix (self.old ++ piece.now) (K.held sink.old) (K.held sink.new)) }
        ensures cause { CountsFailure (is_err result) (K.faults sink.old) (K.faults sink.new) }
        ensures frame { K.frame sink.new ≡ K.frame sink.old }
    {
        if piece.len() > self.kept.remaining_capacity() {
            self.hand_on(sink)?;
        }
        let added = self.kept.try_extend_from_slice(piece);
        prove!(added.is_ok());
        Ok(())
    }

    // Hands on all that is kept back.
    pub(crate) fn hand_on<K: Sink>(&mut self, sink: &mut K) -> Result<(), Failed>
        ensures ok { OnOk result (Gains self.old (K.held sink.old) (K.held sink.new)) }
        ensures empty { OnOk result (self.new ≡ []) }
        ensures failed { OnErr result (GainsPrefix self.old (K.held sink.old) (K.held sink.new)) }
        ensures cause { CountsFailure (is_err result) (K.faults sink.old) (K.faults sink.new) }
        ensures frame { K.frame sink.new ≡ K.frame sink.old }
    {
        if self.kept.is_empty() {
            return Ok(());
        }
        sink.write(&self.kept)?;
        self.kept.clear();
        Ok(())
    }
}
