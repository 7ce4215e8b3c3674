//! A sink over a stream of std, such as the standard output.
ghost use Rattle.std.specs.Prelude.{◌≡◌, ℕ, take, None, OnOk, OnErr, is_err};
ghost use Rattle.std.specs.Io.KnownBytes.{Appends};
ghost use Rattle.wb_ports.specs.Counts.{CountsFailure};
ghost use Rattle.wb_ports.specs.StdSink.{StreamState};

use crate::counting::raise;
use crate::writing::{flush, write_whole};
use crate::{Failed, Sink};
use std::io::Write;
use std::marker::Model;

/// A sink that writes to a stream and flushes it after each piece. As a sink it tells no content. To contracts it is
/// a `StreamState`. This project's own.
#[derive(Drop)]
pub struct StdSink<W: Write> {
    stream: W,
    faults: u64,
}

impl<W: Write> Model for StdSink<W> {
    ghost use Rattle.wb_ports.specs.StdSink.{StreamState};

    ghost Value = { StreamState };

    ghost view = { λ sink. record { written = W.contents sink.stream; faults = sink.faults } };
}

impl<W: Write> StdSink<W> {
    /// The sink over this stream. It is never refused.
    pub fn new(stream: W) -> StdSink<W>
        ensures { result ≡ record { written = W.contents stream; faults = 0 } }
    {
        StdSink { stream, faults: 0 }
    }
}

impl<W: Write> Sink for StdSink<W> {
    type Frame = ();

    ghost faults = { λ sink. sink.faults };

    ghost held = { λ _. None };

    ghost frame = { λ _. tt };

    /// Writes the piece to the stream and flushes it. It fails where the stream does, or takes nothing of what is left.
    fn write(&mut self, piece: &[u8]) -> Result<(), Failed>
        ensures written { OnOk result (Appends self.old.written self.new.written piece.now) }
        ensures prefix { OnErr result ((n : ℕ) × Appends self.old.written self.new.written (take n piece.now)) }
        ensures cause { CountsFailure (is_err result) self.old.faults self.new.faults }
    {
        let written = write_and_flush(&mut self.stream, piece);
        if written.is_err() {
            raise(&mut self.faults);
        }
        written
    }
}

// Writes the whole piece and hands it on.
fn write_and_flush<W: Write>(stream: &mut W, piece: &[u8]) -> Result<(), Failed>
    ensures ok { OnOk result (Appends (W.contents stream.old) (W.contents stream.new) piece.now) }
    ensures failed { OnErr result
        ((n : ℕ) × Appends (W.contents stream.old) (W.contents stream.new) (take n piece.now)) }
{
    write_whole(stream, piece)?;
    flush(stream)
}
