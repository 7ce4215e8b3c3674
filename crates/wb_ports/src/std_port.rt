//! A port over two streams, such as the standard ones.
ghost use Rattle.std.specs.Prelude.{◌≡◌, ◌≤◌, ◌<◌, ◌∷◌, ◌||◌, ℕ, false, [], length, take, None, IsOk, IfOk};
ghost use Rattle.std.specs.Prelude.{OnOk, OnErr, is_err, is_some};
ghost use Rattle.std.specs.Io.KnownBytes.{Keeps, Appends, prepend_known};
ghost use Rattle.wb_ports.specs.Counts.{CountsFailure, next_count};
ghost use Rattle.wb_ports.specs.FilePort.{TakesNext};
ghost use Rattle.wb_ports.specs.PortState.{Gives};
ghost use Rattle.wb_ports.specs.StdPort.{StdPortState};
ghost use Rattle.wb_ports.specs.declared.port.Mode.{Mode};

use crate::counting::raise;
use crate::reading::BlockReader;
use crate::writing::{flush, write_whole};
use crate::{Failed, Mode, PORT_LIMIT, Port};
use std::alloc::Global;
use std::io::{Read, Write};
use std::marker::Model;
use wb_base::OutOfMemory;

/// Two streams, as a run of a Pascal program uses them: one is read by blocks, the other written. What is put goes to
/// the written stream at once, which may gather it, as a `SharedWriter` does; it is flushed at `finish` and `begin`,
/// and before the other is read, so that who reads a question can answer it. It tells no content. To contracts it is
/// a `StdPortState`. This project's own.
#[derive(Drop)]
pub struct StdPort<I: Read + Drop, O: Write + Drop> {
    input: I,
    output: O,
    reader: BlockReader,
    is_taken: bool,
    mode: Mode,
    failures: u64,
}

impl<I: Read + Drop, O: Write + Drop> Model for StdPort<I, O> {
    ghost use Rattle.std.specs.Io.KnownBytes.{prepend_known};
    ghost use Rattle.wb_ports.specs.StdPort.{StdPortState};

    ghost Value = { StdPortState };

    ghost view = { λ port. record {
      mode = port.mode;
      left = port.reader.left;
      is_taken = port.is_taken;
      unread = prepend_known port.reader.ahead (I.remaining port.input);
      written = O.contents port.output;
      ahead = port.reader.ahead;
      failures = port.failures;
    } };
}

impl<I: Read + Drop, O: Write + Drop> StdPort<I, O> {
    /// A port that reads the one stream and writes the other. It is refused only where no memory is found; no call of
    /// the port takes memory.
    pub fn new(alloc: Global, input: I, output: O) -> Result<StdPort<I, O>, OutOfMemory>
        ensures { IfOk result (λ port. port ≡ record {
          mode = Mode.Idle;
          left = 0;
          is_taken = false;
          unread = prepend_known [] (I.remaining input);
          written = O.contents output;
          ahead = [];
          failures = 0;
        }) }
    {
        Ok(StdPort {
            input,
            output,
            reader: BlockReader::new(alloc)?,
            is_taken: false,
            mode: Mode::Idle,
            failures: 0,
        })
    }
}

impl<I: Read + Drop, O: Write + Drop> Port for StdPort<I, O> {
    ghost failures = { λ port. port.failures };

    ghost mode = { λ port. port.mode };

    ghost left = { λ port. port.left };

    ghost told = { λ _. None };

    /// Does nothing, since a stream has no name. It never fails.
    fn bind(&mut self, _name: &[u8]) -> Result<(), Failed>
        ensures never_failed { IsOk result }
        ensures same { self.new ≡ self.old }
    {
        Ok(())
    }

    /// Begins reading. It fails exactly where a byte was taken, since a stream is read once, and then changes nothing
    /// but the count.
    fn rewind(&mut self) -> Result<(), Failed>
        ensures fails { is_err result ≡ self.old.is_taken }
        ensures done { OnOk result (self.new ≡ record self.old { mode = Mode.Reading; left = PORT_LIMIT }) }
        ensures refused { OnErr result (self.new ≡ record self.old { failures = next_count self.old.failures }) }

        ensures reading { OnOk result (self.new.mode ≡ Mode.Reading) }
        ensures same_mode { OnErr result (self.new.mode ≡ self.old.mode) }
        ensures left { OnOk result (self.new.left ≤ PORT_LIMIT) }
        ensures same_left { OnErr result (self.new.left ≡ self.old.left) }
        ensures cause { CountsFailure (is_err result) self.old.failures self.new.failures }
    {
        if self.is_taken {
            raise(&mut self.failures);
            return Err(Failed);
        }
        self.mode = Mode::Reading;
        self.reader.allow_all();
        Ok(())
    }

    /// Takes the next byte; none comes at the end. What is put is handed on before more is read. It fails where that
    /// does, where the stream cannot be read, and where it would give more than it may; never where a byte that it may
    /// give was read ahead.
    fn take(&mut self) -> Result<Option<u8>, Failed>
        requires { self.old.mode ≡ Mode.Reading }

        ensures ok { IfOk result (λ byte. TakesNext byte self.old.unread self.new.unread) }
        ensures taken { IfOk result (λ byte. self.new.is_taken ≡ (self.old.is_taken || is_some byte)) }
        ensures failed { OnErr result (Keeps self.old.unread self.new.unread) }
        ensures same_taken { OnErr result (self.new.is_taken ≡ self.old.is_taken) }
        ensures written { Keeps self.old.written self.new.written }
        ensures ready { 0 < length self.old.ahead → 0 < self.old.left → IsOk result }

        ensures mode { self.new.mode ≡ self.old.mode }
        ensures left { IfOk result (λ byte. Gives byte self.old.left self.new.left) }
        ensures same_left { OnErr result (self.new.left ≡ self.old.left) }
        ensures cause { CountsFailure (is_err result) self.old.failures self.new.failures }
    {
        match take_after_output(&mut self.reader, &mut self.input, &mut self.output) {
            Ok(byte) => {
                self.is_taken = self.is_taken || byte.is_some();
                Ok(byte)
            }
            Err(Failed) => {
                raise(&mut self.failures);
                Err(Failed)
            }
        }
    }

    /// Flushes what was put; a stream that was written cannot be emptied. It fails where the stream does, and then
    /// changes nothing but the count.
    fn begin(&mut self) -> Result<(), Failed>
        ensures written { Keeps self.old.written self.new.written }
        ensures rest { self.new ≡ record self.old {
          mode = self.new.mode;
          written = self.new.written;
          failures = self.new.failures;
        } }

        ensures writing { OnOk result (self.new.mode ≡ Mode.Writing) }
        ensures same_mode { OnErr result (self.new.mode ≡ self.old.mode) }
        ensures left { self.new.left ≡ self.old.left }
        ensures cause { CountsFailure (is_err result) self.old.failures self.new.failures }
    {
        match flush(&mut self.output) {
            Ok(()) => {
                self.mode = Mode::Writing;
                Ok(())
            }
            Err(Failed) => {
                raise(&mut self.failures);
                Err(Failed)
            }
        }
    }

    /// Writes the byte to the stream. It fails where the stream does, or takes nothing.
    fn put(&mut self, byte: u8) -> Result<(), Failed>
        requires { self.old.mode ≡ Mode.Writing }

        ensures ok { OnOk result (Appends self.old.written self.new.written (byte ∷ [])) }
        ensures failed { OnErr result ((n : ℕ) × Appends self.old.written self.new.written (take n (byte ∷ []))) }
        ensures rest { self.new ≡ record self.old { written = self.new.written; failures = self.new.failures } }

        ensures mode { self.new.mode ≡ self.old.mode }
        ensures left { self.new.left ≡ self.old.left }
        ensures cause { CountsFailure (is_err result) self.old.failures self.new.failures }
    {
        let put = write_whole(&mut self.output, &[byte]);
        if put.is_err() {
            raise(&mut self.failures);
        }
        put
    }

    /// Flushes what was put. It fails where the stream does.
    fn finish(&mut self) -> Result<(), Failed>
        ensures written { Keeps self.old.written self.new.written }
        ensures rest { self.new ≡ record self.old { written = self.new.written; failures = self.new.failures } }

        ensures mode { self.new.mode ≡ self.old.mode }
        ensures left { self.new.left ≡ self.old.left }
        ensures cause { CountsFailure (is_err result) self.old.failures self.new.failures }
    {
        let flushed = flush(&mut self.output);
        if flushed.is_err() {
            raise(&mut self.failures);
        }
        flushed
    }
}

// Takes the next byte, and flushes the output first where more must be read.
fn take_after_output<I: Read, O: Write>(
    reader: &mut BlockReader,
    input: &mut I,
    output: &mut O,
) -> Result<Option<u8>, Failed>
    ensures ok { IfOk result (λ byte. TakesNext byte (prepend_known reader.old.ahead (I.remaining input.old))
        (prepend_known reader.new.ahead (I.remaining input.new))) }
    ensures failed { OnErr result (Keeps (prepend_known reader.old.ahead (I.remaining input.old))
        (prepend_known reader.new.ahead (I.remaining input.new))) }
    ensures written { Keeps (O.contents output.old) (O.contents output.new) }
    ensures left { IfOk result (λ byte. Gives byte reader.old.left reader.new.left) }
    ensures same_left { OnErr result (reader.new.left ≡ reader.old.left) }
    ensures ready { 0 < length reader.old.ahead → 0 < reader.old.left → IsOk result }
{
    if reader.is_empty() {
        flush(output)?;
    }
    reader.take(input)
}
