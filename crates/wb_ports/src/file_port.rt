//! A port over a real file.
ghost use Rattle.std.specs.Prelude.{◌≡◌, ◌≤◌, ◌<◌, ◌≢◌, ◌∷◌, ℕ, [], length, take, None, IsOk, IfOk, OnOk};
ghost use Rattle.std.specs.Prelude.{OnErr, is_err};
ghost use Rattle.std.specs.Io.KnownBytes.{Keeps, Appends};
ghost use Rattle.wb_ports.specs.Counts.{CountsFailure};
ghost use Rattle.wb_ports.specs.FilePort.{FilePortState, TakesNext};
ghost use Rattle.wb_ports.specs.PortState.{Gives};
ghost use Rattle.wb_ports.specs.declared.port.Mode.{Mode};
ghost use Rattle.wb_ports.specs.inner.Streams.{mode_of, written_of};

use crate::counting::raise;
use crate::gathering::Gatherer;
use crate::reading::{BLOCK, BlockReader};
use crate::writing::flush;
use crate::{Failed, PORT_LIMIT, PORT_NAME_LIMIT, Port};
use std::alloc::Global;
use std::fs;
use std::io::Write;
use std::marker::Model;
use std::rt::Files;
use wb_base::{OutOfMemory, Text};

// A file that is not in use, or is read, or written.
#[derive(Drop)]
enum Stream<F> {
    Closed,
    Reading(F),
    Writing(F),
}

/// The file of a path, as a run of a Pascal program uses it. What is put is gathered, and handed on when it is much, at
/// `finish`, `rewind` and `begin`, so a failure may show late; it is read by blocks. It tells no content, since no
/// contract knows what a real file holds. To contracts it is a `FilePortState`. This project's own.
#[derive(Drop)]
pub struct FilePort<R: Files + Drop> {
    files: R,
    path: Text,
    stream: Stream<R::File>,
    gatherer: Gatherer,
    reader: BlockReader,
    failures: u64,
}

impl<R: Files + Drop> Model for FilePort<R> {
    ghost use Rattle.std.specs.Prelude.{◌≡◌, ◌≢◌, []};
    ghost use Rattle.wb_ports.specs.FilePort.{FilePortState};
    ghost use Rattle.wb_ports.specs.inner.Streams.{mode_of, written_of, unread_of};
    ghost use Rattle.wb_ports.specs.declared.port.Mode.{Mode};
    ghost use Rattle.wb_ports.specs.declared.reading.TheConstants.{BLOCK};

    ghost Value = { FilePortState };

    ghost view = { λ port. record {
      mode = mode_of port.stream;
      left = port.reader.left;
      written = written_of R.File.contents port.gatherer.kept port.stream;
      unread = unread_of R.File.remaining port.reader.ahead port.stream;
      gathered = port.gatherer.kept;
      ahead = port.reader.ahead;
      failures = port.failures;
    } };

    ghost invariant = { λ port. (port.gatherer.room ≡ BLOCK)
        × (mode_of port.stream ≢ Mode.Writing → port.gatherer.kept ≡ []) };
}

impl<R: Files + Drop> FilePort<R> {
    /// A port over the file of this path, which std's runtime gives. It opens none. It is refused only where no memory
    /// is found; no call of the port takes memory.
    pub fn new(alloc: Global, files: R, path: &[u8]) -> Result<FilePort<R>, OutOfMemory>
        ensures { IfOk result (λ port. port ≡ record {
          mode = Mode.Idle;
          left = 0;
          written = None;
          unread = None;
          gathered = [];
          ahead = [];
          failures = 0;
        }) }
    {
        let mut copy = Text::new(alloc);
        copy.push_all(path)?;
        Ok(FilePort {
            files,
            path: copy,
            stream: Stream::Closed,
            gatherer: Gatherer::new(alloc, BLOCK)?,
            reader: BlockReader::new(alloc)?,
            failures: 0,
        })
    }
}

impl<R: Files + Drop> Port for FilePort<R> {
    ghost failures = { λ port. port.failures };

    ghost mode = { λ port. port.mode };

    ghost left = { λ port. port.left };

    ghost told = { λ _. None };

    /// Does nothing, since a real file has a name of its own. It never fails.
    fn bind(&mut self, _name: &[u8]) -> Result<(), Failed>
        ensures never_failed { IsOk result }
        ensures same { self.new ≡ self.old }
    {
        Ok(())
    }

    /// Hands on what is gathered, and opens the file for reading. It fails where the file does, cannot be opened, or
    /// the path is not in UTF-8, and then stands as it was.
    fn rewind(&mut self) -> Result<(), Failed>
        ensures ok { OnOk result (self.new.gathered ≡ []) }
        ensures afresh { OnOk result (self.new.ahead ≡ []) }
        ensures written { OnErr result (Keeps self.old.written self.new.written) }
        ensures unread { OnErr result (Keeps self.old.unread self.new.unread) }

        ensures reading { OnOk result (self.new.mode ≡ Mode.Reading) }
        ensures same_mode { OnErr result (self.new.mode ≡ self.old.mode) }
        ensures left { OnOk result (self.new.left ≡ PORT_LIMIT) }
        ensures same_left { OnErr result (self.new.left ≡ self.old.left) }
        ensures cause { CountsFailure (is_err result) self.old.failures self.new.failures }
    {
        let handed = hand_on(&mut self.stream, &mut self.gatherer);
        match open_after(handed, &self.files, &self.path) {
            Ok(file) => {
                self.stream = Stream::Reading(file);
                self.reader.clear();
                self.reader.allow_all();
                Ok(())
            }
            Err(Failed) => {
                raise(&mut self.failures);
                Err(Failed)
            }
        }
    }

    /// Takes the next byte; none comes at the end. It fails where the file cannot be read, and where it would give more
    /// than it may; never where a byte that it may give was read ahead.
    fn take(&mut self) -> Result<Option<u8>, Failed>
        requires { self.old.mode ≡ Mode.Reading }

        ensures ok { IfOk result (λ byte. TakesNext byte self.old.unread self.new.unread) }
        ensures failed { OnErr result (Keeps self.old.unread self.new.unread) }
        ensures ready { 0 < length self.old.ahead → 0 < self.old.left → IsOk result }
        ensures rest { self.new ≡ record self.old {
          left = self.new.left;
          unread = self.new.unread;
          ahead = self.new.ahead;
          failures = self.new.failures;
        } }

        ensures mode { self.new.mode ≡ self.old.mode }
        ensures left { IfOk result (λ byte. Gives byte self.old.left self.new.left) }
        ensures same_left { OnErr result (self.new.left ≡ self.old.left) }
        ensures cause { CountsFailure (is_err result) self.old.failures self.new.failures }
    {
        let taken = match &mut self.stream {
            Stream::Reading(file) => self.reader.take(file),
            _ => Err(Failed),
        };
        if taken.is_err() {
            raise(&mut self.failures);
        }
        taken
    }

    /// Hands on what is gathered, and makes the file empty. It fails where the file does, cannot be made, or the path
    /// is not in UTF-8, and then stands as it was.
    fn begin(&mut self) -> Result<(), Failed>
        ensures ok { OnOk result (self.new.gathered ≡ []) }
        ensures written { OnErr result (Keeps self.old.written self.new.written) }
        ensures unread { OnErr result (Keeps self.old.unread self.new.unread) }

        ensures writing { OnOk result (self.new.mode ≡ Mode.Writing) }
        ensures same_mode { OnErr result (self.new.mode ≡ self.old.mode) }
        ensures left { self.new.left ≡ self.old.left }
        ensures cause { CountsFailure (is_err result) self.old.failures self.new.failures }
    {
        let handed = hand_on(&mut self.stream, &mut self.gatherer);
        match create_after(handed, &self.files, &self.path) {
            Ok(file) => {
                self.stream = Stream::Writing(file);
                Ok(())
            }
            Err(Failed) => {
                raise(&mut self.failures);
                Err(Failed)
            }
        }
    }

    /// Gathers the byte, and hands on what is gathered where it is much. It fails where the file does, or takes nothing
    /// of what is handed on; never where there is room for the byte.
    fn put(&mut self, byte: u8) -> Result<(), Failed>
        requires { self.old.mode ≡ Mode.Writing }

        ensures ok { OnOk result (Appends self.old.written self.new.written (byte ∷ [])) }
        ensures failed { OnErr result ((n : ℕ) × Appends self.old.written self.new.written (take n (byte ∷ []))) }
        ensures gathers { length self.old.gathered < BLOCK → IsOk result }
        ensures rest { self.new ≡ record self.old {
          written = self.new.written;
          gathered = self.new.gathered;
          failures = self.new.failures;
        } }

        ensures mode { self.new.mode ≡ self.old.mode }
        ensures left { self.new.left ≡ self.old.left }
        ensures cause { CountsFailure (is_err result) self.old.failures self.new.failures }
    {
        let put = match &mut self.stream {
            Stream::Writing(file) => self.gatherer.write(&[byte], file),
            _ => Err(Failed),
        };
        if put.is_err() {
            raise(&mut self.failures);
        }
        put
    }

    /// Hands on what is gathered. It fails where the file does; never where the file is not written.
    fn finish(&mut self) -> Result<(), Failed>
        ensures handed_on { OnOk result (self.new.gathered ≡ []) }
        ensures written { Keeps self.old.written self.new.written }
        ensures unread { Keeps self.old.unread self.new.unread }
        ensures idle { self.old.mode ≢ Mode.Writing → IsOk result }

        ensures mode { self.new.mode ≡ self.old.mode }
        ensures left { self.new.left ≡ self.old.left }
        ensures cause { CountsFailure (is_err result) self.old.failures self.new.failures }
    {
        let handed = hand_on(&mut self.stream, &mut self.gatherer);
        if handed.is_err() {
            raise(&mut self.failures);
        }
        handed
    }
}

// Hands on what is gathered for the file, where it is written.
fn hand_on<F: Write>(stream: &mut Stream<F>, gatherer: &mut Gatherer) -> Result<(), Failed>
    ensures empty { OnOk result (mode_of stream.old ≡ Mode.Writing → gatherer.new.kept ≡ []) }
    ensures written { Keeps (written_of F.contents gatherer.old.kept stream.old)
        (written_of F.contents gatherer.new.kept stream.new) }
    ensures mode { mode_of stream.new ≡ mode_of stream.old }
    ensures room { gatherer.new.room ≡ gatherer.old.room }
    ensures idle { mode_of stream.old ≢ Mode.Writing → IsOk result }
    ensures same_kept { mode_of stream.old ≢ Mode.Writing → gatherer.new ≡ gatherer.old }
    ensures same_stream { mode_of stream.old ≢ Mode.Writing → stream.new ≡ stream.old }
{
    match stream {
        Stream::Writing(file) => {
            gatherer.hand_on(file)?;
            flush(file)
        }
        _ => Ok(()),
    }
}

// Opens the file for reading, once what was gathered is handed on.
fn open_after<R: Files>(
    handed: Result<(), Failed>,
    files: &R,
    path: &Text,
) -> Result<R::File, Failed>
    ensures { IsOk result → IsOk handed }
{
    handed?;
    let Ok(path) = str::from_utf8(path.bytes()) else {
        return Err(Failed);
    };
    fs::open(files, path).map_err(|_| Failed)
}

// Makes the file empty, once what was gathered is handed on.
fn create_after<R: Files>(
    handed: Result<(), Failed>,
    files: &R,
    path: &Text,
) -> Result<R::File, Failed>
    ensures { IsOk result → IsOk handed }
{
    handed?;
    let Ok(path) = str::from_utf8(path.bytes()) else {
        return Err(Failed);
    };
    fs::create(files, path).map_err(|_| Failed)
}
