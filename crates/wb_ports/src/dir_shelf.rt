//! A shelf over the files of the current folder.
ghost use Rattle.std.specs.Prelude.{◌≡◌, ◌⊎◌, ◌<◌, ◌≤◌, true, false, None, take, length, ℕ, OnOk, OnErr, IfOk};
ghost use Rattle.std.specs.Prelude.{IfSome, is_err};
ghost use Rattle.std.specs.Io.KnownBytes.{Appends, IsAtEnd};
ghost use Rattle.wb_ports.specs.Counts.{CountsFailure, is_failed};
ghost use Rattle.wb_ports.specs.DirShelf.{DirState};
ghost use Rattle.wb_ports.specs.inner.Moving.{Moves};

use crate::counting::raise;
use crate::gathering::Gatherer;
use crate::writing::flush;
use crate::{Failed, LOAD_LIMIT, PortErr, Shelf};
use std::alloc::Global;
use std::io::{ErrorKind, Read, Write};
use std::marker::Model;
use std::rt::Files;
use std::{fs, io};
use wb_base::Text;

// How many bytes are read at once, and gathered before they are written.
const CHUNK: usize = 65_536;

// A file that is written, and what is gathered for it.
#[derive(Drop)]
struct OpenFile<F> {
    file: F,
    gatherer: Gatherer,
}

/// The files of the current folder, by names that are paths. What is written is gathered, and handed on when it is
/// much and when the file is closed, so a failure may show late. It tells no content, since no contract knows what a
/// real file holds. To contracts it is a `DirState`. This project's own.
#[derive(Drop)]
pub struct DirShelf<R: Files> {
    alloc: Global,
    files: R,
    open_file: Option<OpenFile<R::File>>,
    faults: u64,
}

impl<R: Files> Model for DirShelf<R> {
    ghost use Rattle.std.specs.Prelude.{is_some, option_and_then};
    ghost use Rattle.std.specs.Io.KnownBytes.{append_known};
    ghost use Rattle.wb_ports.specs.DirShelf.{DirState};

    ghost Value = { DirState };

    ghost view = { λ shelf. record {
      is_open = is_some shelf.open_file;
      written = option_and_then (λ opened. append_known (R.File.contents opened.file) opened.gatherer.kept)
          shelf.open_file;
      faults = shelf.faults;
    } };
}

impl<R: Files> DirShelf<R> {
    /// The shelf over these files, which std's runtime gives. It opens none and is never refused.
    pub fn new(alloc: Global, files: R) -> DirShelf<R>
        ensures { result ≡ record { is_open = false; written = None; faults = 0 } }
    {
        DirShelf {
            alloc,
            files,
            open_file: None,
            faults: 0,
        }
    }
}

impl<R: Files> Shelf for DirShelf<R> {
    ghost use Rattle.std.specs.Prelude.{[]};

    ghost faults = { λ shelf. shelf.faults };

    ghost files = { λ _. None };

    ghost is_open = { λ shelf. shelf.is_open };

    ghost open_name = { λ _. [] };

    ghost last_failure = { λ _. None };

    /// Reads the file, at most its first `LOAD_LIMIT` bytes. It fails where the name is no path in UTF-8, and where the
    /// file cannot be opened or read.
    fn load(&mut self, alloc: Global, name: &[u8]) -> Result<Text, PortErr> {
        let loaded = load_file(alloc, &self.files, name);
        count_failure(&mut self.faults, &loaded);
        loaded
    }

    /// Makes the file empty and opens it. The memory to gather what is written is taken before the file is made. It
    /// fails where the name is no path in UTF-8, and where the file cannot be made; then no file is open.
    fn create(&mut self, name: &[u8]) -> Result<(), PortErr> {
        let created = create_file(self.alloc, &self.files, name);
        count_failure(&mut self.faults, &created);
        self.open_file = Some(created?);
        Ok(())
    }

    /// Appends the piece to the open file. It fails where the file does, or takes nothing of what is handed on.
    fn write(&mut self, piece: &[u8]) -> Result<(), Failed>
        requires { self.old.is_open ≡ true }

        ensures written { OnOk result (Appends self.old.written self.new.written piece.now) }
        ensures prefix { OnErr result ((n : ℕ) × Appends self.old.written self.new.written (take n piece.now)) }
        ensures open { self.new.is_open ≡ true }
        ensures cause { CountsFailure (is_err result) self.old.faults self.new.faults }
    {
        let written = match &mut self.open_file {
            Some(open) => open.gatherer.write(piece, &mut open.file),
            None => Err(Failed),
        };
        if written.is_err() {
            raise(&mut self.faults);
        }
        written
    }

    /// Closes the open file. It fails where what was written cannot be handed on; the file is closed then too.
    fn close(&mut self) -> Result<(), Failed> {
        let flushed = match &mut self.open_file {
            Some(open) => hand_on_all(open),
            None => Err(Failed),
        };
        self.open_file = None;
        if flushed.is_err() {
            raise(&mut self.faults);
        }
        flushed
    }
}

// Raises the count where the call failed.
fn count_failure<T>(faults: &mut u64, answer: &Result<T, PortErr>)
    ensures { CountsFailure (is_failed answer.now) faults.old faults.new }
{
    if let Err(PortErr::Failed) = answer {
        raise(faults);
    }
}

// The bytes of the file of this name, at most the first `LOAD_LIMIT`.
fn load_file<R: Files>(alloc: Global, files: &R, name: &[u8]) -> Result<Text, PortErr>
    ensures { IfOk result (λ text. length text ≤ LOAD_LIMIT) }
{
    let Ok(path) = str::from_utf8(name) else {
        return Err(PortErr::Failed);
    };
    match fs::open(files, path) {
        Ok(mut file) => read_text(alloc, &mut file, LOAD_LIMIT),
        Err(error) => Err(refusal(&error)),
    }
}

// What the reader gives up to its end, at most so many bytes, in as many turns.
fn read_text<F: Read>(alloc: Global, file: &mut F, limit: usize) -> Result<Text, PortErr>
    ensures bytes { IfOk result (λ text. IfSome (F.remaining file.old) (λ bytes. text ≡ take limit bytes)) }
    ensures within { IfOk result (λ text. length text ≤ limit) }
{
    let mut text = Text::new(alloc);
    for _ in 0..limit {
        let more = read_more(file, &mut text, limit)?;
        if !more {
            return Ok(text);
        }
    }
    Ok(text)
}

// Adds what one turn gives, within the limit, and tells whether that was anything.
fn read_more<F: Read>(file: &mut F, text: &mut Text, limit: usize) -> Result<bool, PortErr>
    requires { length text.old ≤ limit }

    ensures within { OnOk result (length text.new ≤ limit) }
    ensures moves { OnOk result (Moves (F.remaining file.old) (F.remaining file.new) text.old text.new) }
    ensures more { IfOk result (λ more. more ≡ true → length text.old < length text.new) }
    ensures ended { IfOk result (λ more.
        more ≡ false → (limit ≤ length text.new) ⊎ IsAtEnd (F.remaining file.new)) }
{
    let mut chunk = [0u8; CHUNK];
    let wanted = CHUNK.min(limit - text.bytes().len());
    match file.read(&mut chunk[..wanted]) {
        Ok(count) => {
            text.push_all(&chunk[..count])?;
            Ok(count > 0)
        }
        Err(error) => Err(refusal(&error)),
    }
}

// What a refusal of std is to a call that changes no file.
fn refusal(error: &io::Error) -> PortErr {
    match error.kind() {
        ErrorKind::OutOfMemory => PortErr::OutOfMemory,
        _ => PortErr::Failed,
    }
}

// Makes the file of this name empty and opens it.
fn create_file<R: Files>(
    alloc: Global,
    files: &R,
    name: &[u8],
) -> Result<OpenFile<R::File>, PortErr> {
    let Ok(path) = str::from_utf8(name) else {
        return Err(PortErr::Failed);
    };
    let gatherer = Gatherer::new(alloc, CHUNK)?;
    match fs::create(files, path) {
        Ok(file) => Ok(OpenFile { file, gatherer }),
        Err(_) => Err(PortErr::Failed),
    }
}

// Hands on what was gathered for the file.
fn hand_on_all<F: Write>(open: &mut OpenFile<F>) -> Result<(), Failed> {
    open.gatherer.hand_on(&mut open.file)?;
    flush(&mut open.file)
}
