//! A writer that several hold.
use crate::Failed;
use crate::gathering::Gatherer;
use crate::reading::BLOCK;
use crate::writing::flush;
use std::alloc::Global;
use std::cell::RefCell;
use std::io;
use std::io::{ErrorKind, Write};
use std::rc::Rc;
use wb_base::OutOfMemory;

// A writer, and what is gathered for it.
#[derive(Drop)]
struct Gathering<W> {
    gatherer: Gatherer,
    writer: W,
}

/// A writer that several ports hold, so that what one puts is handed on before another reads. It gathers what is
/// written, and hands it on when it is much, and when it is flushed. It tells no content. This project's own.
#[derive(Drop)]
pub struct SharedWriter<W: Write + Drop> {
    shared: Rc<RefCell<Gathering<W>>>,
}

impl<W: Write + Drop> SharedWriter<W> {
    /// The first holder. It is refused only where no memory is found; no write takes memory.
    pub fn new(alloc: Global, writer: W) -> Result<SharedWriter<W>, OutOfMemory> {
        let gathering = Gathering {
            gatherer: Gatherer::new(alloc, BLOCK)?,
            writer,
        };
        Ok(SharedWriter {
            shared: Rc::new(alloc, RefCell::new(gathering))?,
        })
    }

    /// One more holder. It is refused only where there can be no more.
    pub fn share(&self) -> Result<SharedWriter<W>, OutOfMemory> {
        Ok(SharedWriter {
            shared: self.shared.clone()?,
        })
    }
}

impl<W: Write + Drop> Write for SharedWriter<W> {
    /// Gathers the whole piece.
    fn write(&mut self, piece: &[u8]) -> io::Result<usize> {
        let Ok(mut gathering) = self.shared.try_borrow_mut() else {
            return Err(refused());
        };
        match gather(&mut gathering, piece) {
            Ok(()) => Ok(piece.len()),
            Err(Failed) => Err(refused()),
        }
    }

    /// Hands on all that is gathered, and flushes the writer.
    fn flush(&mut self) -> io::Result<()> {
        let Ok(mut gathering) = self.shared.try_borrow_mut() else {
            return Err(refused());
        };
        hand_on(&mut gathering).map_err(|_| refused())
    }
}

// Adds a piece to what is gathered.
fn gather<W: Write>(gathering: &mut Gathering<W>, piece: &[u8]) -> Result<(), Failed> {
    gathering.gatherer.write(piece, &mut gathering.writer)
}

// Hands on all that is gathered.
fn hand_on<W: Write>(gathering: &mut Gathering<W>) -> Result<(), Failed> {
    gathering.gatherer.hand_on(&mut gathering.writer)?;
    flush(&mut gathering.writer)
}

// How a failed call shows to a caller of std's trait.
fn refused() -> io::Error {
    io::Error::from(ErrorKind::Other)
}
