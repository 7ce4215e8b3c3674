//! Bytes that are gathered before they are handed on to a writer of std.
ghost use Rattle.std.specs.Prelude.{◌≡◌, ◌≤◌, ◌+◌, ◌++◌, ℕ, [], length, take, drop, vec_len, vec_capacity};
ghost use Rattle.std.specs.Prelude.{IsOk, IfOk, OnOk, OnErr};
ghost use Rattle.std.specs.Io.KnownBytes.{Keeps, Appends, append_known};
ghost use Rattle.wb_ports.specs.inner.Gathered.{Gathered};

use crate::Failed;
use crate::writing::{write_some, write_whole};
use std::alloc::Global;
use std::io::Write;
use std::marker::Model;
use wb_base::OutOfMemory;

// What is kept back on its way to a writer, so that the writer is not called for every piece. The room for it is
// reserved when it is made, and no other call takes memory. To contracts it is a `Gathered`.
#[derive(Drop)]
pub(crate) struct Gatherer {
    kept: Vec<u8>,
    room: usize,
}

impl Model for Gatherer {
    ghost use Rattle.std.specs.Prelude.{◌≤◌, vec_len, vec_capacity};
    ghost use Rattle.wb_ports.specs.inner.Gathered.{Gathered};

    ghost Value = { Gathered };

    ghost view = { λ gatherer. record { kept = gatherer.kept.items; room = gatherer.room } };

    ghost invariant = { λ gatherer. (gatherer.room ≤ vec_capacity gatherer.kept)
        × (vec_len gatherer.kept ≤ gatherer.room) };
}

impl Gatherer {
    // Nothing is kept back yet; there is room for so many bytes.
    pub(crate) fn new(alloc: Global, room: usize) -> Result<Gatherer, OutOfMemory>
        ensures { IfOk result (λ gatherer. gatherer ≡ record { kept = []; room = room }) }
    {
        Ok(Gatherer {
            kept: Vec::with_capacity(alloc, room)?,
            room,
        })
    }

    // Adds a piece. What is kept back is handed on where there is no room for it, and with it a piece that is longer
    // than the room. It fails only where there was no room.
    pub(crate) fn write<W: Write>(&mut self, piece: &[u8], writer: &mut W) -> Result<(), Failed>
        ensures ok { OnOk result (Appends (append_known (W.contents writer.old) self.old.kept)
            (append_known (W.contents writer.new) self.new.kept) piece.now) }
        ensures failed { OnErr result ((n : ℕ) × Appends (append_known (W.contents writer.old) self.old.kept)
            (append_known (W.contents writer.new) self.new.kept) (take n piece.now)) }
        ensures gathers { length self.old.kept + length piece.now ≤ self.old.room → IsOk result }
        ensures room { self.new.room ≡ self.old.room }
    {
        if piece.len() <= self.room - self.kept.len() {
            self.keep(piece);
            return Ok(());
        }
        self.write_past(piece, writer)
    }

    // Keeps a piece back for which there is room.
    fn keep(&mut self, piece: &[u8])
        requires { length self.old.kept + length piece.now ≤ self.old.room }

        ensures { self.new ≡ record self.old { kept = self.old.kept ++ piece.now } }
    {
        let added = self.kept.extend_from_slice(piece);
        prove!(added.is_ok());
    }

    // Adds a piece for which there was no room.
    fn write_past<W: Write>(&mut self, piece: &[u8], writer: &mut W) -> Result<(), Failed>
        ensures ok { OnOk result (Appends (append_known (W.contents writer.old) self.old.kept)
            (append_known (W.contents writer.new) self.new.kept) piece.now) }
        ensures failed { OnErr result ((n : ℕ) × Appends (append_known (W.contents writer.old) self.old.kept)
            (append_known (W.contents writer.new) self.new.kept) (take n piece.now)) }
        ensures room { self.new.room ≡ self.old.room }
    {
        self.hand_on(writer)?;
        if piece.len() > self.room {
            return write_whole(writer, piece);
        }
        self.keep(piece);
        Ok(())
    }

    // Hands on all that is kept back. What a failure leaves is still kept.
    pub(crate) fn hand_on<W: Write>(&mut self, writer: &mut W) -> Result<(), Failed>
        ensures empty { OnOk result (self.new.kept ≡ []) }
        ensures bytes { Keeps (append_known (W.contents writer.old) self.old.kept)
            (append_known (W.contents writer.new) self.new.kept) }
        ensures room { self.new.room ≡ self.old.room }
    {
        write_out(&mut self.kept, writer)
    }
}

// Writes the bytes, in as many turns as it takes, and removes what was written.
fn write_out<W: Write>(bytes: &mut Vec<u8>, writer: &mut W) -> Result<(), Failed>
    ensures empty { OnOk result (bytes.new.items ≡ []) }
    ensures fewer { vec_len bytes.new ≤ vec_len bytes.old }
    ensures capacity { vec_capacity bytes.new ≡ vec_capacity bytes.old }
    ensures bytes { Keeps (append_known (W.contents writer.old) bytes.old.items)
        (append_known (W.contents writer.new) bytes.new.items) }
{
    while !bytes.is_empty() {
        let count = write_some(writer, bytes)?;
        remove_front(bytes, count);
    }
    Ok(())
}

// Removes the first bytes, of which there are so many.
fn remove_front(bytes: &mut Vec<u8>, count: usize)
    requires { count ≤ vec_len bytes.old }

    ensures items { bytes.new.items ≡ drop count bytes.old.items }
    ensures len { vec_len bytes.new + count ≡ vec_len bytes.old }
    ensures capacity { vec_capacity bytes.new ≡ vec_capacity bytes.old }
{
    let left = bytes.len() - count;
    bytes.copy_within(count.., 0);
    bytes.truncate(left);
}
