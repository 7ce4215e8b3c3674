//! Bytes that are read from a reader of std by blocks, and given one by one.
ghost use Rattle.std.specs.Prelude.{◌≡◌, ◌≤◌, ◌<◌, [], length, nat_le, vec_len, vec_capacity};
ghost use Rattle.std.specs.Prelude.{IsOk, IfOk, OnOk, OnErr};
ghost use Rattle.std.specs.Io.KnownBytes.{Keeps, Consumes, IsAtEnd, prepend_known};
ghost use Rattle.wb_ports.specs.PortState.{Gives};
ghost use Rattle.wb_ports.specs.FilePort.{TakesNext};
ghost use Rattle.wb_ports.specs.inner.Unread.{Unread, GivesNext};

use crate::{Failed, PORT_LIMIT};
use std::alloc::Global;
use std::io::Read;
use std::marker::Model;
use wb_base::OutOfMemory;

/// How many bytes a port reads at once, and gathers before it hands them on. This project's own.
pub const BLOCK: usize = 8192;

// What is read of a reader and not yet given, and how many bytes may still be given. The room for a block is reserved
// when it is made, and no other call takes memory. To contracts it is an `Unread`.
#[derive(Drop)]
pub(crate) struct BlockReader {
    block: Vec<u8>,
    next: usize,
    left: usize,
}

impl Model for BlockReader {
    ghost use Rattle.std.specs.Prelude.{◌≤◌, drop, vec_len, vec_capacity};
    ghost use Rattle.wb_ports.specs.inner.Unread.{Unread};
    ghost use Rattle.wb_ports.specs.declared.reading.TheConstants.{BLOCK};

    ghost Value = { Unread };

    ghost view = { λ reader. record { ahead = drop reader.next reader.block.items; left = reader.left } };

    ghost invariant = { λ reader. (BLOCK ≤ vec_capacity reader.block) × (reader.next ≤ vec_len reader.block) };
}

impl BlockReader {
    // Nothing is read, and nothing may be given.
    pub(crate) fn new(alloc: Global) -> Result<BlockReader, OutOfMemory>
        ensures { IfOk result (λ reader. reader ≡ record { ahead = []; left = 0 }) }
    {
        Ok(BlockReader {
            block: Vec::with_capacity(alloc, BLOCK)?,
            next: 0,
            left: 0,
        })
    }

    // Forgets what is read.
    pub(crate) fn clear(&mut self)
        ensures { self.new ≡ record self.old { ahead = [] } }
    {
        self.block.clear();
        self.next = 0;
    }

    // From here on as much may be given as a port may give.
    pub(crate) fn allow_all(&mut self)
        ensures { self.new ≡ record self.old { left = PORT_LIMIT } }
    {
        self.left = PORT_LIMIT;
    }

    // Whether all that is read is given.
    pub(crate) fn is_empty(&self) -> bool
        ensures { result ≡ nat_le (length self.now.ahead) 0 }
    {
        self.next == self.block.len()
    }

    // Gives the next byte, or none at the end. It fails only where the reader does, and where no more may be given.
    pub(crate) fn take<F: Read>(&mut self, reader: &mut F) -> Result<Option<u8>, Failed>
        ensures ok { IfOk result (λ byte. TakesNext byte (prepend_known self.old.ahead (F.remaining reader.old))
            (prepend_known self.new.ahead (F.remaining reader.new))) }
        ensures failed { OnErr result (Keeps (prepend_known self.old.ahead (F.remaining reader.old))
            (prepend_known self.new.ahead (F.remaining reader.new))) }
        ensures left { IfOk result (λ byte. Gives byte self.old.left self.new.left) }
        ensures same_left { OnErr result (self.new.left ≡ self.old.left) }
        ensures ready { 0 < length self.old.ahead → 0 < self.old.left → IsOk result }
    {
        if self.is_empty() {
            self.fill(reader)?;
        }
        self.give()
    }

    // Reads a block, where all that is read is given.
    fn fill<F: Read>(&mut self, reader: &mut F) -> Result<(), Failed>
        requires { self.old.ahead ≡ [] }

        ensures bytes { Keeps (prepend_known self.old.ahead (F.remaining reader.old))
            (prepend_known self.new.ahead (F.remaining reader.new)) }
        ensures ended { OnOk result (self.new.ahead ≡ [] → IsAtEnd (F.remaining reader.new)) }
        ensures left { self.new.left ≡ self.old.left }
    {
        self.next = 0;
        read_block(&mut self.block, reader)
    }

    // Gives the next byte of what is read.
    fn give(&mut self) -> Result<Option<u8>, Failed>
        ensures ok { IfOk result (λ byte. GivesNext byte self.old self.new) }
        ensures failed { OnErr result (self.new ≡ self.old) }
        ensures ready { 0 < self.old.left → IsOk result }
    {
        if self.is_empty() {
            return Ok(None);
        }
        if self.left == 0 {
            return Err(Failed);
        }
        let byte = self.block[self.next];
        self.next += 1;
        self.left -= 1;
        Ok(Some(byte))
    }
}

// Reads into a block, in place of what was in it. It is empty after a failure, and at the end.
fn read_block<F: Read>(block: &mut Vec<u8>, reader: &mut F) -> Result<(), Failed>
    requires { BLOCK ≤ vec_capacity block.old }

    ensures bytes { Keeps (F.remaining reader.old) (prepend_known block.new.items (F.remaining reader.new)) }
    ensures ended { OnOk result (block.new.items ≡ [] → IsAtEnd (F.remaining reader.new)) }
    ensures capacity { BLOCK ≤ vec_capacity block.new }
{
    block.clear();
    let mut chunk = [0u8; BLOCK];
    match reader.read(&mut chunk) {
        Ok(count) => {
            let kept = block.extend_from_slice(&chunk[..count]);
            prove!(kept.is_ok());
            Ok(())
        }
        Err(_) => Err(Failed),
    }
}
