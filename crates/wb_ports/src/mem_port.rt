//! A port in memory, which fails where it is told to.
ghost use Rattle.std.specs.Prelude.{◌≡◌, ◌≤◌, [], length, Some, None, IfOk, OnOk, OnErr, is_err};
ghost use Rattle.wb_ports.specs.Counts.{CountsFailure};
ghost use Rattle.wb_ports.specs.InMemory.{is_next_listed, after_call};
ghost use Rattle.wb_ports.specs.Held.{StaysOrBecomes};
ghost use Rattle.wb_ports.specs.MemPort.{MemPortState, fails_to_put, after_failure, after_success};
ghost use Rattle.wb_ports.specs.PortState.{Takes, Gives, named_port, rewound_port, empty_port, begun_port};
ghost use Rattle.wb_ports.specs.PortState.{longer_port, finished_port};
ghost use Rattle.wb_ports.specs.declared.port.Mode.{Mode};

use crate::counting::{CallCounter, raise};
use crate::{Failed, Mode, PORT_LIMIT, PORT_NAME_LIMIT, Port};
use std::alloc::Global;
use std::marker::Model;
use wb_base::OutOfMemory;

/// A file in memory, as a run of a Pascal program uses it. Each written file has room for so many bytes, all of it
/// reserved when the port is made, as is the room for its name, so that no call takes memory. It tells its bytes. To
/// contracts it is a `MemPortState`. This project's own.
#[derive(Drop)]
pub struct MemPort {
    name: Vec<u8>,
    bytes: Vec<u8>,
    room: usize,
    mode: Mode,
    place: usize,
    left: usize,
    finishes: u64,
    starts: u64,
    calls: CallCounter,
}

impl Model for MemPort {
    ghost use Rattle.std.specs.Prelude.{◌≡◌, ◌≤◌, ◌+◌, vec_len, vec_capacity};
    ghost use Rattle.wb_ports.specs.MemPort.{MemPortState};
    ghost use Rattle.wb_ports.specs.declared.port.Mode.{Mode};
    ghost use Rattle.wb_ports.specs.declared.port.TheConstants.{PORT_LIMIT, PORT_NAME_LIMIT};

    ghost Value = { MemPortState };

    ghost view = { λ port. record {
      mode = port.mode;
      left = port.left;
      told = record {
        name = port.name.items;
        bytes = port.bytes.items;
        place = port.place;
        finishes = port.finishes;
        starts = port.starts;
      };
      room = port.room;
      calls = port.calls;
    } };

    ghost invariant = { λ port. record {
      name_room : PORT_NAME_LIMIT ≤ vec_capacity port.name;
      room : port.room ≤ vec_capacity port.bytes;
      limit : vec_len port.bytes ≤ PORT_LIMIT;
      room_limit : port.room ≤ PORT_LIMIT;
      reading : port.mode ≡ Mode.Reading → port.place + port.left ≡ vec_len port.bytes;
      writing : port.mode ≡ Mode.Writing → vec_len port.bytes ≤ port.room;
    } };
}

impl MemPort {
    /// A port with these bytes, not in use and without a name. Each written file will have room for so many bytes.
    /// `fails` lists the numbers, from 1, of the calls of the port that are to fail. It is refused only where no memory
    /// is found.
    pub fn new(
        alloc: Global,
        bytes: &[u8],
        room: usize,
        fails: &[u64],
    ) -> Result<MemPort, OutOfMemory>
        requires bytes { length bytes.now ≤ PORT_LIMIT }
        requires room { room ≤ PORT_LIMIT }

        ensures { IfOk result (λ port. port ≡ record {
          mode = Mode.Idle;
          left = 0;
          told = record { name = []; bytes = bytes.now; place = 0; finishes = 0; starts = 0 };
          room = room;
          calls = record { fails = fails.now; count = 0; faults = 0 };
        }) }
    {
        let mut kept = Vec::with_capacity(alloc, room.max(bytes.len()))?;
        kept.extend_from_slice(bytes)?;
        Ok(MemPort {
            name: Vec::with_capacity(alloc, PORT_NAME_LIMIT)?,
            bytes: kept,
            room,
            mode: Mode::Idle,
            place: 0,
            left: 0,
            finishes: 0,
            starts: 0,
            calls: CallCounter::new(alloc, fails)?,
        })
    }
}

impl Port for MemPort {
    ghost failures = { λ port. port.calls.faults };

    ghost mode = { λ port. port.mode };

    ghost left = { λ port. port.left };

    ghost told = { λ port. Some port.told };

    /// Keeps the name. It fails exactly where the call is listed, and then changes nothing but the counts.
    fn bind(&mut self, name: &[u8]) -> Result<(), Failed>
        requires { length name.now ≤ PORT_NAME_LIMIT }

        ensures fails { is_err result ≡ is_next_listed self.old.calls }
        ensures done { OnOk result (self.new ≡ after_success (named_port name.now) self.old) }
        ensures refused { OnErr result (self.new ≡ after_failure self.old) }

        ensures ok { OnOk result (self.new.told ≡ named_port name.now self.old.told) }
        ensures failed { OnErr result (self.new.told ≡ self.old.told) }
        ensures mode { self.new.mode ≡ self.old.mode }
        ensures left { self.new.left ≡ self.old.left }
        ensures cause { CountsFailure (is_err result) self.old.calls.faults self.new.calls.faults }
    {
        self.calls.pass()?;
        self.name.clear();
        let copied = self.name.extend_from_slice(name);
        prove!(copied.is_ok());
        Ok(())
    }

    /// Begins reading at the first byte. It fails exactly where the call is listed, and then changes nothing but the
    /// counts.
    fn rewind(&mut self) -> Result<(), Failed>
        ensures fails { is_err result ≡ is_next_listed self.old.calls }
        ensures done { OnOk result (self.new ≡ record (after_success rewound_port self.old) {
          mode = Mode.Reading;
          left = length self.old.told.bytes;
        }) }
        ensures refused { OnErr result (self.new ≡ after_failure self.old) }

        ensures ok { OnOk result (self.new.told ≡ rewound_port self.old.told) }
        ensures failed { OnErr result (self.new.told ≡ self.old.told) }
        ensures reading { OnOk result (self.new.mode ≡ Mode.Reading) }
        ensures same_mode { OnErr result (self.new.mode ≡ self.old.mode) }
        ensures left { OnOk result (self.new.left ≤ PORT_LIMIT) }
        ensures same_left { OnErr result (self.new.left ≡ self.old.left) }
        ensures cause { CountsFailure (is_err result) self.old.calls.faults self.new.calls.faults }
    {
        self.calls.pass()?;
        self.mode = Mode::Reading;
        self.place = 0;
        self.left = self.bytes.len();
        raise(&mut self.starts);
        Ok(())
    }

    /// Takes the next byte; none comes at the end. It fails exactly where the call is listed, and then changes nothing
    /// but the counts.
    fn take(&mut self) -> Result<Option<u8>, Failed>
        requires { self.old.mode ≡ Mode.Reading }

        ensures fails { is_err result ≡ is_next_listed self.old.calls }
        ensures done { IfOk result (λ byte. self.new ≡ record (after_success (λ _. self.new.told) self.old) {
          left = self.new.left;
        }) }
        ensures refused { OnErr result (self.new ≡ after_failure self.old) }

        ensures ok { IfOk result (λ byte. Takes byte self.old.told self.new.told) }
        ensures failed { OnErr result (self.new.told ≡ self.old.told) }
        ensures mode { self.new.mode ≡ self.old.mode }
        ensures left { IfOk result (λ byte. Gives byte self.old.left self.new.left) }
        ensures same_left { OnErr result (self.new.left ≡ self.old.left) }
        ensures cause { CountsFailure (is_err result) self.old.calls.faults self.new.calls.faults }
    {
        self.calls.pass()?;
        if self.left == 0 {
            return Ok(None);
        }
        let byte = self.bytes[self.place];
        self.place += 1;
        self.left -= 1;
        Ok(Some(byte))
    }

    /// Empties the port for writing. It fails exactly where the call is listed, and then changes nothing but the
    /// counts.
    fn begin(&mut self) -> Result<(), Failed>
        ensures fails { is_err result ≡ is_next_listed self.old.calls }
        ensures done { OnOk result (self.new ≡ record (after_success begun_port self.old) { mode = Mode.Writing }) }
        ensures refused { OnErr result (self.new ≡ after_failure self.old) }

        ensures ok { OnOk result (self.new.told ≡ begun_port self.old.told) }
        ensures failed { OnErr result (StaysOrBecomes empty_port self.old.told self.new.told) }
        ensures writing { OnOk result (self.new.mode ≡ Mode.Writing) }
        ensures same_mode { OnErr result (self.new.mode ≡ self.old.mode) }
        ensures left { self.new.left ≡ self.old.left }
        ensures cause { CountsFailure (is_err result) self.old.calls.faults self.new.calls.faults }
    {
        self.calls.pass()?;
        self.mode = Mode::Writing;
        self.bytes.clear();
        self.place = 0;
        raise(&mut self.starts);
        Ok(())
    }

    /// Appends a byte. It fails exactly where the call is listed or the room is full, and then changes nothing but the
    /// counts.
    fn put(&mut self, byte: u8) -> Result<(), Failed>
        requires { self.old.mode ≡ Mode.Writing }

        ensures fails { is_err result ≡ fails_to_put self.old }
        ensures done { OnOk result (self.new ≡ after_success (longer_port byte) self.old) }
        ensures refused { OnErr result (self.new ≡ after_failure self.old) }

        ensures ok { OnOk result (self.new.told ≡ longer_port byte self.old.told) }
        ensures failed { OnErr result (StaysOrBecomes (longer_port byte) self.old.told self.new.told) }
        ensures mode { self.new.mode ≡ self.old.mode }
        ensures left { self.new.left ≡ self.old.left }
        ensures cause { CountsFailure (is_err result) self.old.calls.faults self.new.calls.faults }
    {
        self.calls.pass()?;
        if self.bytes.len() >= self.room {
            self.calls.count_failure();
            return Err(Failed);
        }
        let put = self.bytes.push(byte);
        prove!(put.is_ok());
        Ok(())
    }

    /// Ends the use of the port, which is counted. It fails exactly where the call is listed.
    fn finish(&mut self) -> Result<(), Failed>
        ensures fails { is_err result ≡ is_next_listed self.old.calls }
        ensures state { self.new ≡ record self.old {
          told = finished_port self.old.told;
          calls = after_call (is_err result) self.old.calls;
        } }

        ensures finished { self.new.told ≡ finished_port self.old.told }
        ensures mode { self.new.mode ≡ self.old.mode }
        ensures left { self.new.left ≡ self.old.left }
        ensures cause { CountsFailure (is_err result) self.old.calls.faults self.new.calls.faults }
    {
        raise(&mut self.finishes);
        self.calls.pass()
    }
}
