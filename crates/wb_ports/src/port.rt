//! A port: the file of a Pascal run.
ghost use Rattle.std.specs.Prelude.{◌≡◌, ◌≤◌, ℕ, Option, OnOk, OnErr, IfOk, length, is_err};
ghost use Rattle.wb_ports.specs.Counts.{CountsFailure};
ghost use Rattle.wb_ports.specs.Held.{WhereTold, Stays, Becomes, StaysOrBecomes};
ghost use Rattle.wb_ports.specs.PortState.{PortState, Takes, Gives, named_port, rewound_port, empty_port, begun_port};
ghost use Rattle.wb_ports.specs.PortState.{longer_port, finished_port};
ghost use Rattle.wb_ports.specs.declared.port.Mode.{Mode};

use crate::Failed;

/// The most bytes that a port gives after a `rewind`: the Pascal's greatest integer. This project's own.
pub const PORT_LIMIT: usize = 2_147_483_647;

/// The most bytes that the Pascal name of a port has. This project's own.
pub const PORT_NAME_LIMIT: usize = 255;

/// What a port is in use for.
#[derive(Clone, Copy, Debug, PartialEq, Eq)]
pub enum Mode {
    /// Nothing yet.
    Idle,
    /// Its bytes are taken.
    Reading,
    /// Bytes are put into it.
    Writing,
}

/// A file as a run of a Pascal program uses it. Whether a port tells its bytes never changes, and no call says it.
pub trait Port: Drop {
    /// How often a call has failed. It never falls.
    ghost failures: { Self → ℕ };

    /// What the port is in use for.
    ghost mode: { Self → Mode };

    /// How many bytes it may still give before it is rewound.
    ghost left: { Self → ℕ };

    /// Its name, bytes, place and numbers of calls, where it tells its bytes.
    ghost told: { Self → Option PortState };

    /// Tells the port its Pascal name, of at most 255 bytes. After `Failed` nothing has changed.
    fn bind(&mut self, name: &[u8]) -> Result<(), Failed>
        requires { length name.now ≤ PORT_NAME_LIMIT }

        ensures ok { OnOk result (WhereTold (Becomes (named_port name.now)) (told self.old) (told self.new)) }
        ensures failed { OnErr result (WhereTold Stays (told self.old) (told self.new)) }
        ensures mode { mode self.new ≡ mode self.old }
        ensures left { left self.new ≡ left self.old }
        ensures cause { CountsFailure (is_err result) (failures self.old) (failures self.new) };

    /// Begins reading at the first byte. After `Failed` nothing has changed.
    fn rewind(&mut self) -> Result<(), Failed>
        ensures ok { OnOk result (WhereTold (Becomes rewound_port) (told self.old) (told self.new)) }
        ensures failed { OnErr result (WhereTold Stays (told self.old) (told self.new)) }
        ensures reading { OnOk result (mode self.new ≡ Mode.Reading) }
        ensures same_mode { OnErr result (mode self.new ≡ mode self.old) }
        ensures left { OnOk result (left self.new ≤ PORT_LIMIT) }
        ensures same_left { OnErr result (left self.new ≡ left self.old) }
        ensures cause { CountsFailure (is_err result) (failures self.old) (failures self.new) };

    /// Takes the next byte; none comes at the end. Where it may give no more, none comes or the call fails. Where no
    /// byte comes, nothing has changed.
    fn take(&mut self) -> Result<Option<u8>, Failed>
        requires { mode self.old ≡ Mode.Reading }

        ensures ok { IfOk result (λ byte. WhereTold (Takes byte) (told self.old) (told self.new)) }
        ensures failed { OnErr result (WhereTold Stays (told self.old) (told self.new)) }
        ensures mode { mode self.new ≡ mode self.old }
        ensures left { IfOk result (λ byte. Gives byte (left self.old) (left self.new)) }
        ensures same_left { OnErr result (left self.new ≡ left self.old) }
        ensures cause { CountsFailure (is_err result) (failures self.old) (failures self.new) };

    /// Empties the port for writing. After `Failed` nothing has changed, or its bytes are gone.
    fn begin(&mut self) -> Result<(), Failed>
        ensures ok { OnOk result (WhereTold (Becomes begun_port) (told self.old) (told self.new)) }
        ensures failed { OnErr result (WhereTold (StaysOrBecomes empty_port) (told self.old) (told self.new)) }
        ensures writing { OnOk result (mode self.new ≡ Mode.Writing) }
        ensures same_mode { OnErr result (mode self.new ≡ mode self.old) }
        ensures left { left self.new ≡ left self.old }
        ensures cause { CountsFailure (is_err result) (failures self.old) (failures self.new) };

    /// Appends a byte. After `Failed` nothing has changed, or the byte is there.
    fn put(&mut self, byte: u8) -> Result<(), Failed>
        requires { mode self.old ≡ Mode.Writing }

        ensures ok { OnOk result (WhereTold (Becomes (longer_port byte)) (told self.old) (told self.new)) }
        ensures failed { OnErr result (WhereTold (StaysOrBecomes (longer_port byte)) (told self.old) (told self.new)) }
        ensures mode { mode self.new ≡ mode self.old }
        ensures left { left self.new ≡ left self.old }
        ensures cause { CountsFailure (is_err result) (failures self.old) (failures self.new) };

    /// Ends the use of the port. The call is counted among its ends, also where it fails.
    fn finish(&mut self) -> Result<(), Failed>
        ensures finished { WhereTold (Becomes finished_port) (told self.old) (told self.new) }
        ensures mode { mode self.new ≡ mode self.old }
        ensures left { left self.new ≡ left self.old }
        ensures cause { CountsFailure (is_err result) (failures self.old) (failures self.new) };
}
