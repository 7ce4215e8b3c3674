//! The statuses that the program ends with.

/// The statuses that the program ends with. This project's own.
#[derive(Clone, Copy)]
pub enum Status {
    /// The work was done.
    Done = 0,
    /// An input has a fault, whose line was printed.
    Refused = 1,
    /// The command line is faulty, and the usage line was printed.
    Usage = 2,
    /// A call of the shelf, the console or a port failed.
    Failed = 3,
    /// No memory was found.
    OutOfMemory = 4,
    /// The run of a program went on at its bound of steps.
    Unfinished = 5,
    /// The run of a program committed an error.
    Erroneous = 6,
    /// The calls of a program nested too deep.
    TooDeep = 7,
}

impl Status {
    ghost use Rattle.std.specs.Prelude.{◌≡◌};
    ghost use Rattle.web2c_cli.specs.Status.{number_of};

    /// The number of the status.
    pub fn number(self) -> u8
        ensures { result ≡ number_of self }
    {
        self as u8
    }
}
