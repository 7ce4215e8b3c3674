//! A sink for text.
ghost use Rattle.std.specs.Prelude.{◌≡◌, ℕ, List, Option, OnOk, OnErr, is_err};
ghost use Rattle.wb_ports.specs.Counts.{CountsFailure};
ghost use Rattle.wb_ports.specs.Held.{Gains, GainsPrefix};

use crate::Failed;

/// What takes text, piece by piece, such as the console or an open file.
pub trait Sink {
    /// The plain data of which the frame is made.
    type Frame;

    /// How often a call has failed. It never falls.
    ghost faults: { Self → ℕ };

    /// What the sink has got, where it tells that.
    ghost held: { Self → Option (List ℕ) };

    /// Plain data that is fixed when the sink is made. No call changes it. A sink over a borrowed shelf has the ghost
    /// name of that borrow here: so a call that is lent the sink leaves in it the same borrow and no other, and its
    /// maker knows what the shelf holds once the sink is gone. What the shelf held when the sink was made is no value
    /// that the sink could keep. It is a ghost member of a bound on a type parameter of the sink, for which the maker
    /// passes `std::marker::Brand` and picks that state in its proof; the sink's own invariant speaks of it.
    ghost frame: { Self → Self.Frame };

    /// Appends the piece. After `Failed` a prefix of the piece was appended.
    fn write(&mut self, piece: &[u8]) -> Result<(), Failed>
        ensures ok { OnOk result (Gains piece.now (held self.old) (held self.new)) }
        ensures failed { OnErr result (GainsPrefix piece.now (held self.old) (held self.new)) }
        ensures cause { CountsFailure (is_err result) (faults self.old) (faults self.new) }
        ensures frame { frame self.new ≡ frame self.old };
}
