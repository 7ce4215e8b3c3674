//! Writing a whole piece by std's writers.
ghost use Rattle.std.specs.Prelude.{ℕ, ◌<◌, ◌≤◌, [], length, take, IfOk, OnOk, OnErr};
ghost use Rattle.std.specs.Io.KnownBytes.{Appends};

use crate::Failed;
use std::io::Write;

// Writes the whole piece, in as many turns as it takes. A turn that takes nothing is a failure, after which a prefix
// of the piece was written.
pub(crate) fn write_whole<W: Write>(writer: &mut W, piece: &[u8]) -> Result<(), Failed>
    ensures ok { OnOk result (Appends (W.contents writer.old) (W.contents writer.new) piece.now) }
    ensures failed { OnErr result
        ((n : ℕ) × Appends (W.contents writer.old) (W.contents writer.new) (take n piece.now)) }
{
    let mut rest = piece;
    while !rest.is_empty() {
        let count = write_some(writer, rest)?;
        rest = &rest[count..];
    }
    Ok(())
}

// Writes some of a piece that is not empty, at least a byte, and tells how many.
pub(crate) fn write_some<W: Write>(writer: &mut W, piece: &[u8]) -> Result<usize, Failed>
    ensures some { IfOk result (λ n. 0 < n) }
    ensures within { IfOk result (λ n. n ≤ length piece.now) }
    ensures ok { IfOk result (λ n. Appends (W.contents writer.old) (W.contents writer.new) (take n piece.now)) }
    ensures failed { OnErr result (Appends (W.contents writer.old) (W.contents writer.new) []) }
{
    match writer.write(piece) {
        Ok(0) => Err(Failed),
        Ok(count) => Ok(count),
        Err(_) => Err(Failed),
    }
}

// Hands on what the writer has kept back.
pub(crate) fn flush<W: Write>(writer: &mut W) -> Result<(), Failed>
    ensures { Appends (W.contents writer.old) (W.contents writer.new) [] }
{
    match writer.flush() {
        Ok(()) => Ok(()),
        Err(_) => Err(Failed),
    }
}
