//! The packing of pieces into lines.
ghost use Rattle.std.specs.Prelude.{◌≡◌, ◌<◌, ◌≤◌, ◌⊎◌, ◌↔◌, List, ℕ, [], ◌∷◌, ◌++◌, length};
ghost use Rattle.std.specs.Prelude.{Ok, Err, OnOk, OnErr, IfErr, is_err};
ghost use Rattle.wb_base.specs.declared.faults.TheConstants.{LINE_NOT_CUT};
ghost use Rattle.wb_ports.specs.Counts.{CountsFailure};
ghost use Rattle.wb_ports.specs.Held.{Gains, GainsPrefix};
ghost use Rattle.tangle_out.specs.Pieces.{Piece, piece_of};
ghost use Rattle.tangle_out.specs.Packing.{finished_lines, packed_lines, text_of_lines, is_forced_line};
ghost use Rattle.tangle_out.specs.Packing.{Finishes, EndFinishes};
ghost use Rattle.tangle_out.specs.Packer.{PackerState, Stands, longest_text, is_failed};
ghost use Rattle.tangle_out.specs.inner.Advance.{Advanced, advanced, forced, cut, place_of_cut, text_with};

#[cfg(test)]
mod tests;

use crate::waiting::{Waiting, append};
use crate::{OutErr, OutPiece, PieceKind};
use arrayvec::ArrayVec;
use std::marker::Model;
use wb_ports::{Failed, Sink};

/// The most bytes of a line. The WEB profile's.
pub const WIDTH: usize = 72;

// The most bytes of a line with its byte 10.
const WRITTEN: usize = 73;

/// What packs pieces into lines: it holds the text of the line that waits, and gives a sink each line that is finished.
/// To contracts it is a `PackerState`, which stands for the pieces that it was given. It takes no memory. The buffer is
/// this project's own.
#[derive(Drop)]
pub struct Packer {
    waiting: Waiting,
    finished: u32,
}

impl Model for Packer {
    ghost use Rattle.tangle_out.specs.declared.packing.TheConstants.{WIDTH};
    ghost use Rattle.tangle_out.specs.Packer.{PackerState};
    ghost use Rattle.tangle_out.specs.inner.Advance.{IsBounded};

    ghost Value = { PackerState };

    ghost view = { λ packer. record { waiting = packer.waiting; finished = packer.finished } };

    ghost invariant = { λ packer. IsBounded WIDTH packer.waiting };
}

impl Packer {
    /// A packer that has got no piece.
    pub fn new() -> Packer
        ensures { Stands WIDTH result [] }
    {
        Packer {
            waiting: Waiting::new(),
            finished: 0,
        }
    }

    /// The number of the lines that are finished.
    pub fn finished(&self) -> u32
        ensures value { result ≡ self.now.finished }
        ensures lines { (pieces : List Piece) → Stands WIDTH self.now pieces →
            ((lines : List (List ℕ)) × ((finished_lines WIDTH pieces ≡ Ok lines) × (result ≡ length lines))) }
    {
        self.finished
    }

    /// Packs a piece more. The sink gets the line that the piece finishes, if there is one, with its byte 10 and in one
    /// write.
    ///
    /// The fault is `LINE_NOT_CUT`: the piece passes the width of a line that can be cut nowhere. `Failed` is that of
    /// the sink, which may have got a prefix of the line. After both the packer is as it was.
    #[inline(always)]
    pub fn push<K: Sink>(&mut self, piece: OutPiece<'_>, sink: &mut K) -> Result<(), OutErr>
        requires short { length (piece_of piece).text ≤ longest_text WIDTH (piece_of piece).kind }
        requires countable { self.old.finished < u32.MAX }

        // The sink gains the lines that the piece finishes, and the packer stands for the pieces with it. A piece that
        // finishes no line calls no sink.
        ensures gained { OnOk result ((pieces : List Piece) → Stands WIDTH self.old pieces →
            ((lines : List (List ℕ)) × (Finishes WIDTH pieces (piece_of piece.entry) lines
            × Gains (text_of_lines lines) (K.held sink.old) (K.held sink.new)))) }
        ensures stands { OnOk result ((pieces : List Piece) → Stands WIDTH self.old pieces →
            Stands WIDTH self.new (pieces ++ piece_of piece.entry ∷ [])) }
        ensures idle { (pieces : List Piece) → Stands WIDTH self.old pieces →
            Finishes WIDTH pieces (piece_of piece.entry) [] → sink.new ≡ sink.old }

        // The fault comes exactly where the definition gives it, and nothing is written.
        ensures fault { (pieces : List Piece) → Stands WIDTH self.old pieces →
            ((result ≡ Err (OutErr.Fault LINE_NOT_CUT))
            ↔ (finished_lines WIDTH (pieces ++ piece_of piece.entry ∷ []) ≡ Err LINE_NOT_CUT)) }
        ensures refusals { IfErr result (λ error. (error ≡ OutErr.Failed) ⊎ (error ≡ OutErr.Fault LINE_NOT_CUT)) }
        ensures unwritten { result ≡ Err (OutErr.Fault LINE_NOT_CUT) → sink.new ≡ sink.old }

        // A failed call of the sink has written a prefix of the lines that the piece finishes.
        ensures failed { result ≡ Err OutErr.Failed → (pieces : List Piece) → Stands WIDTH self.old pieces →
            ((lines : List (List ℕ)) × (Finishes WIDTH pieces (piece_of piece.entry) lines
            × GainsPrefix (text_of_lines lines) (K.held sink.old) (K.held sink.new))) }
        ensures cause { CountsFailure (is_failed result) (K.faults sink.old) (K.faults sink.new) }

        ensures unchanged { OnErr result (self.new ≡ self.old) }
        ensures frame { K.frame sink.new ≡ K.frame sink.old }
    {
        self.advance(&piece, sink)
    }

    /// Gives the sink the line that waits, if it is not empty, as at the end of all pieces. `Failed` is that of the
    /// sink, which may have got a prefix of the line; the packer is then as it was.
    pub fn finish<K: Sink>(&mut self, sink: &mut K) -> Result<(), OutErr>
        requires countable { self.old.finished < u32.MAX }

        ensures gained { OnOk result ((pieces : List Piece) → Stands WIDTH self.old pieces →
            ((lines : List (List ℕ)) × (EndFinishes WIDTH pieces lines
            × Gains (text_of_lines lines) (K.held sink.old) (K.held sink.new)))) }
        ensures counted { OnOk result ((pieces : List Piece) → Stands WIDTH self.old pieces →
            ((lines : List (List ℕ)) × ((packed_lines WIDTH pieces ≡ Ok lines) × (self.new.finished ≡ length lines)))) }
        ensures idle { (pieces : List Piece) → Stands WIDTH self.old pieces → EndFinishes WIDTH pieces [] →
            sink.new ≡ sink.old }

        ensures refusals { IfErr result (λ error. error ≡ OutErr.Failed) }
        ensures failed { OnErr result ((pieces : List Piece) → Stands WIDTH self.old pieces →
            ((lines : List (List ℕ)) × (EndFinishes WIDTH pieces lines
            × GainsPrefix (text_of_lines lines) (K.held sink.old) (K.held sink.new)))) }
        ensures cause { CountsFailure (is_err result) (K.faults sink.old) (K.faults sink.new) }

        ensures unchanged { OnErr result (self.new ≡ self.old) }
        ensures frame { K.frame sink.new ≡ K.frame sink.old }
    {
        self.force_line(sink)
    }

    // Packs a piece more.
    #[inline(always)]
    fn advance<K: Sink>(&mut self, piece: &OutPiece<'_>, sink: &mut K) -> Result<(), OutErr>
        requires short { length (piece_of piece.now).text ≤ longest_text WIDTH (piece_of piece.now).kind }
        requires countable { self.old.finished < u32.MAX }
        ensures ok { OnOk result ((lines : List (List ℕ))
            × ((advanced WIDTH self.old (piece_of piece.now) ≡ Ok (record { state = self.new; lines = lines }))
            × Gains (text_of_lines lines) (K.held sink.old) (K.held sink.new))) }
        ensures fault { IfErr result (λ error. (error ≡ OutErr.Failed) ⊎ (error ≡ OutErr.Fault LINE_NOT_CUT)) }
        ensures shown { (result ≡ Err (OutErr.Fault LINE_NOT_CUT))
            ↔ (advanced WIDTH self.old (piece_of piece.now) ≡ Err LINE_NOT_CUT) }
        ensures unwritten { result ≡ Err (OutErr.Fault LINE_NOT_CUT) → sink.new ≡ sink.old }
        ensures idle { (next : PackerState)
            → advanced WIDTH self.old (piece_of piece.now) ≡ Ok (record { state = next; lines = [] })
            → sink.new ≡ sink.old }
        ensures failed { result ≡ Err OutErr.Failed → ((next : Advanced)
            × ((advanced WIDTH self.old (piece_of piece.now) ≡ Ok next)
            × GainsPrefix (text_of_lines next.lines) (K.held sink.old) (K.held sink.new))) }
        ensures cause { CountsFailure (is_failed result) (K.faults sink.old) (K.faults sink.new) }
        ensures unchanged { OnErr result (self.new ≡ self.old) }
        ensures frame { K.frame sink.new ≡ K.frame sink.old }
    {
        if is_forced_line(piece.kind) {
            return self.force_line(sink);
        }
        let spaced = self.waiting.spaces(piece);
        if self.waiting.length_with(piece, spaced) > WIDTH {
            return self.cut_line(piece, sink);
        }
        self.waiting.add(piece, spaced);
        Ok(())
    }

    // Writes the line that waits, if it is not empty. Then nothing waits.
    fn force_line<K: Sink>(&mut self, sink: &mut K) -> Result<(), OutErr>
        requires { self.old.finished < u32.MAX }
        ensures ok { OnOk result ((self.new ≡ (forced self.old).state)
            × Gains (text_of_lines (forced self.old).lines) (K.held sink.old) (K.held sink.new)) }
        ensures idle { (forced self.old).lines ≡ [] → sink.new ≡ sink.old }
        ensures refusals { IfErr result (λ error. error ≡ OutErr.Failed) }
        ensures failed { OnErr result
            (GainsPrefix (text_of_lines (forced self.old).lines) (K.held sink.old) (K.held sink.new)) }
        ensures cause { CountsFailure (is_err result) (K.faults sink.old) (K.faults sink.new) }
        ensures unchanged { OnErr result (self.new ≡ self.old) }
        ensures frame { K.frame sink.new ≡ K.frame sink.old }
    {
        if !self.waiting.text().is_empty() {
            write_line(self.waiting.text(), sink)?;
            self.finished += 1;
        }
        self.waiting = Waiting::new();
        Ok(())
    }

    // Cuts the line that waits, which a piece passes: writes what stands before the cut, and then changes what waits.
    fn cut_line<K: Sink>(&mut self, piece: &OutPiece<'_>, sink: &mut K) -> Result<(), OutErr>
        requires short { length (piece_of piece.now).text ≤ longest_text WIDTH (piece_of piece.now).kind }
        requires passes { WIDTH < length (text_with self.old.waiting (piece_of piece.now)) }
        requires countable { self.old.finished < u32.MAX }
        ensures ok { OnOk result ((place : ℕ)
            × ((place_of_cut WIDTH self.old.waiting (piece_of piece.now) ≡ Ok place)
            × ((self.new ≡ (cut self.old (piece_of piece.now) place).state)
            × Gains (text_of_lines (cut self.old (piece_of piece.now) place).lines)
            (K.held sink.old) (K.held sink.new)))) }
        ensures fault { IfErr result (λ error. (error ≡ OutErr.Failed) ⊎ (error ≡ OutErr.Fault LINE_NOT_CUT)) }
        ensures shown { (result ≡ Err (OutErr.Fault LINE_NOT_CUT))
            ↔ (place_of_cut WIDTH self.old.waiting (piece_of piece.now) ≡ Err LINE_NOT_CUT) }
        ensures unwritten { result ≡ Err (OutErr.Fault LINE_NOT_CUT) → sink.new ≡ sink.old }
        ensures failed { result ≡ Err OutErr.Failed → ((place : ℕ)
            × ((place_of_cut WIDTH self.old.waiting (piece_of piece.now) ≡ Ok place)
            × GainsPrefix (text_of_lines (cut self.old (piece_of piece.now) place).lines)
            (K.held sink.old) (K.held sink.new))) }
        ensures cause { CountsFailure (is_failed result) (K.faults sink.old) (K.faults sink.new) }
        ensures unchanged { OnErr result (self.new ≡ self.old) }
        ensures frame { K.frame sink.new ≡ K.frame sink.old }
    {
        let cut = match self.waiting.place_of_cut(piece) {
            Ok(cut) => cut,
            Err(code) => return Err(OutErr::Fault(code)),
        };
        write_line(&self.waiting.text()[..cut], sink)?;
        self.finished += 1;
        self.waiting.add(piece, self.waiting.spaces(piece));
        self.waiting.drop_line(cut);
        Ok(())
    }
}

// Whether a piece of this kind is a forced line.
#[inline(always)]
fn is_forced_line(kind: PieceKind) -> bool
    ensures { result ≡ is_forced_line kind }
{
    match kind {
        PieceKind::Break => true,
        PieceKind::Word | PieceKind::Number | PieceKind::Semi | PieceKind::Other => false,
    }
}

// Writes a line with its byte 10, in one write.
fn write_line<K: Sink>(line: &[u8], sink: &mut K) -> Result<(), OutErr>
    requires { length line.now ≤ WIDTH }
    ensures ok { OnOk result (Gains (text_of_lines (line.now ∷ [])) (K.held sink.old) (K.held sink.new)) }
    ensures refusals { IfErr result (λ error. error ≡ OutErr.Failed) }
    ensures failed { OnErr result (GainsPrefix (text_of_lines (line.now ∷ [])) (K.held sink.old) (K.held sink.new)) }
    ensures cause { CountsFailure (is_err result) (K.faults sink.old) (K.faults sink.new) }
    ensures frame { K.frame sink.new ≡ K.frame sink.old }
{
    let mut written = ArrayVec::<u8, WRITTEN>::new();
    append(&mut written, line);
    written.push(b'\n');
    match sink.write(&written) {
        Ok(()) => Ok(()),
        Err(Failed) => Err(OutErr::Failed),
    }
}
