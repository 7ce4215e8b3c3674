//! What folds the items of an expansion and packs their pieces.
ghost use Rattle.std.specs.Prelude.{◌≡◌, ℕ, ◌+◌, [], ◌∷◌, ◌++◌, List, map, All, length, Option, Some, None, OnOk, Err};
ghost use Rattle.std.specs.Prelude.{◌<◌, ◌≤◌, OnErr};
ghost use Rattle.wb_ports.specs.Counts.{CountsFailure};
ghost use Rattle.wb_ports.specs.Held.{GainsPrefix};
ghost use Rattle.macro_expand.specs.Items.{Expanded, item_of};
ghost use Rattle.tangle_out.specs.Foldable.{IsFoldable};
ghost use Rattle.tangle_out.specs.Folder.{HasRoomFor, IsShort};
ghost use Rattle.tangle_out.specs.Pieces.{Piece, piece_of};
ghost use Rattle.tangle_out.specs.Packing.{text_of_lines};
ghost use Rattle.tangle_out.specs.Packer.{is_failed};
ghost use Rattle.tangle_core.specs.Tangled.{lined};
ghost use Rattle.tangle_core.specs.inner.Emitting.{At, Sent, Breaks, Whole, CanCount, IfFaultCode, so_far, made_of};

use arrayvec::ArrayVec;
use macro_expand::Item;
use tangle_out::{Folder, OutErr, OutPiece, Packer, Step};
use wb_ports::Sink;

// The most pieces that an item or the end adds.
const MOST_PIECES: usize = 4;

// What folds the items of an expansion and packs their pieces into lines. It takes no memory.
#[derive(Drop)]
pub(crate) struct Output<'w> {
    folder: Folder<'w>,
    packer: Packer,
}

impl<'w> Output<'w> {
    // What has got no item.
    pub(crate) fn new() -> Output<'w>
        ensures { (start : Option (List ℕ)) → At result.folder result.packer [] start start }
    {
        Output {
            folder: Folder::new(),
            packer: Packer::new(),
        }
    }

    // How many lines the sink has got.
    pub(crate) fn finished(&self) -> u32
        ensures { result ≡ self.now.packer.finished }
    {
        self.packer.finished()
    }

    // Takes the next item, and gives the sink the lines that it finishes.
    pub(crate) fn push<K: Sink>(&mut self, item: Item<'w>, sink: &mut K) -> Result<(), OutErr>
        requires item { IsFoldable (item_of item) }
        requires room { HasRoomFor self.old.folder (item_of item) }
        requires countable { CanCount self.old.packer MOST_PIECES }
        ensures ok { OnOk result ((items : List Expanded) (start : Option (List ℕ))
            → At self.old.folder self.old.packer items start (K.held sink.old)
            → At self.new.folder self.new.packer (items ++ item_of item.entry ∷ []) start (K.held sink.new)) }
        ensures fault { IfFaultCode result (λ code. (items : List Expanded) (start : Option (List ℕ))
            → At self.old.folder self.old.packer items start (K.held sink.old)
            → Breaks (so_far (items ++ item_of item.entry ∷ [])) code self.new.packer.finished
            start (K.held sink.new)) }
        ensures failed { result ≡ Err OutErr.Failed → (items : List Expanded) (start : Option (List ℕ))
            → At self.old.folder self.old.packer items start (K.held sink.old)
            → GainsPrefix (text_of_lines (so_far (items ++ item_of item.entry ∷ [])).lines) start (K.held sink.new) }
        ensures counted { self.new.packer.finished < u32.MAX }
        ensures cause { CountsFailure (is_failed result) (K.faults sink.old) (K.faults sink.new) }
        ensures frame { K.frame sink.new ≡ K.frame sink.old }
    {
        match self.folder.step(item) {
            Step::Nothing => Ok(()),
            Step::Gives(piece) => pack_piece(piece, &mut self.packer, sink),
            Step::Left => self.push_pieces(item, sink),
        }
    }

    // The same for an item that may add several pieces, or show a fault.
    #[cold]
    fn push_pieces<K: Sink>(&mut self, item: Item<'w>, sink: &mut K) -> Result<(), OutErr>
        requires item { IsFoldable (item_of item) }
        requires room { HasRoomFor self.old.folder (item_of item) }
        requires countable { CanCount self.old.packer MOST_PIECES }
        ensures ok { OnOk result ((items : List Expanded) (start : Option (List ℕ))
            → At self.old.folder self.old.packer items start (K.held sink.old)
            → At self.new.folder self.new.packer (items ++ item_of item.entry ∷ []) start (K.held sink.new)) }
        ensures fault { IfFaultCode result (λ code. (items : List Expanded) (start : Option (List ℕ))
            → At self.old.folder self.old.packer items start (K.held sink.old)
            → Breaks (so_far (items ++ item_of item.entry ∷ [])) code self.new.packer.finished
            start (K.held sink.new)) }
        ensures failed { result ≡ Err OutErr.Failed → (items : List Expanded) (start : Option (List ℕ))
            → At self.old.folder self.old.packer items start (K.held sink.old)
            → GainsPrefix (text_of_lines (so_far (items ++ item_of item.entry ∷ [])).lines) start (K.held sink.new) }
        ensures counted { self.new.packer.finished < u32.MAX }
        ensures cause { CountsFailure (is_failed result) (K.faults sink.old) (K.faults sink.new) }
        ensures frame { K.frame sink.new ≡ K.frame sink.old }
    {
        let pieces = match self.folder.push(item) {
            Ok(pieces) => pieces,
            Err(code) => return Err(OutErr::Fault(code)),
        };
        pack(pieces, &mut self.packer, sink)
    }

    // Takes the end, and gives the sink the last lines.
    pub(crate) fn finish<K: Sink>(&mut self, sink: &mut K) -> Result<(), OutErr>
        requires countable { CanCount self.old.packer MOST_PIECES }
        ensures ok { OnOk result ((items : List Expanded) (start : Option (List ℕ))
            → At self.old.folder self.old.packer items start (K.held sink.old)
            → Whole (made_of items None) self.new.packer.finished start (K.held sink.new)) }
        ensures fault { IfFaultCode result (λ code. (items : List Expanded) (start : Option (List ℕ))
            → At self.old.folder self.old.packer items start (K.held sink.old)
            → Breaks (made_of items None) code self.new.packer.finished start (K.held sink.new)) }
        ensures failed { result ≡ Err OutErr.Failed → (items : List Expanded) (start : Option (List ℕ))
            → At self.old.folder self.old.packer items start (K.held sink.old)
            → GainsPrefix (text_of_lines (made_of items None).lines) start (K.held sink.new) }
        ensures counted { OnErr result (self.new.packer.finished < u32.MAX) }
        ensures cause { CountsFailure (is_failed result) (K.faults sink.old) (K.faults sink.new) }
        ensures frame { K.frame sink.new ≡ K.frame sink.old }
    {
        let pieces = match self.folder.finish() {
            Ok(pieces) => pieces,
            Err(code) => return Err(OutErr::Fault(code)),
        };
        pack(pieces, &mut self.packer, sink)?;
        self.packer.finish(sink)
    }
}

// Packs a piece.
fn pack_piece<K: Sink>(piece: OutPiece<'_>, packer: &mut Packer, sink: &mut K) -> Result<(), OutErr>
    requires short { IsShort (piece_of piece) }
    requires countable { CanCount packer.old MOST_PIECES }
    ensures ok { OnOk result ((before : List Piece) (start : Option (List ℕ))
        → Sent packer.old before start (K.held sink.old)
        → Sent packer.new (before ++ piece_of piece.entry ∷ []) start (K.held sink.new)) }
    ensures fault { IfFaultCode result (λ code. (before : List Piece) (start : Option (List ℕ))
        → Sent packer.old before start (K.held sink.old)
        → (rest : List Piece) → Breaks (lined ((before ++ piece_of piece.entry ∷ []) ++ rest)) code
        packer.new.finished start (K.held sink.new)) }
    ensures failed { result ≡ Err OutErr.Failed → (before : List Piece) (start : Option (List ℕ))
        → Sent packer.old before start (K.held sink.old)
        → GainsPrefix (text_of_lines (lined (before ++ piece_of piece.entry ∷ [])).lines) start (K.held sink.new) }
    ensures counted { packer.new.finished < u32.MAX }
    ensures cause { CountsFailure (is_failed result) (K.faults sink.old) (K.faults sink.new) }
    ensures frame { K.frame sink.new ≡ K.frame sink.old }
{
    packer.push(piece, sink)
}

// Packs pieces, one after another.
fn pack<K: Sink>(
    pieces: ArrayVec<OutPiece<'_>, MOST_PIECES>,
    packer: &mut Packer,
    sink: &mut K,
) -> Result<(), OutErr>
    requires short { All IsShort (map piece_of pieces.items) }
    requires countable { CanCount packer.old MOST_PIECES }
    ensures ok { OnOk result ((before : List Piece) (start : Option (List ℕ))
        → Sent packer.old before start (K.held sink.old)
        → Sent packer.new (before ++ map piece_of pieces.entry.items) start (K.held sink.new)) }
    ensures fault { IfFaultCode result (λ code. (before : List Piece) (start : Option (List ℕ))
        → Sent packer.old before start (K.held sink.old)
        → (rest : List Piece) → Breaks (lined ((before ++ map piece_of pieces.entry.items) ++ rest)) code
        packer.new.finished start (K.held sink.new)) }
    ensures failed { result ≡ Err OutErr.Failed → (before : List Piece) (start : Option (List ℕ))
        → Sent packer.old before start (K.held sink.old)
        → GainsPrefix (text_of_lines (lined (before ++ map piece_of pieces.entry.items)).lines)
        start (K.held sink.new) }
    ensures counted { packer.new.finished < u32.MAX }
    ensures few { length pieces.entry.items ≤ MOST_PIECES }
    ensures cause { CountsFailure (is_failed result) (K.faults sink.old) (K.faults sink.new) }
    ensures frame { K.frame sink.new ≡ K.frame sink.old }
{
    prove!(pieces.len() <= MOST_PIECES);
    for piece in pieces {
        packer.push(piece, sink)?;
    }
    Ok(())
}
