//! The pieces of the output.

use arrayvec::ArrayVec;

/// The bytes of a piece. This project's own.
#[derive(Drop)]
pub enum PieceText<'w> {
    /// Bytes that stand in the web.
    Slice(&'w [u8]),
    /// Bytes that were made: those of a number, a sign or a mark.
    Short(ArrayVec<u8, 16>),
}

/// What a piece is to the packing of lines. This project's own.
#[derive(Clone, Copy, Debug, PartialEq, Eq)]
pub enum PieceKind {
    /// A word.
    Word,
    /// A number.
    Number,
    /// A sign or a mark that ends in `;` or `}`.
    Semi,
    /// Any other piece with bytes.
    Other,
    /// A forced line, which has no bytes.
    Break,
}

/// A piece of the output: what is never cut. The pieces are those of TANGLE; their form is this project's own.
#[derive(Drop)]
pub struct OutPiece<'w> {
    /// The bytes.
    pub text: PieceText<'w>,
    /// What it is.
    pub kind: PieceKind,
    /// Whether it may not be parted from the piece before it.
    pub glued: bool,
}

impl Default for PieceText<'_> {
    fn default() -> Self {
        PieceText::Short(ArrayVec::new())
    }
}

impl Default for OutPiece<'_> {
    fn default() -> Self {
        OutPiece {
            text: PieceText::default(),
            kind: PieceKind::Other,
            glued: false,
        }
    }
}

/// Why a piece could not be written.
#[derive(Clone, Copy, Debug, PartialEq, Eq)]
pub enum OutErr {
    /// The fault of this number.
    Fault(u16),
    /// A call of the sink failed.
    Failed,
}
