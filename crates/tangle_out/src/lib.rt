//! The output of TANGLE: constants are folded, and pieces packed into lines.
#![tactic(auto)]

mod folder;
mod folding;
mod packing;
mod pieces;
mod putting;
mod texts;
mod units;
mod waiting;

pub use folder::{Folder, Step};
pub use packing::{Packer, WIDTH};
pub use pieces::{OutErr, OutPiece, PieceKind, PieceText};
