//! The items of an expansion.

use wb_base::Joined;

/// An item of the expansion of a web: what is left of its tokens once macros, section names and parameters are
/// replaced. The items are those that TANGLE sends out; their form is this project's own.
#[derive(Clone, Copy)]
pub enum Item<'w> {
    /// A decimal digit, as its byte.
    Digit(u8),
    /// A constant.
    Number(i64),
    /// A word as it is printed; a single letter too.
    Word(&'w [u8]),
    /// A sign of one byte.
    Sign(u8),
    /// A sign of two bytes.
    Joined(Joined),
    /// A single-quoted string, with its quotes.
    Quoted(&'w [u8]),
    /// A verbatim text.
    Verbatim(&'w [u8]),
    /// What stands around it is joined.
    Join,
    /// A forced line.
    Line,
    /// The begin of a metacomment.
    MetaOpen,
    /// The end of a metacomment.
    MetaClose,
    /// The begin of a piece of the section of this number.
    Open(u32),
    /// The end of a piece of the section of this number.
    Close(u32),
}
