//! The cells of an activation.

// Where a cell is: in an activation, of which the program's is number 0, behind so many cells of it.
#[derive(Clone, Copy, Debug, PartialEq, Eq)]
pub(crate) struct Address {
    pub(crate) activation: u32,
    pub(crate) offset: u32,
}

// What a cell holds.
#[derive(Clone, Copy, Debug, PartialEq, Eq)]
pub(crate) enum Cell {
    // Nothing that is defined.
    Undefined,
    // A number.
    Holds(i32),
    // A variable parameter: where its variable begins.
    Refers(Address),
}
