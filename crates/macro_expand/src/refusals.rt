//! Why an expansion ends before its end.

/// Why an expansion ends before its end.
#[derive(Clone, Copy, Debug, PartialEq, Eq)]
pub enum ExpandErr {
    /// A section name stands for no Pascal text.
    NotPresent,
    /// No `(` stands behind a parametric macro.
    NoParameter,
    /// More than `LEVEL_LIMIT` levels would be open.
    Levels,
    /// More than `STEP_LIMIT` steps would be taken.
    Steps,
}
