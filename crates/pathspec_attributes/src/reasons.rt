//! Why a line of an attribute file is left out.

/// The reason why git drops a line.
#[derive(Clone, Copy, Debug, PartialEq, Eq)]
pub enum Reason {
    /// The line has 2,048 bytes or more.
    TooLong,
    /// A name has another byte than ASCII letters, digits, `-`, `.` and `_`, begins with `-`, or is empty.
    InvalidName,
    /// The line defines a macro, in a file of a directory below the top.
    MacroHere,
    /// The pattern begins with `!`.
    Negative,
}

/// A line that is left out.
#[derive(Clone, Copy, Debug, PartialEq, Eq)]
pub struct LeftOut {
    /// The number of the line, from 1.
    pub line: usize,
    /// The reason why.
    pub reason: Reason,
}
