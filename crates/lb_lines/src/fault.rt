// Why a text isn't read.

use thiserror::Error;

/// Why a line is outside its form. The first of these that fits is the one.
#[derive(Clone, Copy, Debug, PartialEq, Eq)]
pub enum LineKind {
    /// It is spelled otherwise.
    Malformed,
    /// It is a frame of more than 2,000 bytes.
    TooLong,
    /// It is the 65th frame.
    TooMany,
}

/// The first line outside its form.
#[derive(Clone, Copy, Debug, PartialEq, Eq)]
pub struct LineFault {
    /// Its number.
    pub line: u32,
    /// What is wrong with it.
    pub kind: LineKind,
}

/// Why a text gave no values.
#[derive(Clone, Copy, Debug, PartialEq, Eq, Error)]
pub enum LineError {
    /// A line is outside its form.
    #[error("a line is outside its form")]
    Line(LineFault),
    /// No memory is left.
    #[error("no memory is left")]
    Memory,
}
