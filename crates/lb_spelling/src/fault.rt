// Where a text goes wrong, and how.

/// What is wrong at the place of a fault. The first of these that fits is the one.
#[derive(Clone, Copy, Debug, PartialEq, Eq)]
pub enum TextKind {
    /// The text ends before the program does.
    Ended,
    /// The byte is none of tab, line feed, carriage return and 0x20 to 0x7E.
    BadByte,
    /// The bracket fits, but would be the 65th that is open.
    TooDeep,
    /// The digit makes its number 2^32 or more.
    NumberTooWide,
    /// The byte would be the 33rd of a name.
    NameTooLong,
    /// Nothing that may stand here has this byte here.
    Unexpected,
}

/// Why a text is refused.
#[derive(Clone, Copy, Debug, PartialEq, Eq)]
pub struct TextFault {
    /// How many bytes stand before the place of the fault.
    pub at: u32,
    /// What is wrong there.
    pub kind: TextKind,
}
