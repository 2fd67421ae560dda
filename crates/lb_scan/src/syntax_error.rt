// Where reading stops.
use lb_spelling::TextKind;

/// What is wrong with a text, and where.
#[derive(Clone, Copy, Debug, PartialEq, Eq)]
pub struct SyntaxError {
    /// What is wrong.
    pub kind: TextKind,
    /// How many bytes are left at the place of the fault.
    pub left: usize,
}
