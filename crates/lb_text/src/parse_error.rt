// Why reading fails.
ghost use Rattle.std.specs.Prelude.{◌≡◌};
ghost use Rattle.lb_text.specs.declared.parse_error.ParseError.TheVariants.{Memory, Syntax};

use lb_scan::SyntaxError;
use std::alloc::{AllocError, AllocFailed};

/// Why nothing was read.
#[derive(Clone, Copy, Debug, PartialEq, Eq)]
pub enum ParseError {
    /// The text is refused here.
    Syntax(SyntaxError),
    /// No memory is left.
    Memory,
}

impl From<AllocError> for ParseError {
    ghost from_gives = { λ _ e. e ≡ Memory };

    fn from(_: AllocError) -> Self {
        ParseError::Memory
    }
}

impl<T: Drop> From<AllocFailed<T>> for ParseError {
    ghost from_gives = { λ _ e. e ≡ Memory };

    fn from(_: AllocFailed<T>) -> Self {
        ParseError::Memory
    }
}

impl From<SyntaxError> for ParseError {
    ghost from_gives = { λ error e. e ≡ Syntax error };

    fn from(error: SyntaxError) -> Self {
        ParseError::Syntax(error)
    }
}
