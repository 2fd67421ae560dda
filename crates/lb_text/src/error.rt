// Why there is no program.
ghost use Rattle.std.specs.Prelude.{◌≡◌};
ghost use Rattle.lb_text.specs.declared.error.ReadError.TheVariants.{Memory};

use lb_spelling::TextFault;
use std::alloc::AllocError;
use thiserror::Error;

/// Why a text gave no program.
#[derive(Debug, Drop, Error)]
pub enum ReadError {
    /// The text is no program's, or opens too many brackets.
    #[error("the text is no program's")]
    Text(TextFault),
    /// No memory is left.
    #[error("no memory is left")]
    Memory,
}

impl From<AllocError> for ReadError {
    ghost from_gives = { λ _ e. e ≡ Memory };

    fn from(_: AllocError) -> Self {
        ReadError::Memory
    }
}
