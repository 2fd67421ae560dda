// Why there is no image.
ghost use Rattle.std.specs.Prelude.{◌≡◌};
ghost use Rattle.lb_image.specs.declared.error.ImageError.TheVariants.{Memory};

use std::alloc::{AllocError, AllocFailed};
use thiserror::Error;

/// What is wrong at a place.
#[derive(Clone, Copy, Debug, PartialEq, Eq)]
pub enum ImageKind {
    /// The bytes don't begin with `LBIM`.
    BadMagic,
    /// The version isn't 1.
    BadVersion,
    /// The number of code words is 0 or over 32,768; or the entry is no multiple of 4 below the code's end.
    BadCode,
    /// There are over 256 functions. Or a frame's size is no multiple of 4 or over 65,536, its sites are more than a
    /// quarter of its size, or the offset of one is no multiple of 4 below its size.
    BadLayout,
    /// The bytes end before the last word does.
    Truncated,
    /// Bytes stand behind the last word.
    Extra,
}

/// Why bytes are no image's: the first fault from the left.
#[derive(Clone, Copy, Debug, PartialEq, Eq)]
pub struct ImageFault {
    /// The place of the first byte of what is wrong. At `Truncated` it is the number of bytes.
    pub at: u32,
    pub kind: ImageKind,
}

/// Why bytes gave no image.
#[derive(Debug, Drop, Error)]
pub enum ImageError {
    /// The bytes are no image's.
    #[error("the bytes are no image's")]
    Fault(ImageFault),
    /// No memory is left.
    #[error("no memory is left")]
    Memory,
}

impl From<AllocError> for ImageError {
    ghost from_gives = { λ _ e. e ≡ Memory };

    fn from(_: AllocError) -> Self {
        ImageError::Memory
    }
}

impl<T: Drop> From<AllocFailed<T>> for ImageError {
    ghost from_gives = { λ _ e. e ≡ Memory };

    fn from(_: AllocFailed<T>) -> Self {
        ImageError::Memory
    }
}
