//! Images: compiled code with the layout of its frames, and the bytes that stand for it.
//!
//! The bytes of an image are those of its words, each with the least significant byte first. The words are, in order:
//! the one whose bytes are `LBIM`; the version, 1; how many words the code has, 1 to 32,768; the entry, a multiple of 4
//! below the end of the code; how many functions there are, at most 256. Then for each function the size of its frame,
//! a multiple of 4 and at most 65,536, the number of its sites, at most a quarter of the size, and the offset of each
//! site, a multiple of 4 below the size. The code's words, of any value, stand last, and nothing behind them.
#![tactic(auto)]

mod error;
mod field;
mod image;
mod laws;
mod reading;
mod writing;

pub use error::{ImageError, ImageFault, ImageKind};
pub use image::{Code, Image};
pub use laws::{fault_or_image, one_spelling};
pub use reading::from_bytes;
pub use writing::to_bytes;
