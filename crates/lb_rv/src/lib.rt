//! The instruction table of RV32I and the M extension: instructions, their words and their text.
#![tactic(auto)]

mod decoder;
mod encoder;
mod instr;
mod listing;
mod shape;

pub use decoder::decode;
pub use encoder::encode;
pub use instr::{Cause, Instr};
pub use listing::print_line;
pub use shape::{reads, writes};
