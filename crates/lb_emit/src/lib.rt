//! The machine code of placed programs.
#![tactic(auto)]

mod buffer;
mod emitter;
mod frame;
mod immediates;
mod instructions;
mod offsets;
mod program;
mod registers;
mod saved;
mod sets;

pub use program::{Emitted, emit};
