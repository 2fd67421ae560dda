//! Large programs that a seed makes.
#![tactic(auto)]

mod drawn;
mod function;
mod laws;
mod program;
mod words;

pub use laws::all_are_large;
pub use program::{checked_program, large_program};
