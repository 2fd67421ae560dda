//! The canonical text of a program.
#![tactic(auto)]

mod command;
mod lines;
mod program;
mod term;
mod words;

pub use program::print_program;
