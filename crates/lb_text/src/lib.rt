//! Source texts: reads a program from one, and prints a program as one.
#![tactic(auto)]

mod call;
mod command;
mod error;
mod function;
mod names;
mod parse_error;
mod program;
mod simple;
mod term;
mod token;

pub use error::ReadError;
pub use lb_printing::print_program;
pub use lb_spelling::{TextFault, TextKind};
pub use program::read_program;
