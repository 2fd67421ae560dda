//! Builders of syntax trees, for programs that write programs.
#![tactic(auto)]

mod command;
mod spelled;
mod term;

pub use command::{add, block, one, read_register, repeats, set, two, when, write_register};
pub use spelled::{Spelled, one_name, two_names};
pub use term::{number, operation, two_terms, variable};
