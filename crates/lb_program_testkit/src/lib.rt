//! Programs of texts, for tests: read, checked, flat, and with places for their variables.
#![tactic(auto)]

mod places;
mod programs;

pub use places::chosen_places;
pub use programs::{NoProgram, checked_program, flat_program, text_program};
