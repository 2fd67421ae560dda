//! The meaning of the source language: what a program does, as a definition, and an interpreter that does it.
#![tactic(auto)]

mod ends;
mod laws;
mod machine;
mod memory;
mod run;
mod value;
mod variables;
mod whole;

pub use ends::{Reason, SourceEnd, SourceRun};
pub use laws::{any_bound_serves, more_fuel_goes_on, stack_stays_above};
pub use whole::interpret;
