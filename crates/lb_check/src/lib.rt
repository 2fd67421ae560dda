//! The rules of the language, and what a program that keeps them needs.
#![tactic(auto)]

mod call_graph;
mod checked;
mod checker;
mod commands;
mod counts;
mod fault;
mod functions;
mod laws;
mod lookup;
mod names;
mod needs;
mod rule;
mod rules;

pub use checked::{Checked, Needs};
pub use checker::check;
pub use counts::depth_of_block;
pub use fault::{CheckError, CheckFault};
pub use laws::{not_both, one_fault};
pub use names::variable_names;
