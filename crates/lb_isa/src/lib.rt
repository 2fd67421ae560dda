//! The instruction-set machine: a processor that does one instruction after the other.
#![tactic(auto)]

mod laws;
mod processor;
mod runner;

pub use laws::{
    commits_at_most, fewer_stands_still, halted_stands_still, longer_runs_extend,
    more_replies_keep, replies_are_read, runs_go_on, zero_register_stays,
};
pub use processor::{Isa, Stepped};
pub use runner::{Ending, IsaRun, run};
