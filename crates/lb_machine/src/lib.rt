//! The machine: the pipelined core and the board joined, with one log of all steps. The log tells
//! all: the machine is what it replays to.
#![tactic(auto)]

mod fault;
mod frames;
mod job;
mod laws;
mod machine;
mod replaying;
mod system;

pub use fault::{NotFired, ReplayFault};
pub use job::FixedJob;
pub use laws::{
    entries_are_bounded, events_are_few, logs_fit, logs_go_on, logs_stand, most_entries_are,
};
pub use machine::{MOST_ENTRIES, Machine, Parts};
pub use replaying::replay;
