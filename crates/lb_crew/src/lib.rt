//! Workers that fire a machine's kinds until its log is full or its core is halted: one alone, or several that race.
#![tactic(auto)]

mod alone;
mod draws;
mod laws;
mod passes;
mod racing;

pub use alone::{serial, serial_until};
pub use laws::seed_decides;
pub use racing::{MOST_WORKERS, race};
