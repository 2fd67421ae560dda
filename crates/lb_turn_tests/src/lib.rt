//! A turn over a small machine in memory, on one thread and on two. It is for tests alone.
#![tactic(auto)]

mod gate;
mod tape;
#[cfg(test)]
mod tests;
mod workers;

pub use gate::Gate;
pub use tape::{NotFired, Tape};
pub use workers::{Difference, Worker, fill, first_difference, meet_holder};
