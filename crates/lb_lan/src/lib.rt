//! The network chip as the serial bus sees it: registers, a receive queue, and transactions of single bytes.
#![tactic(auto)]

mod frames;
mod lan;
mod phase;
mod queue;
mod registers;

pub use lan::Lan;
pub use phase::Phase;
pub use queue::Queue;
pub use registers::Register;
