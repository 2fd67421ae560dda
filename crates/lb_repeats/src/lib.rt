//! What two calls of the same words on the same bytes owe to each other.
#![tactic(auto)]

mod laws;

pub use laws::calls_repeat;
