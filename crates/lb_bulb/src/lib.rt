//! The supplied program, which is for the lamp: it never goes wrong.
#![tactic(auto)]

mod boot;
mod exchange;
mod laws;
mod packet;
mod round;
mod term;
mod text;
mod transaction;
mod tree;
mod waits;
mod words;

pub use laws::{keeps_rules, never_goes_wrong};
pub use text::source;
pub use tree::program;
