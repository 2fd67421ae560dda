//! What tests of the board and of machines share: the frames that are to arrive, written as a text.
#![tactic(auto)]

mod frames;

pub use frames::{ScriptFault, script};
