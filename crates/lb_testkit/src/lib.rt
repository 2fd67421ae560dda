//! What tests of several crates share: calls of the whole program on words and bytes, and the compiled code beside the
//! source.
#![tactic(auto)]

pub mod beside;
pub mod call;
