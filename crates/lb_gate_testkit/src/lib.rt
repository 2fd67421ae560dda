//! What tests of several crates share: gates that hold workers, or count them.
#![tactic(auto)]

pub mod gates;
