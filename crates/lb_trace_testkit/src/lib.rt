//! What tests of several crates share that speak of kinds and accesses: numbers and lines of a text, kinds by their
//! letters, and the accesses of the lamp's program written in short.
#![tactic(auto)]

pub mod kinds;
pub mod lamp;
pub mod text;
