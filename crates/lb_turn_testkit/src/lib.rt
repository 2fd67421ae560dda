//! What tests of turns over several values share: a turn of one seat and a turn of two, and what their seats are told.
#![tactic(auto)]

pub mod alone;
pub mod pair;
