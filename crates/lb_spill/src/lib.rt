//! Placed code: the operations of a flat program work on registers, and the values of variables
//! that have slots are moved from and to them.
#![tactic(auto)]

mod code;
mod placing;
mod slots;

pub use placing::place;
