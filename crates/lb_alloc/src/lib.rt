//! Places for the variables of flat programs: which variables are live where, whether places are
//! accepted, and places that are.
#![tactic(auto)]

mod allocation;
mod interference;
mod judgement;
mod liveness;
mod proposal;
mod separation;
mod step;
mod variables;

pub use allocation::allocate;
pub use judgement::accepts;
