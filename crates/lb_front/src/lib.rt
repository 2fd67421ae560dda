//! The front of the pipeline: where fetch is, and which address it takes to come next.
#![tactic(auto)]

mod front;
mod item;

pub use front::{Front, Target};
pub use item::FetchItem;
