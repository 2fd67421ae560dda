//! What the pipeline decodes, and its outcome.
#![tactic(auto)]

mod item;

pub use item::{DecodeItem, execute};
pub use lb_outcome::{Executed, Outcome};
pub use lb_rv::{reads, writes};
