//! The pipelined core: four stages of guarded atomic rows. In whatever order its rows are fired, it does what the
//! instruction-set machine does.
#![tactic(auto)]

mod demand;
mod laws;
mod pipeline;
mod scoreboard;

pub use demand::Demand;
pub use laws::{
    booted_fits, booted_stands, every_order_stands, never_stuck, potential_is_bounded,
    potential_rises, rows_fit, rows_stand, steps_are_bounded,
};
pub use pipeline::Core;
