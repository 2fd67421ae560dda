//! Call graphs: the first function on a cycle, and the greatest weight of a path.
#![tactic(auto)]

mod cycle;
mod graph;
mod weight;

pub use cycle::first_on_cycle;
pub use graph::Graph;
pub use weight::greatest_weight;
