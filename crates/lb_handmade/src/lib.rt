//! Programs made by hand, for tests: checked, and laid out with the blocks of each frame packed.
#![tactic(auto)]

mod handmade;
mod packing;
mod size;

pub use handmade::{NotChecked, checked};
pub use packing::packed_layout;
pub use size::has_few_parts;
