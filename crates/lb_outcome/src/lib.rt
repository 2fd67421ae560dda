//! The outcome of an instruction, the registers and RAM: what all that runs instructions shares.
#![tactic(auto)]

mod fetching;
mod memory_map;
mod outcomes;
mod ram;
mod registers;
mod types;

pub use fetching::{at_address, decode_all};
pub use memory_map::in_ram;
pub use outcomes::{add_immediate, halt, outcome};
pub use ram::Ram;
pub use registers::Registers;
pub use types::{Executed, Outcome};
