//! The board: general-purpose pins with a lamp, a serial bus, and the network chip on it.
#![tactic(auto)]

mod board;
mod registers;

pub use board::Board;
pub use registers::Register;
