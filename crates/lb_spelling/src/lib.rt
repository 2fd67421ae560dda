//! How programs are spelled: their tokens, their grammar, and where a text that isn't one goes wrong.
#![tactic(auto)]

mod fault;
mod laws;
mod signs;
mod symbol;

pub use fault::{TextFault, TextKind};
pub use laws::{every_text, one_fault, one_tree};
pub use signs::sign_of;
pub use symbol::Symbol;
