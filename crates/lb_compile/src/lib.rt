//! The compiler: from a checked program to an image of its code.
#![tactic(auto)]

mod compiler;

pub use compiler::compile;
