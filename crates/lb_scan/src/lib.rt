//! Reads one token of a source text, where it is known what may stand there.
#![tactic(auto)]

mod bytes;
mod gap;
mod number;
mod scanner;
mod spelling;
mod syntax_error;
mod token;

pub use scanner::{scan, scan_or_end};
pub use syntax_error::SyntaxError;
pub use token::Token;
