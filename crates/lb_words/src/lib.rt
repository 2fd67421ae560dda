//! What the words of a command line ask for: a mode and its options.
//!
//! The words are the program's name and then, in any order, one mode and each of these at most once: `--events N`
//! (1 to 4,000,000, else 400,000), `--workers W` (1 to 8, else 4), `--seed S` (0 to 4,294,967,295, else 0), `--log`
//! and `--trace`. A value is the next word, or follows a `=`. A number is decimal digits, and a `+` may stand before
//! them. `--` ends the options. An option that a mode doesn't use does nothing.
#![tactic(auto)]

mod command;
mod found;
mod job;
mod read;

pub use job::{Job, Mode};
pub use read::{JobError, job_of};
