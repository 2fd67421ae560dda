//! The lines of traces, replies, frames and logs: reads them from a text, and prints a log.
#![tactic(auto)]

mod digits;
mod fault;
mod form;
mod frames;
mod laws;
mod log;
mod read;
mod trace;

pub use fault::{LineError, LineFault, LineKind};
pub use laws::{one_answer, printed_says_itself};
pub use log::print_log;
pub use read::{read_frames, read_log, read_replies, read_trace};
