// Why a line of a script has no answer.
use hex::FromHexError;
use lb_board_testkit::ScriptFault;
use std::alloc::{AllocError, AllocFailed};

/// Why a line of a script has no answer.
#[derive(Clone, Copy, Debug, PartialEq, Eq)]
pub enum Stop {
    /// The line isn't in form.
    Line,
    /// What was foretold isn't what came.
    Foretold,
    /// No memory is left.
    Memory,
}

impl From<AllocError> for Stop {
    fn from(_: AllocError) -> Self {
        Stop::Memory
    }
}

impl From<AllocFailed<u8>> for Stop {
    fn from(_: AllocFailed<u8>) -> Self {
        Stop::Memory
    }
}

impl From<ScriptFault> for Stop {
    fn from(fault: ScriptFault) -> Self {
        match fault {
            ScriptFault::Text => Stop::Line,
            ScriptFault::Memory => Stop::Memory,
        }
    }
}

impl From<FromHexError> for Stop {
    fn from(_: FromHexError) -> Self {
        Stop::Line
    }
}
