// Why a test's text leads to no machine.
use lb_board_testkit::ScriptFault;
use lb_machine::ReplayFault;
use std::alloc::{AllocError, AllocFailed};

/// Why a text leads to no machine.
#[derive(Clone, Copy, Debug, PartialEq, Eq)]
pub enum Stop {
    /// The text isn't in form.
    Text,
    /// The log can't be replayed, from this entry on.
    BadEvent(u32),
    /// No memory is left.
    Memory,
}

impl From<AllocError> for Stop {
    fn from(_: AllocError) -> Self {
        Stop::Memory
    }
}

impl From<AllocFailed<u32>> for Stop {
    fn from(_: AllocFailed<u32>) -> Self {
        Stop::Memory
    }
}

impl From<ScriptFault> for Stop {
    fn from(fault: ScriptFault) -> Self {
        match fault {
            ScriptFault::Text => Stop::Text,
            ScriptFault::Memory => Stop::Memory,
        }
    }
}

impl From<ReplayFault> for Stop {
    fn from(fault: ReplayFault) -> Self {
        match fault {
            ReplayFault::BadEvent { at } => Stop::BadEvent(at),
            ReplayFault::Memory => Stop::Memory,
        }
    }
}
