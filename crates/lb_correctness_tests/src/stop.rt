// Why there is no machine.
use lb_board_testkit::ScriptFault;
use std::alloc::AllocError;

/// Why there is no machine.
#[derive(Clone, Copy, Debug, PartialEq, Eq)]
pub enum Stop {
    /// What is written down for frames is none.
    Frames,
    /// No memory is left.
    Memory,
}

impl From<AllocError> for Stop {
    fn from(_: AllocError) -> Self {
        Stop::Memory
    }
}

impl From<ScriptFault> for Stop {
    fn from(fault: ScriptFault) -> Self {
        match fault {
            ScriptFault::Text => Stop::Frames,
            ScriptFault::Memory => Stop::Memory,
        }
    }
}
