// Why a race wasn't run.
use lb_machine::ReplayFault;
use std::alloc::AllocError;

/// Why a race wasn't run, or its log not replayed.
#[derive(Clone, Copy, Debug, PartialEq, Eq)]
pub enum Stop {
    /// The number of workers or of entries is out of its range.
    Range,
    /// The log can't be replayed, from this entry on.
    BadEvent(u32),
    /// No memory is left.
    Memory,
}

impl From<AllocError> for Stop {
    fn from(_: AllocError) -> Self {
        Stop::Memory
    }
}

impl From<ReplayFault> for Stop {
    fn from(fault: ReplayFault) -> Self {
        match fault {
            ReplayFault::BadEvent { at } => Stop::BadEvent(at),
            ReplayFault::Memory => Stop::Memory,
        }
    }
}
