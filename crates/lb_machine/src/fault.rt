// Why a machine doesn't fire, and why a log isn't replayed.
ghost use Rattle.std.specs.Prelude.{◌≡◌};
ghost use Rattle.lb_machine.specs.declared.fault.ReplayFault.TheVariants.{BadEvent, Memory};

use lb_rv::Cause;
use std::alloc::AllocError;
use thiserror::Error;

/// Why a kind wasn't fired: the first of these that is so.
#[derive(Clone, Copy, Debug, PartialEq, Eq, Drop)]
pub enum NotFired {
    /// The core is halted.
    Halted { cause: Cause },
    /// The log has as many entries as it may have.
    Full,
    /// The kind may not be fired now.
    GuardFalse,
}

/// Why there is no replay of a log.
#[derive(Clone, Copy, Debug, PartialEq, Eq, Error)]
pub enum ReplayFault {
    /// The entry at this place, from 0, is the first that can't be fired: the core is halted
    /// before it, or its guard is false.
    #[error("the entry at {at} can't be fired")]
    BadEvent { at: u32 },
    /// No memory is left.
    #[error("no memory is left")]
    Memory,
}

/// The entry of a log that is the first that can't be fired.
#[derive(Clone, Copy)]
pub(crate) struct BadEntry {
    /// Its place, from 0.
    pub(crate) at: u32,
}

impl From<BadEntry> for ReplayFault {
    ghost from_gives = { λ bad e. e ≡ BadEvent bad.at };

    fn from(bad: BadEntry) -> Self {
        ReplayFault::BadEvent { at: bad.at }
    }
}

impl From<AllocError> for ReplayFault {
    ghost from_gives = { λ _ e. e ≡ Memory };

    fn from(_: AllocError) -> Self {
        ReplayFault::Memory
    }
}
