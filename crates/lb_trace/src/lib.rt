//! The words that a run exchanges with its devices, and the schedule of a machine's steps.
#![tactic(auto)]

ghost use Rattle.std.specs.Prelude.{◌≡◌, ◌↔◌, IfOk, IsTrue};
ghost use Rattle.lb_trace.specs.Prefix.{IsPrefix};
ghost use Rattle.lb_trace.specs.Trace.{reply_values};

mod events;
mod frame;
mod hex;
mod print;

pub use events::Trace;
pub use frame::Frame;
pub use hex::hex_digits;
pub use print::{append_trace, print_trace};
use std::alloc::{AllocError, Global};

/// One access of a device's word, at a byte address.
#[derive(Clone, Copy, Debug, PartialEq, Eq)]
pub enum Event {
    /// This value was read.
    Ld { addr: u32, value: u32 },
    /// This value was written.
    St { addr: u32, value: u32 },
}

/// What a step of the machine does: the first six are the processor's, the others the board's.
#[derive(Clone, Copy, Debug, PartialEq, Eq)]
pub enum Kind {
    /// An instruction is fetched, and the next address predicted.
    Fetch,
    /// An instruction is decoded, and its registers are read.
    Decode,
    /// An instruction is executed.
    Execute,
    /// The oldest access is done in RAM.
    Ram,
    /// The oldest access is done at a device.
    Mmio,
    /// The oldest instruction ends.
    Writeback,
    /// The network chip awakes.
    Boot,
    /// A byte goes over the serial bus, and one comes back.
    Shift,
    /// The next frame arrives.
    Arrive,
}

/// A step of the machine, and who made it.
#[derive(Clone, Copy, Debug, PartialEq, Eq)]
pub struct Entry {
    /// The worker's number, from 0.
    pub worker: u8,
    pub kind: Kind,
}

/// The values that were read, in order. Fails only for want of memory.
pub fn replies(alloc: Global, trace: &[Event]) -> Result<Vec<u32>, AllocError>
    ensures { IfOk result (λ values. values.items ≡ reply_values trace.now) }
{
    trace
        .iter()
        .filter_map(|event| match *event {
            Event::Ld { value, .. } => Some(value),
            Event::St { .. } => None,
        })
        .collect(alloc)
}

/// Whether b is a followed by a list, which may be empty.
pub fn is_prefix(a: &[Event], b: &[Event]) -> bool
    ensures { IsTrue result ↔ IsPrefix a.now b.now }
{
    b.starts_with(a)
}
