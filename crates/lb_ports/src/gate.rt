// The gate of a crew.

/// What each worker of a crew calls before each of its tries.
pub trait Gate {
    /// The worker of this number is about to try. `turn` is the number of its own calls before this one, which stays
    /// at 2^64 - 1 once it is there. There is no answer and no fault.
    fn pass(&self, worker: u8, turn: u64);
}

/// A gate that returns at once.
#[derive(Drop)]
pub struct OpenGate;

impl Gate for OpenGate {
    fn pass(&self, _worker: u8, _turn: u64) {}
}
