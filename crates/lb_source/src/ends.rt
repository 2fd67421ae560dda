// How a run of a program ends.
use lb_trace::Trace;

/// Why a run is undefined.
#[derive(Clone, Copy, Debug, PartialEq, Eq)]
pub enum Reason {
    /// An expression or a function's result reads a variable that isn't set.
    UnsetVariable,
    /// The first byte at which a load or a store fails isn't owned.
    NotOwned,
    /// The first byte at which a load fails is owned and unset.
    UnsetByte,
    /// The address of a device access isn't a multiple of 4.
    Unaligned,
    /// The address of a device access is a multiple of 4 outside the devices.
    OutOfRange,
}

/// How a run ends.
#[derive(Clone, Copy, Debug, PartialEq, Eq)]
pub enum SourceEnd {
    /// Fuel is to be spent, and none is left.
    Spent,
    /// A reply is asked for, and none is left.
    Starved,
    /// The language gives the program no meaning there.
    Undefined(Reason),
}

/// What a program does: its accesses of devices, in order, and how it ends.
#[derive(Debug, Drop)]
pub struct SourceRun {
    pub trace: Trace,
    pub end: SourceEnd,
}
