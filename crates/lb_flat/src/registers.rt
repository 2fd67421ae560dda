// The registers of the processor that are left to placed code, by their numbers. Those below are the compiler's
// own: they pass arguments and results, and hold what no command names.

/// The first of the registers in which variables are kept.
pub const FIRST_VARIABLE_REGISTER: u8 = 18;

/// The last of the registers in which variables are kept.
pub const LAST_VARIABLE_REGISTER: u8 = 29;

/// A register that holds no variable: `place` takes it for a value on its way from or to a slot.
pub const FIRST_SCRATCH_REGISTER: u8 = 30;

/// Another such register, for commands that read two slots.
pub const SECOND_SCRATCH_REGISTER: u8 = 31;

/// The most registers that a function saves in its frame: each that is left to placed code, and the one that holds
/// the address to return to.
pub const MOST_SAVED: u64 = 15;
