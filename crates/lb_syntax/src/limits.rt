// What a program may ask for.

/// The most functions of a program.
pub const MOST_FUNCTIONS: u64 = 256;

/// The most parameters of a function.
pub const MOST_PARAMS: u64 = 8;

/// The most results of a function.
pub const MOST_RESULTS: u64 = 8;

/// The most words of code, of 4 bytes each.
pub const MOST_WORDS: u64 = 32_768;

/// The most bytes of a frame.
pub const MOST_FRAME: u64 = 32_768;

/// The most bytes of a near frame. The slots of one lie within the reach of an instruction's own immediate.
pub const NEAR_FRAME: u64 = 2_032;
