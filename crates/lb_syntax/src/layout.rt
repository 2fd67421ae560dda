// Where the blocks of a program's functions stand on the stack.
use sqlite_items::Items;

/// The frame of one function.
#[derive(Debug, Drop)]
pub struct FrameLayout {
    /// By how many bytes a call makes the stack pointer smaller.
    pub size: u32,
    /// For each `stackalloc` in text order, how many bytes above the stack pointer its block begins.
    pub sites: Items<u32>,
}

/// A frame for each function, in text order.
#[derive(Debug, Drop)]
pub struct Layout {
    /// As many as the program has functions.
    pub frames: Items<FrameLayout>,
}
