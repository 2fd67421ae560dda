// The access of a device that waits.

/// The access of a device's word that waits, at a byte address that is a multiple of 4.
#[derive(Clone, Copy, Debug, PartialEq, Eq)]
pub enum Demand {
    /// The word is to be read.
    Read { addr: u32 },
    /// This value is to be written.
    Write { addr: u32, value: u32 },
}
