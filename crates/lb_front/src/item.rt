// What was fetched.

/// What was fetched.
#[derive(Clone, Copy, Debug, Default, PartialEq, Eq)]
pub struct FetchItem {
    /// The byte address that it was fetched from.
    pub pc: u32,
    /// The code's word there; none at an address of no word.
    pub word: Option<u32>,
    /// The address that is taken to come next.
    pub predicted: u32,
    /// The epoch in which it was fetched.
    pub epoch: bool,
}
