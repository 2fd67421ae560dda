// What an event leads to.

/// Where an event leads a machine of states `S` that ends with a `T`.
#[derive(Clone, Copy)]
pub enum Progress<S, T> {
    /// On to this state.
    Within(S),
    /// To its end.
    Done(T),
    /// The event fits nowhere.
    Off,
}

/// How boot or a round ends.
#[derive(Clone, Copy)]
pub enum Ending {
    Whole,
    /// A wait in it was in vain.
    GivenUp,
}
