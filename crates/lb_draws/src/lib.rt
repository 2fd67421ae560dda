//! Numbers that a seed and a worker decide, for choices that can be made again.
#![tactic(auto)]

mod laws;
mod stream;

pub use laws::draws_are_words;
pub use stream::Draws;
