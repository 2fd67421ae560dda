//! A queue of two items. It has tests alone.
#![tactic(auto)]

#[cfg(test)]
mod queue;
