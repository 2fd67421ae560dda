//! The operations on words beside figures that were worked out apart. It has tests alone.
#![tactic(auto)]

#[cfg(test)]
mod operations;
