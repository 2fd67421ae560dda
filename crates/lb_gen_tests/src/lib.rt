//! Large programs of seeds: what they need, and their texts. It has tests alone.
#![tactic(auto)]

#[cfg(test)]
mod programs;
