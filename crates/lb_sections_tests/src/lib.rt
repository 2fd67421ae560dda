//! Inputs and their sections. It has tests alone.
#![tactic(auto)]

#[cfg(test)]
mod rows;
