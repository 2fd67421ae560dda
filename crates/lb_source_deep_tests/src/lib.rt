//! The interpreter of the source language on the deepest programs that the rules let through. It has tests alone.
#![tactic(auto)]

#[cfg(test)]
mod chain;
#[cfg(test)]
mod deep;
