//! The supplied program: its text and its tree, and what it does for replies of a board. It has tests alone.
#![tactic(auto)]

#[cfg(test)]
mod runs;
#[cfg(test)]
mod text;
