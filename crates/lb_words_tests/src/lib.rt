//! Words of command lines, and the jobs that they ask for. It has tests alone.
#![tactic(auto)]

#[cfg(test)]
mod rows;
