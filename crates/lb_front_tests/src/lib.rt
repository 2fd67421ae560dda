//! Fetching and predicting. It has tests alone.
#![tactic(auto)]

#[cfg(test)]
mod predictions;
