//! Outcomes of decoded items. It has tests alone.
#![tactic(auto)]

#[cfg(test)]
mod items;
