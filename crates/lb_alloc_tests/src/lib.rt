//! Places that are accepted, places that are refused, and places that are made. It has tests alone.
#![tactic(auto)]

#[cfg(test)]
mod allocated;
#[cfg(test)]
mod answer;
#[cfg(test)]
mod verdicts;
