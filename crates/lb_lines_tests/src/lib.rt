//! Texts of traces, replies, frames and logs, and what is read from them. It has tests alone.
#![tactic(auto)]

#[cfg(test)]
mod answer;
#[cfg(test)]
mod frames;
#[cfg(test)]
mod logs;
#[cfg(test)]
mod traces;
