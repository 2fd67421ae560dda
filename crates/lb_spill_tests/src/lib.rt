//! Worked examples of placed code: texts, places for their variables, and the commands that they
//! become. It has tests alone.
#![tactic(auto)]

#[cfg(test)]
mod answer;
mod doubling;
#[cfg(test)]
mod print;
#[cfg(test)]
mod worked;

pub use doubling::doubled_variable;
