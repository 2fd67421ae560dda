//! Machine code of placed programs, run by the instruction-set machine. It has tests alone.
#![tactic(auto)]

#[cfg(test)]
mod compiled;
#[cfg(test)]
mod large;
#[cfg(test)]
mod ran;
#[cfg(test)]
mod small;
