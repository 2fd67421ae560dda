//! Worked examples of the source language, run by its interpreter: what no clause of it says.
//! It has tests alone.
#![tactic(auto)]

#[cfg(test)]
mod devices;
#[cfg(test)]
mod fuel;
#[cfg(test)]
mod memory;
#[cfg(test)]
mod order;
#[cfg(test)]
mod programs;
