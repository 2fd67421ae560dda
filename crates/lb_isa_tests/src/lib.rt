//! Programs run one instruction after the other, and what is told of each: its accesses of devices, how it ends, and its
//! registers. It has tests alone.
#![tactic(auto)]

#[cfg(test)]
mod accesses;
#[cfg(test)]
mod halts;
#[cfg(test)]
mod programs;
#[cfg(test)]
mod runs;
