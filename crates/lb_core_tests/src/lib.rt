//! Programs in the pipelined core, under schedules that are given kind by kind. It has tests alone.
#![tactic(auto)]

#[cfg(test)]
mod causes;
#[cfg(test)]
mod firing;
#[cfg(test)]
mod paths;
#[cfg(test)]
mod schedules;
