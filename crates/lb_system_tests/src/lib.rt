//! Worked examples, run through the whole program: modes, reports, compiled code beside its source, limits, faults of
//! ports. It has tests alone.
#![tactic(auto)]

#[cfg(test)]
mod adapters;
#[cfg(test)]
mod check_limits;
#[cfg(test)]
mod checks;
#[cfg(test)]
mod compared;
#[cfg(test)]
mod large;
#[cfg(test)]
mod lists;
#[cfg(test)]
mod machines;
#[cfg(test)]
mod operations;
#[cfg(test)]
mod pieces;
#[cfg(test)]
mod prints;
#[cfg(test)]
mod run_limits;
#[cfg(test)]
mod runs;
#[cfg(test)]
mod sections;
#[cfg(test)]
mod words;
