//! The supplied program on the machine, and what `judge` says of its trace. It has tests alone.
#![tactic(auto)]

#[cfg(test)]
mod lamp;
#[cfg(test)]
mod stop;
#[cfg(test)]
mod tests;
