//! Worked examples of source texts: the canonical text of those that are accepted, the fault of those that are refused.
//! It has tests alone.
#![tactic(auto)]

#[cfg(test)]
mod answer;
#[cfg(test)]
mod brackets;
#[cfg(test)]
mod bytes;
#[cfg(test)]
mod grammar;
#[cfg(test)]
mod limits;
#[cfg(test)]
mod spellings;
#[cfg(test)]
mod worked;
