//! Worked examples of canonical texts: what a reader expects to see printed. It has tests alone.
#![tactic(auto)]

#[cfg(test)]
mod programs;
#[cfg(test)]
mod sketch;
