//! Words of instructions as the GNU assembler gives them for rv32im, and what is told of them. It has tests alone.
#![tactic(auto)]

#[cfg(test)]
mod listing;
#[cfg(test)]
mod words;
