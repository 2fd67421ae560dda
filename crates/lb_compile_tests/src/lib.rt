//! What compiled programs do on the instruction-set machine, and how many loads and stores their code has. It has tests
//! alone.
#![tactic(auto)]

#[cfg(test)]
mod answer;
#[cfg(test)]
mod memory_words;
#[cfg(test)]
mod runs;
