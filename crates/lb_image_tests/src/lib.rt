//! Bytes of images as they are read and written, and the faults of bytes that are none. It has tests alone.
#![tactic(auto)]

#[cfg(test)]
mod answer;
#[cfg(test)]
mod rows;
