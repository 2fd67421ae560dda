//! The sections of an input.
//!
//! The input is cut at its marks, the lines that are exactly `%%`; a mark ends as every line does, with a line feed
//! or with the input, and one carriage return before that belongs to the end. What stands between two marks is a
//! section: whole lines with their ends, or nothing. Lines are counted from 1 over the whole input.
#![tactic(auto)]

mod cut;

pub use cut::{Section, SectionsError, section_at, sections_of};
