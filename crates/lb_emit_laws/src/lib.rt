//! The code of placed programs, and what is proved of it. No function here computes anything: the definitions stand in
//! specs/, and the code generator above this crate emits what they say.
#![tactic(auto)]

mod laws;

pub use laws::{program_code_is_in_range, program_words_are_code};
