//! The syntax tree of the source language, and the layout of its stack frames.
#![tactic(auto)]

mod laws;
mod layout;
mod limits;
mod name;
mod nesting;
mod tree;

pub use laws::{distinct_is_set_size, limits_are, one_stack_need};
pub use layout::{FrameLayout, Layout};
pub use limits::{MOST_FRAME, MOST_FUNCTIONS, MOST_PARAMS, MOST_RESULTS, MOST_WORDS, NEAR_FRAME};
pub use name::{Name, NameFault, are_name_bytes, is_name_byte, starts_name};
pub use nesting::brackets;
pub use tree::{Action, Block, Cmd, Expr, Function, Op, Program, Width};
