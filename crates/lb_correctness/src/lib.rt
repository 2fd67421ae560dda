//! The whole theorem on the machine: what a program's image does there is what the program says, in
//! every order of the machine's steps. And the image of the supplied program.
#![tactic(auto)]

mod image;
mod laws;

pub use image::supplied_image;
pub use laws::{lamp_keeps, machines_keep};
