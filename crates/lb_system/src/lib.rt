//! The whole program as one call: words and an input in, a report out.
#![tactic(auto)]

mod answer;
mod compiled;
mod crew;
mod fault;
mod large;
mod line;
mod machine_report;
mod machines;
mod modes;
mod report;
mod request;
mod run_report;
mod shown;
mod source;
mod top;

pub use fault::{Fault, FormFault};
pub use lb_check::CheckFault;
pub use lb_image::{Image, ImageFault, ImageKind};
pub use lb_lines::{LineFault, LineKind};
pub use lb_text::{TextFault, TextKind};
pub use top::{Ended, bulb, plain};
