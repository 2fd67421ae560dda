// What a reader answers, as a text.
use lb_lines::{LineError, LineFault, LineKind};
use std::alloc::{AllocError, Global};

/// The line and the kind of a fault.
pub fn refusal(alloc: Global, error: LineError) -> Result<String, AllocError> {
    match error {
        LineError::Line(LineFault { line, kind }) => {
            let word = match kind {
                LineKind::Malformed => "malformed",
                LineKind::TooLong => "too-long",
                LineKind::TooMany => "too-many",
            };
            format!(in alloc; "line {line} {word}")
        }
        LineError::Memory => String::from_str(alloc, "memory"),
    }
}
