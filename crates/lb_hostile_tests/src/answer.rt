// What is answered to bytes that were cut or changed.
ghost use Rattle.std.specs.Prelude.{◌≤◌, length};

use crate::kept::{keeps_frames, keeps_log, keeps_replies, keeps_trace};
use lb_image::{ImageError, from_bytes, to_bytes};
use lb_lines::{LineError, LineFault, LineKind, read_frames, read_log, read_replies, read_trace};
use std::alloc::{AllocError, Global};

/// What bytes are read as.
#[derive(Clone, Copy, Debug, PartialEq, Eq)]
pub enum Form {
    Image,
    Trace,
    Replies,
    Frames,
    Log,
}

/// What is answered: `+` where the bytes are read, and what was read is written and read again as the same; else the
/// place of the fault and, where it isn't a malformed line, its kind.
pub fn answer(alloc: Global, form: Form, bytes: &[u8]) -> Result<String, AllocError> {
    if bytes.len() > 1_000_000 {
        return String::from_str(alloc, "long");
    }
    match form {
        Form::Image => image(alloc, bytes),
        Form::Trace => trace(alloc, bytes),
        Form::Replies => replies(alloc, bytes),
        Form::Frames => frames(alloc, bytes),
        Form::Log => log(alloc, bytes),
    }
}

fn image(alloc: Global, bytes: &[u8]) -> Result<String, AllocError> {
    match from_bytes(alloc, bytes) {
        Ok(image) => {
            let written = to_bytes(alloc, &image)?;
            word(alloc, written.as_slice() == bytes)
        }
        Err(ImageError::Fault(fault)) => {
            let at = fault.at;
            let kind = fault.kind;
            format!(in alloc; "{at}-{kind:?}")
        }
        Err(ImageError::Memory) => Err(AllocError),
    }
}

fn trace(alloc: Global, bytes: &[u8]) -> Result<String, AllocError>
    requires { length bytes.now ≤ 1000000 }
{
    match read_trace(alloc, bytes, 1) {
        Ok(events) => word(alloc, keeps_trace(alloc, &events)?),
        Err(error) => refusal(alloc, error),
    }
}

fn replies(alloc: Global, bytes: &[u8]) -> Result<String, AllocError>
    requires { length bytes.now ≤ 1000000 }
{
    match read_replies(alloc, bytes, 1) {
        Ok(replies) => word(alloc, keeps_replies(alloc, &replies)?),
        Err(error) => refusal(alloc, error),
    }
}

fn frames(alloc: Global, bytes: &[u8]) -> Result<String, AllocError>
    requires { length bytes.now ≤ 1000000 }
{
    match read_frames(alloc, bytes, 1) {
        Ok(frames) => word(alloc, keeps_frames(alloc, &frames)?),
        Err(error) => refusal(alloc, error),
    }
}

fn log(alloc: Global, bytes: &[u8]) -> Result<String, AllocError>
    requires { length bytes.now ≤ 1000000 }
{
    match read_log(alloc, bytes, 1) {
        Ok(log) => word(alloc, keeps_log(alloc, &log)?),
        Err(error) => refusal(alloc, error),
    }
}

// The word for what was read.
fn word(alloc: Global, is_kept: bool) -> Result<String, AllocError> {
    String::from_str(alloc, if is_kept { "+" } else { "lost" })
}

// The line of a fault, and its kind where that isn't the usual one.
fn refusal(alloc: Global, error: LineError) -> Result<String, AllocError> {
    match error {
        LineError::Line(LineFault { line, kind }) => match kind {
            LineKind::Malformed => format!(in alloc; "{line}"),
            LineKind::TooLong => format!(in alloc; "{line}-long"),
            LineKind::TooMany => format!(in alloc; "{line}-many"),
        },
        LineError::Memory => Err(AllocError),
    }
}
