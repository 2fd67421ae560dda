// Whether what was read from a text is read again from what is printed of it.
ghost use Rattle.std.specs.Prelude.{◌↔◌, IsTrue, All};
ghost use Rattle.lb_lines.specs.Log.{HasDigit};

use lb_lines::{print_log, read_frames, read_log, read_replies, read_trace};
use lb_trace::{Entry, Event, Frame, hex_digits, print_trace};
use std::alloc::{AllocError, Global};

/// Whether the events are kept.
pub fn keeps_trace(alloc: Global, events: &[Event]) -> Result<bool, AllocError> {
    let text = print_trace(alloc, events)?;
    if text.len() > 1_000_000 {
        return Ok(false);
    }
    Ok(read_trace(alloc, &text, 1).is_ok_and(|again| again.as_slice() == events))
}

/// Whether the entries are kept.
pub fn keeps_log(alloc: Global, entries: &[Entry]) -> Result<bool, AllocError> {
    if !have_digits(entries) {
        return Ok(false);
    }
    let text = print_log(alloc, entries)?;
    if text.len() > 1_000_000 {
        return Ok(false);
    }
    Ok(read_log(alloc, &text, 1).is_ok_and(|again| again.as_slice() == entries))
}

// Whether each worker has a digit.
fn have_digits(entries: &[Entry]) -> bool
    ensures { IsTrue result ↔ All HasDigit entries.now }
{
    entries.iter().all(|entry| entry.worker < 8)
}

/// Whether the replies are kept.
pub fn keeps_replies(alloc: Global, replies: &[u32]) -> Result<bool, AllocError> {
    let mut text = Vec::new(alloc);
    for reply in replies {
        text.extend_from_slice(&hex_digits(*reply))?;
        text.push(b'\n')?;
    }
    if text.len() > 1_000_000 {
        return Ok(false);
    }
    Ok(read_replies(alloc, &text, 1).is_ok_and(|again| again.as_slice() == replies))
}

/// Whether the frames are kept.
pub fn keeps_frames(alloc: Global, frames: &[Frame]) -> Result<bool, AllocError> {
    let text = frames_text(alloc, frames)?;
    if text.len() > 1_000_000 {
        return Ok(false);
    }
    match read_frames(alloc, text.as_bytes(), 1) {
        Ok(again) => Ok(are_same(&again, frames)),
        Err(_) => Ok(false),
    }
}

// A line for each frame.
fn frames_text(alloc: Global, frames: &[Frame]) -> Result<String, AllocError> {
    let mut text = String::new(alloc);
    for frame in frames {
        text.push_str(if frame.error() { "!" } else { "" })?;
        text.push_str(hex::encode(alloc, frame.bytes())?.as_str())?;
        text.push('\n')?;
    }
    Ok(text)
}

fn are_same(one: &[Frame], other: &[Frame]) -> bool {
    if one.len() != other.len() {
        return false;
    }
    for (a, b) in one.iter().zip(other) {
        if a.error() != b.error() || a.bytes() != b.bytes() {
            return false;
        }
    }
    true
}
