// The text of a trace: a line for each event.
ghost use Rattle.std.specs.Prelude.{◌≡◌, ◌+◌, ◌<◌, ◌≤◌, ◌++◌, IfOk, OnOk, OnErr, vec_len, vec_capacity};
ghost use Rattle.lb_trace.specs.TraceText.{access_line, event_line, trace_text};

use crate::{Event, hex_digits};
use std::alloc::{AllocError, Global};

/// The bytes of each line of a trace's text.
const LINE_LENGTH: usize = 21;

/// A line `ld A V` or `st A V` for each event, with the address A and the value V as eight
/// hexadecimal digits in lower case. Fails only for want of memory.
pub fn print_trace(alloc: Global, trace: &[Event]) -> Result<Vec<u8>, AllocError>
    ensures { IfOk result (λ text. text.items ≡ trace_text trace.now) }
{
    let mut text = Vec::new(alloc);
    append_trace(&mut text, trace)?;
    Ok(text)
}

/// Adds what `print_trace` prints to the end of a text, which stays as it was for want of memory.
pub fn append_trace(text: &mut Vec<u8>, trace: &[Event]) -> Result<(), AllocError>
    ensures ok { OnOk result (text.new.items ≡ text.old.items ++ trace_text trace.now) }
    ensures err { OnErr result (text.new.items ≡ text.old.items) }
{
    let room = trace.len().checked_mul(LINE_LENGTH).ok_or(AllocError)?;
    text.try_reserve(room)?;
    for event in trace {
        push_event(text, *event)?;
    }
    Ok(())
}

// Adds one line. Fails only where the text has no room for it.
fn push_event(text: &mut Vec<u8>, event: Event) -> Result<(), AllocError>
    ensures ok { OnOk result (text.new.items ≡ text.old.items ++ event_line event) }
    ensures len { OnOk result (vec_len text.new ≡ vec_len text.old + LINE_LENGTH) }
    ensures capacity { vec_capacity text.old ≤ vec_capacity text.new }
    ensures full { OnErr result (vec_capacity text.old < vec_len text.old + LINE_LENGTH) }
{
    match event {
        Event::Ld { addr, value } => push_access(text, b"ld ", addr, value),
        Event::St { addr, value } => push_access(text, b"st ", addr, value),
    }
}

// Adds a line of a word and a space, an address and a value.
fn push_access(text: &mut Vec<u8>, word: &[u8; 3], addr: u32, value: u32) -> Result<(), AllocError>
    ensures ok { OnOk result (text.new.items ≡ text.old.items ++ access_line word.now addr value) }
    ensures len { OnOk result (vec_len text.new ≡ vec_len text.old + LINE_LENGTH) }
    ensures capacity { vec_capacity text.old ≤ vec_capacity text.new }
    ensures full { OnErr result (vec_capacity text.old < vec_len text.old + LINE_LENGTH) }
{
    text.extend_from_slice(word)?;
    text.extend_from_slice(&hex_digits(addr))?;
    text.push(b' ')?;
    text.extend_from_slice(&hex_digits(value))?;
    text.push(b'\n')?;
    Ok(())
}
