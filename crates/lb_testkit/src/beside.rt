// A run of the compiled code beside one of the source.
use crate::call::{told_by_plain, whole};
use std::alloc::{AllocError, Global};

/// A program that is run: its text, with its replies in a second section, how many events both runs have, and how they
/// end.
#[derive(Drop)]
pub struct Row<'a> {
    pub input: &'a str,
    pub events: usize,
    pub source: &'a str,
    pub code: &'a str,
}

/// Nothing where both runs end with status 0 and as the row says, with the same events, as many as it says; else what the
/// two told.
pub fn disagreement(alloc: Global, row: &Row<'_>) -> Result<String, AllocError> {
    let source = run(alloc, "interp", row.input)?;
    let code = run(alloc, "isa", row.input)?;
    if agree(alloc, row, &source, &code)? {
        Ok(String::new(alloc))
    } else {
        format!(in alloc; "{source}{code}")
    }
}

// What the run of a mode told, with its trace.
fn run(alloc: Global, mode: &str, input: &str) -> Result<String, AllocError> {
    let words = ["bulb", mode, "--trace", "--events", "20000"];
    told_by_plain(alloc, &whole(&words, input.as_bytes()))
}

// Whether the runs told what the row says. How many instructions the code did is the compiler's choice.
fn agree(alloc: Global, row: &Row<'_>, source: &str, code: &str) -> Result<bool, AllocError> {
    let lines = event_lines(source);
    let begin = report(alloc, row.events, row.source, lines)?;
    let end = report(alloc, row.events, row.code, lines)?;
    Ok(
        lines.len() == row.events.saturating_mul(21)
            && source.strip_prefix("0 image\n") == Some(begin.as_str())
            && code.starts_with("0 image\ndone ")
            && code.ends_with(end.as_str()),
    )
}

// The lines of the events, of 21 bytes each.
fn event_lines(told: &str) -> &str {
    match told.split_once("\ntrace\n") {
        Some((_, lines)) => lines,
        None => "",
    }
}

// The report of a run with these events.
fn report(alloc: Global, events: usize, end: &str, lines: &str) -> Result<String, AllocError> {
    format!(in alloc; "mmio {events}\nend {end}\ntrace\n{lines}")
}
