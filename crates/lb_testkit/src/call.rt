// A call of the whole program over memory.
ghost use Rattle.std.specs.Prelude.{◌≤◌};

use lb_ports::{Gate, MemorySink, MemorySource};
use lb_system::{Ended, bulb, plain};
use lb_trace::Entry;
use std::alloc::{AllocError, Global};
use std::sync::Wait;
use std::thread::Threads;

/// What the call is handed, and how its source and its sink behave.
#[derive(Drop)]
pub struct Call<'a> {
    /// The words of the command line, the program's name first.
    pub words: &'a [&'a str],
    pub input: &'a [u8],
    /// The most bytes that one read gives, or one write takes.
    pub piece: usize,
    /// The numbers of the reads that fail, counted from 0.
    pub read_fails: &'a [u64],
    /// The most bytes that the sink takes in all.
    pub room: usize,
    /// The numbers of the writes that fail, counted from 0.
    pub write_fails: &'a [u64],
}

/// A call over a source and a sink that never fail.
pub fn whole<'a>(words: &'a [&'a str], input: &'a [u8]) -> Call<'a> {
    Call {
        words,
        input,
        piece: 65_536,
        read_fails: &[],
        room: 65_536,
        write_fails: &[],
    }
}

/// How the call ended.
#[derive(Drop)]
pub struct Answer {
    pub status: u8,
    /// What the sink holds.
    pub written: Vec<u8>,
    /// Whether an image was used.
    pub has_image: bool,
    /// How many entries the log has.
    pub entries: usize,
    /// How many of them are of worker 0.
    pub of_first: usize,
    /// How many of them are of worker 1.
    pub of_second: usize,
}

impl Answer {
    /// What the call told, to be compared and printed: see `told`.
    pub fn told(&self, alloc: Global) -> Result<String, AllocError> {
        told(alloc, self.status, self.has_image, &self.written)
    }

    /// Nothing where the answer is right, else what the call told.
    pub fn told_unless(&self, alloc: Global, is_right: bool) -> Result<String, AllocError> {
        if is_right {
            Ok(String::new(alloc))
        } else {
            self.told(alloc)
        }
    }
}

/// What a call told, as one text: the status, with ` image` behind it where an image was used, and from the next line on
/// what was written. Bytes that are no text are replaced by a sign that no expected text has.
pub fn told(
    alloc: Global,
    status: u8,
    has_image: bool,
    written: &[u8],
) -> Result<String, AllocError> {
    let image = if has_image { " image" } else { "" };
    let text = String::from_utf8_lossy(alloc, written)?;
    format!(in alloc; "{status}{image}\n{text}")
}

/// What the call by `plain` told.
pub fn told_by_plain(alloc: Global, call: &Call<'_>) -> Result<String, AllocError> {
    call_plain(alloc, call)?.told(alloc)
}

/// The words of a line, which have a blank between them, behind the program's name.
pub fn words_of_line<'a>(alloc: Global, line: &'a str) -> Result<Vec<&'a str>, AllocError> {
    let mut words = Vec::new(alloc);
    words.push("bulb")?;
    for word in line.split(' ') {
        words.push(word)?;
    }
    Ok(words)
}

/// The log in a report: what stands behind the line `log`; nothing where there is none.
pub fn log_of_report(report: &[u8]) -> &[u8] {
    let mark = b"\nlog\n".as_slice();
    for place in 0..report.len() {
        if let Some(log) = report[place..].strip_prefix(mark) {
            return log;
        }
    }
    b""
}

/// Makes the call by `plain`.
pub fn call_plain(alloc: Global, call: &Call<'_>) -> Result<Answer, AllocError> {
    let words = words_of(alloc, call.words)?;
    let mut input = source_of(alloc, call)?;
    let mut sink = sink_of(alloc, call)?;
    let ended = plain(alloc, &words, &mut input, &mut sink);
    answer_of(alloc, &ended, &sink)
}

/// Makes the call by `bulb`, with this gate.
pub fn call_bulb<R: Threads + Wait + Sync, G: Gate + Sync>(
    rt: &R,
    alloc: Global,
    call: &Call<'_>,
    gate: &G,
) -> Result<Answer, AllocError> {
    let words = words_of(alloc, call.words)?;
    let mut input = source_of(alloc, call)?;
    let mut sink = sink_of(alloc, call)?;
    let ended = bulb(rt, alloc, &words, &mut input, &mut sink, gate);
    answer_of(alloc, &ended, &sink)
}

fn answer_of(alloc: Global, ended: &Ended, sink: &MemorySink) -> Result<Answer, AllocError> {
    let written = Vec::from_slice(alloc, sink.held())?;
    Ok(Answer {
        status: ended.status,
        written,
        has_image: ended.image.is_some(),
        entries: ended.log.len(),
        of_first: entries_of(&ended.log, 0),
        of_second: entries_of(&ended.log, 1),
    })
}

// How many entries of a log are of the worker.
fn entries_of(log: &[Entry], worker: u8) -> usize {
    log.iter().filter(|entry| entry.worker == worker).count()
}

// The words as the program gets them.
fn words_of(alloc: Global, words: &[&str]) -> Result<Vec<String>, AllocError> {
    let mut owned = Vec::new(alloc);
    for word in words {
        owned.push(String::from_str(alloc, word)?)?;
    }
    Ok(owned)
}

fn source_of(alloc: Global, call: &Call<'_>) -> Result<MemorySource, AllocError> {
    let bytes = Vec::from_slice(alloc, call.input)?;
    let fails = Vec::from_slice(alloc, call.read_fails)?;
    Ok(MemorySource::new(bytes, call.piece.max(1), fails))
}

fn sink_of(alloc: Global, call: &Call<'_>) -> Result<MemorySink, AllocError> {
    let fails = Vec::from_slice(alloc, call.write_fails)?;
    MemorySink::new(alloc, call.room, call.piece.max(1), fails)
}
