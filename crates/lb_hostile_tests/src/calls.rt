// Calls of the whole program, and what they tell.
use crate::ports::{SlowSink, SlowSource, Stop};
use lb_system::{Ended, plain};
use lb_testkit::call::{Call, told, told_by_plain, whole, words_of_line};
use std::alloc::{AllocError, Global};

/// What is asked for: the words behind the program's name, with a blank between them, and an input.
#[derive(Clone, Copy, Debug)]
pub struct Asked<'a> {
    pub line: &'a str,
    pub input: &'a [u8],
}

/// How the ports of a call are.
#[derive(Clone, Copy, Debug)]
pub struct Ports {
    pub source: Stop,
    pub sink: Stop,
    /// How many bytes the sink takes at a time.
    pub piece: usize,
}

/// What the call tells with ports that take and give all at once, and never fail.
pub fn ample(alloc: Global, asked: Asked<'_>) -> Result<String, AllocError> {
    let words = words_of_line(alloc, asked.line)?;
    let call = Call {
        room: 1_000_000,
        ..whole(&words, asked.input)
    };
    told_by_plain(alloc, &call)
}

/// What the call tells with these ports. Before it stands a line with what the ports counted: how often the source failed,
/// how often it was asked from its stop on, and how often the sink failed.
pub fn slow(alloc: Global, asked: Asked<'_>, ports: Ports) -> Result<String, AllocError> {
    let words = owned_words(alloc, asked.line)?;
    let mut source = SlowSource::new(asked.input, ports.source);
    let mut sink = SlowSink::new(alloc, ports.piece, ports.sink);
    let ended = plain(alloc, &words, &mut source, &mut sink);
    let told = told_by(alloc, &ended, &sink)?;
    let (faults, late) = (source.faults, source.late);
    let sink_faults = sink.faults;
    format!(in alloc; "{faults} {late} {sink_faults}\n{told}")
}

// What a call told that ended so.
fn told_by(alloc: Global, ended: &Ended, sink: &SlowSink) -> Result<String, AllocError> {
    told(alloc, ended.status, ended.image.is_some(), sink.held())
}

// The words behind the program's name, as the program gets them.
fn owned_words(alloc: Global, line: &str) -> Result<Vec<String>, AllocError> {
    let mut words = Vec::new(alloc);
    words.push(String::from_str(alloc, "bulb")?)?;
    for word in line.split(' ') {
        words.push(String::from_str(alloc, word)?)?;
    }
    Ok(words)
}
