// A log that was printed by a run and is cut at each byte.
use crate::calls::{Asked, ample};
use lb_testkit::call::log_of_report;
use std::alloc::{AllocError, Global};
use std::process::Abort;
use std::test::Fail;

// A program that reads and writes the lamp's pins, and two frames.
static INPUT: &str =
    "fn init() { } fn loop() { x = MMIOREAD(0x1001200C); MMIOWRITE(0x1001200C, (x + 1)); }\n%%\n!a1B2\n00\n";

// How many entries the log has.
const ENTRIES: usize = 200;

// What is told of a machine without an entry.
static NONE: &str =
    "0 image\nevents 0\ndone 0\nretired 0\nmmio 0\narrived 0\nlamp off\nend running\ntrace\nlog\n";

// The run of so many entries.
fn run(alloc: Global, entries: usize) -> Result<String, AllocError> {
    let line = format!(in alloc; "run --log --trace --events {entries}")?;
    ample(
        alloc,
        Asked {
            line: &line,
            input: INPUT.as_bytes(),
        },
    )
}

// The replay of a log.
fn replay(alloc: Global, log: &[u8]) -> Result<String, AllocError> {
    let mut input = Vec::from_slice(alloc, INPUT.as_bytes())?;
    input.extend_from_slice(b"%%\n")?;
    input.extend_from_slice(log)?;
    ample(
        alloc,
        Asked {
            line: "replay --log --trace",
            input: &input,
        },
    )
}

// What the run of so many entries tells.
fn told_of_run(alloc: Global, entries: usize) -> Result<String, AllocError> {
    if entries == 0 {
        String::from_str(alloc, NONE)
    } else {
        run(alloc, entries)
    }
}

// Asserts that these entries are replayed to the report of a run of as many.
fn replays(rt: &impl Abort, alloc: Global, log: &[u8], entries: usize) -> Result<(), AllocError> {
    // Each 32 entries stand in a line.
    let behind = entries.saturating_mul(2).saturating_add(entries / 32);
    let got = replay(alloc, &log[..behind.min(log.len())])?;
    let want = told_of_run(alloc, entries)?;
    assert_eq!(rt; got.as_str(), want.as_str(), "of {entries}");
    Ok(())
}

#[test]
fn replays_a_log_cut_at_each_entry(rt: HostRuntime) -> Result<(), Fail> {
    let whole = run(rt.alloc(), ENTRIES)?;
    let log = log_of_report(whole.as_bytes());
    assert_eq!(rt; log.len(), 407);
    for entries in 0..ENTRIES + 1 {
        replays(&rt, rt.alloc(), log, entries)?;
    }
    Ok(())
}

// Asserts that a log is refused whose last entry is cut: the source, two frames and two lines `%%` stand before the log.
fn refuses(rt: &impl Abort, alloc: Global, log: &[u8], entries: usize) -> Result<(), AllocError> {
    let behind = entries.saturating_mul(2).saturating_add(entries / 32 + 1);
    let got = replay(alloc, &log[..behind.min(log.len())])?;
    let number = 6 + entries / 32;
    let want = format!(in alloc; "5\nline {number} malformed\n")?;
    assert_eq!(rt; got.as_str(), want.as_str(), "of {entries}");
    Ok(())
}

// An entry without its worker isn't read.
#[test]
fn refuses_a_log_cut_in_an_entry(rt: HostRuntime) -> Result<(), Fail> {
    let whole = run(rt.alloc(), ENTRIES)?;
    let log = log_of_report(whole.as_bytes());
    for entries in 0..ENTRIES {
        refuses(&rt, rt.alloc(), log, entries)?;
    }
    Ok(())
}
