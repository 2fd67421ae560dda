// Logs, read and printed.
ghost use Rattle.std.specs.Prelude.{◌↔◌, IsTrue, All};
ghost use Rattle.lb_lines.specs.Log.{HasDigit};

use crate::answer::refusal;
use lb_lines::{print_log, read_log};
use lb_trace::{Entry, Kind};
use std::alloc::{AllocError, Global};
use std::process::Abort;
use std::test::Fail;

// What is read from a log, printed again.
fn log(rt: &impl Abort, alloc: Global, text: &str) -> Result<String, Fail> {
    let bytes = text.as_bytes();
    assert!(rt; bytes.len() < 1_000_000, "{} bytes", bytes.len());
    match read_log(alloc, bytes, 1) {
        Ok(entries) => {
            let mut told = String::new(alloc);
            for Entry { worker, kind } in &entries {
                told.push_str(format!(in alloc; "{kind:?}{worker} ")?.as_str())?;
            }
            Ok(told)
        }
        Err(error) => Ok(refusal(alloc, error)?),
    }
}

#[test]
fn logs_are_read(rt: HostRuntime) -> Result<(), Fail> {
    for (text, want) in [
        ("", ""),
        ("F0F0F0\n", "Fetch0 Fetch0 Fetch0 "),
        ("B0A0S0", "Boot0 Arrive0 Shift0 "),
        (
            "F0D1X2R3M4\r\n\r\nW5B6S7A0\r",
            "Fetch0 Decode1 Execute2 Ram3 Mmio4 Writeback5 Boot6 Shift7 Arrive0 ",
        ),
        ("F9\n", "line 1 malformed"),
        ("F0\nF8\n", "line 2 malformed"),
        ("F0\n\nf0\n", "line 3 malformed"),
        ("F0D\n", "line 1 malformed"),
        ("F0 D0\n", "line 1 malformed"),
        ("F0\nG0\nF9", "line 2 malformed"),
        ("F0\r\r\n", "line 1 malformed"),
    ] {
        let told = log(&rt, rt.alloc(), text)?;
        assert_eq!(rt; told.as_str(), want, "of {text:?}");
    }
    Ok(())
}

// A log of so many entries, each of the next worker.
fn entries(alloc: Global, count: u8) -> Result<Vec<Entry>, AllocError> {
    let mut log = Vec::new(alloc);
    for i in 0..count {
        let kind = if i % 2 == 0 {
            Kind::Fetch
        } else {
            Kind::Arrive
        };
        log.push(Entry {
            worker: i % 8,
            kind,
        })?;
    }
    Ok(log)
}

// Whether each worker has a digit.
fn have_digits(log: &[Entry]) -> bool
    ensures { IsTrue result ↔ All HasDigit log.now }
{
    log.iter().all(|entry| entry.worker < 8)
}

// What is told of a log that is printed: the lines and the bytes of its text, and how many entries are read from this,
// up to the first that is another.
#[derive(Clone, Copy, Debug, PartialEq, Eq)]
struct Printed {
    lines: usize,
    bytes: usize,
    entries: usize,
    alike: usize,
}

// Prints a log of so many entries, and reads its text.
fn print_and_read(rt: &impl Abort, alloc: Global, count: u8) -> Result<Printed, Fail> {
    let entries = entries(alloc, count)?;
    let text = text_of(rt, alloc, &entries)?;
    let bytes = text.len();
    assert!(rt; bytes < 1_000_000, "{bytes} bytes");
    let read = read_log(alloc, &text, 1)?;
    Ok(Printed {
        lines: text.iter().filter(|byte| **byte == b'\n').count(),
        bytes,
        entries: read.len(),
        alike: alike(&read, &entries),
    })
}

// How many entries both logs have in common, from the first on.
fn alike(one: &[Entry], other: &[Entry]) -> usize {
    let mut count = 0usize;
    for (entry, own) in one.iter().zip(other) {
        if entry != own {
            return count;
        }
        count = count.saturating_add(1);
    }
    count
}

// The text of the log.
fn text_of(rt: &impl Abort, alloc: Global, entries: &[Entry]) -> Result<Vec<u8>, Fail> {
    assert!(rt;
        have_digits(entries),
        "a worker of {} entries has no digit",
        entries.len()
    );
    Ok(print_log(alloc, entries)?)
}

// The text of a log of three entries.
fn print_three(rt: &impl Abort, alloc: Global) -> Result<Vec<u8>, Fail> {
    let entries = entries(alloc, 3)?;
    text_of(rt, alloc, &entries)
}

#[test]
fn logs_are_printed(rt: HostRuntime) -> Result<(), Fail> {
    for (count, lines) in [
        (0u8, 0usize),
        (1, 1),
        (31, 1),
        (32, 1),
        (33, 2),
        (64, 2),
        (70, 3),
    ] {
        let printed = print_and_read(&rt, rt.alloc(), count)?;
        let entries = usize::from(count);
        let want = Printed {
            lines,
            bytes: 2 * entries + lines,
            entries,
            alike: entries,
        };
        assert_eq!(rt; printed, want, "of {count} entries");
    }
    let three = print_three(&rt, rt.alloc())?;
    assert_eq!(rt; three.as_slice(), b"F0A1F2\n".as_slice());
    Ok(())
}
