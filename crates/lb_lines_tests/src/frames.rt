// Scripts of frames.
use crate::answer::refusal;
use lb_lines::read_frames;
use std::alloc::{AllocError, Global};
use std::process::Abort;
use std::test::Fail;

// The frames of a script: the error mark, the number of bytes and the first and the last byte.
fn frames(rt: &impl Abort, alloc: Global, text: &str) -> Result<String, Fail> {
    let bytes = text.as_bytes();
    assert!(rt; bytes.len() < 1_000_000, "{} bytes", bytes.len());
    match read_frames(alloc, bytes, 1) {
        Ok(frames) => {
            let mut told = String::new(alloc);
            for frame in &frames {
                let mark = if frame.error() { "!" } else { "" };
                let count = frame.bytes().len();
                let first = frame.bytes().first().copied().unwrap_or(0);
                let last = frame.bytes().last().copied().unwrap_or(0);
                told.push_str(format!(in alloc;
                    "{mark}{count}:{first:02x}..{last:02x} "
                )?.as_str())?;
            }
            Ok(told)
        }
        Err(error) => Ok(refusal(alloc, error)?),
    }
}

// The piece so many times.
fn times(alloc: Global, piece: &str, count: u32) -> Result<String, AllocError> {
    let mut text = String::new(alloc);
    for _ in 0..count {
        text.push_str(piece)?;
    }
    Ok(text)
}

// The text with so many `a5` at each `#` and so many lines `01` at each `%`.
fn script(alloc: Global, text: &str, bytes: u32, lines: u32) -> Result<String, AllocError> {
    let mut whole = String::new(alloc);
    for c in text.chars() {
        match c {
            '#' => whole.push_str(times(alloc, "a5", bytes)?.as_str())?,
            '%' => whole.push_str(times(alloc, "01\n", lines)?.as_str())?,
            c => whole.push(c)?,
        }
    }
    Ok(whole)
}

// The frames of the script of such a text.
fn frames_of(
    rt: &impl Abort,
    alloc: Global,
    text: &str,
    bytes: u32,
    lines: u32,
) -> Result<String, Fail> {
    let script = script(alloc, text, bytes, lines)?;
    frames(rt, alloc, script.as_str())
}

// A packet of 43 bytes that is valid.
const VALID: &str =
    "ffffffffffff02000000000108004500001d00000000401100000a0000010a000002100010010009000001";

#[test]
fn frames_are_read(rt: HostRuntime) -> Result<(), Fail> {
    let alloc = rt.alloc();
    for (text, want) in [
        ("", ""),
        ("00", "1:00..00 "),
        ("Ff0A\r\n\n!aB\r", "2:ff..0a !1:ab..ab "),
        ("0\n", "line 1 malformed"),
        ("001\n", "line 1 malformed"),
        ("00\n\n!\n", "line 3 malformed"),
        ("!!00\n", "line 1 malformed"),
        ("00!\n", "line 1 malformed"),
        ("0 00\n", "line 1 malformed"),
        ("0g", "line 1 malformed"),
        ("g0", "line 1 malformed"),
    ] {
        let told = frames(&rt, alloc, text)?;
        assert_eq!(rt; told.as_str(), want, "of {text:?}");
    }
    let mut script = String::from_str(alloc, VALID)?;
    script.push_str("\n!")?;
    script.push_str(VALID)?;
    assert_eq!(rt;
        frames(&rt, alloc, script.as_str())?.as_str(),
        "43:ff..01 !43:ff..01 "
    );
    Ok(())
}

#[test]
fn frames_keep_the_limits(rt: HostRuntime) -> Result<(), Fail> {
    let alloc = rt.alloc();
    for (text, bytes, lines, want) in [
        ("#\n", 2_000u32, 0u32, "2000:a5..a5 "),
        ("!#\n", 2_000, 0, "!2000:a5..a5 "),
        ("#\n", 2_001, 0, "line 1 too-long"),
        ("00\n#1\n", 2_001, 0, "line 2 malformed"),
        ("00\n#\n0\n", 2_001, 0, "line 2 too-long"),
        ("0\n#\n", 2_001, 0, "line 1 malformed"),
        ("%02\n", 0, 64, "line 65 too-many"),
        ("\n%\n02\n0", 0, 64, "line 67 too-many"),
        ("%#\n", 2_001, 64, "line 65 too-long"),
        ("%0\n", 0, 64, "line 65 malformed"),
        ("%0\n", 0, 63, "line 64 malformed"),
    ] {
        let told = frames_of(&rt, alloc, text, bytes, lines)?;
        assert_eq!(rt;
            told.as_str(),
            want,
            "of {text:?} with {bytes} bytes, {lines} lines"
        );
    }
    let told = frames_of(&rt, alloc, "%", 0, 64)?;
    let want = times(alloc, "1:01..01 ", 64)?;
    assert_eq!(rt; told.as_str(), want.as_str());
    Ok(())
}
