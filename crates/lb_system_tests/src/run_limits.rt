// Programs at their limits, and one past each.
use lb_testkit::call::{Call, call_plain, told_by_plain, whole};
use std::alloc::{AllocError, Global};
use std::test::Fail;

// A program whose `init` has these lines.
fn program(alloc: Global, lines: &[u8]) -> Result<Vec<u8>, AllocError> {
    let mut text = Vec::new(alloc);
    text.extend_from_slice(b"fn init() {\n")?;
    text.extend_from_slice(lines)?;
    text.extend_from_slice(b"}\nfn loop() {\n}\n")?;
    Ok(text)
}

// Assignments to this many variables, `times` times each.
fn assignments(alloc: Global, variables: u32, times: u32) -> Result<Vec<u8>, AllocError> {
    let mut lines = Vec::new(alloc);
    for _ in 0..times {
        for k in 0..variables {
            let line = format!(in alloc; "  v{k} = {k};\n")?;
            lines.extend_from_slice(line.as_bytes())?;
        }
    }
    program(alloc, &lines)
}

fn status(alloc: Global, text: &[u8]) -> Result<u8, AllocError> {
    Ok(call_plain(alloc, &whole(&["bulb", "isa", "--events", "100000"], text))?.status)
}

// The status of a program whose `init` has these lines.
fn status_of_lines(alloc: Global, lines: &str) -> Result<u8, AllocError> {
    status(alloc, &program(alloc, lines.as_bytes())?)
}

#[test]
fn takes_names_and_numbers_up_to_their_ends(rt: HostRuntime) -> Result<(), Fail> {
    let rows = [
        ("  abcdefghijklmnopqrstuvwxyz_01234 = 4294967295;\n", 0),
        ("  abcdefghijklmnopqrstuvwxyz_012345 = 4294967295;\n", 2),
        ("  _ = 4294967296;\n", 2),
        ("  Z9 = 0;\n", 0),
        ("  9Z = 0;\n", 2),
    ];
    for (lines, want) in rows {
        assert_eq!(rt; status_of_lines(rt.alloc(), lines)?, want, "of {lines}");
    }
    Ok(())
}

// What is told of the run of a program that assigns so many variables.
fn told_of_assignments(alloc: Global, variables: u32) -> Result<String, AllocError> {
    let text = assignments(alloc, variables, 1)?;
    told_by_plain(alloc, &whole(&["bulb", "isa", "--events", "100000"], &text))
}

// A frame of 4 * (1,000 + 1 + 34) = 4,140 bytes.
#[test]
fn builds_large_frames(rt: HostRuntime) -> Result<(), Fail> {
    let got = told_of_assignments(rt.alloc(), 1000)?;
    assert_eq!(rt; got.as_str(), "0 image\ndone 100000\nmmio 0\nend running\n");
    Ok(())
}

// The status of a program that assigns so many variables, so many times.
fn status_of_assignments(alloc: Global, variables: u32, times: u32) -> Result<u8, AllocError> {
    status(alloc, &assignments(alloc, variables, times)?)
}

// 2,328 assignments of 14 words are a need of 16 + 80 + 80 + 2,328 * 14 = 32,768 words.
#[test]
fn builds_code_up_to_32768_words(rt: HostRuntime) -> Result<(), Fail> {
    assert_eq!(rt; status_of_assignments(rt.alloc(), 8, 291)?, 0);
    assert_eq!(rt; status_of_assignments(rt.alloc(), 17, 137)?, 4);
    Ok(())
}

// What `run` tells of a source of one line, and so many times a part of the lines of frames behind the mark.
fn told_of_frames(alloc: Global, part: &str, many: usize) -> Result<String, AllocError> {
    let frames = part.repeat(alloc, many)?;
    let input = format!(in alloc; "fn init() {{ }} fn loop() {{ }}\n%%\n{frames}")?;
    told_by_plain(
        alloc,
        &whole(&["bulb", "run", "--events", "5"], input.as_bytes()),
    )
}

// 64 frames of a byte, and one frame of 2,000 bytes.
#[test]
fn takes_64_frames_and_2000_bytes(rt: HostRuntime) -> Result<(), Fail> {
    for (part, many) in [("00\n", 64), ("00", 2000)] {
        let got = told_of_frames(rt.alloc(), part, many)?;
        assert_eq!(rt; got.lines().next(), Some("0 image"), "of {many}");
    }
    Ok(())
}

// One more of each.
#[test]
fn refuses_65_frames_and_2001_bytes(rt: HostRuntime) -> Result<(), Fail> {
    for (part, many, want) in [
        ("00\n", 65, "5\nline 67 too-many\n"),
        ("00", 2001, "5\nline 3 too-long\n"),
    ] {
        let got = told_of_frames(rt.alloc(), part, many)?;
        assert_eq!(rt; got.as_str(), want, "of {many}");
    }
    Ok(())
}

// The status of an input that is too long.
fn status_of_blanks(alloc: Global, many: usize) -> Result<u8, AllocError> {
    let text = vec![in alloc; b' '; many]?;
    let call = Call {
        piece: 1_000_000,
        ..whole(&["bulb", "isa"], &text)
    };
    Ok(call_plain(alloc, &call)?.status)
}

#[test]
fn refuses_an_input_that_is_too_long(rt: HostRuntime) -> Result<(), Fail> {
    assert_eq!(rt; status_of_blanks(rt.alloc(), 1_048_577)?, 8);
    Ok(())
}
