// Traces and replies.
use crate::answer::refusal;
use lb_lines::{read_replies, read_trace};
use lb_trace::print_trace;
use std::alloc::Global;
use std::process::Abort;
use std::test::Fail;

// What is read from a trace, printed again.
fn trace(rt: &impl Abort, alloc: Global, text: &str) -> Result<String, Fail> {
    let bytes = text.as_bytes();
    assert!(rt; bytes.len() < 1_000_000, "{} bytes", bytes.len());
    match read_trace(alloc, bytes, 7) {
        Ok(events) => {
            let printed = print_trace(alloc, &events)?;
            Ok(String::from_utf8(printed).expect(rt, "a trace is ASCII"))
        }
        Err(error) => Ok(refusal(alloc, error)?),
    }
}

// The replies of a text, each with a space behind it.
fn replies(rt: &impl Abort, alloc: Global, text: &str) -> Result<String, Fail> {
    let bytes = text.as_bytes();
    assert!(rt; bytes.len() < 1_000_000, "{} bytes", bytes.len());
    match read_replies(alloc, bytes, 2) {
        Ok(words) => {
            let mut told = String::new(alloc);
            for word in &words {
                told.push_str(format!(in alloc; "{word:08x} ")?.as_str())?;
            }
            Ok(told)
        }
        Err(error) => Ok(refusal(alloc, error)?),
    }
}

#[test]
fn traces_are_read(rt: HostRuntime) -> Result<(), Fail> {
    for (text, want) in [
        ("", ""),
        ("\n\n\r\n\r", ""),
        ("ld 10024048 00000000\n", "ld 10024048 00000000\n"),
        (
            "st 10012038 0000003c\nst 10012008 00800000\nst 10024018 00000002\nld 10024048 00000000\nst 10024048 0000000b\n",
            "st 10012038 0000003c\nst 10012008 00800000\nst 10024018 00000002\nld 10024048 00000000\nst 10024048 0000000b\n",
        ),
        (
            "\r\nld 1001200C 00800000\r\n\nst 1001200c FFFFffff\r",
            "ld 1001200c 00800000\nst 1001200c ffffffff\n",
        ),
        ("ld 1001200c 00800000\r\r\n", "line 7 malformed"),
        ("ld 1001200c 00800000 \n", "line 7 malformed"),
        ("ld  1001200c 00800000\n", "line 7 malformed"),
        ("\n\nld 1001200c  0800000\n", "line 9 malformed"),
        ("LD 1001200c 00800000\n", "line 7 malformed"),
        ("ld 1001200c 0080000g\n", "line 7 malformed"),
        ("ld 1001200c 0080000\n", "line 7 malformed"),
        ("st 1001200c 00800000\nstore\nld", "line 8 malformed"),
        ("st\n", "line 7 malformed"),
        ("\r\r", "line 7 malformed"),
    ] {
        let told = trace(&rt, rt.alloc(), text)?;
        assert_eq!(rt; told.as_str(), want, "of {text:?}");
    }
    Ok(())
}

#[test]
fn replies_are_read(rt: HostRuntime) -> Result<(), Fail> {
    for (text, want) in [
        ("", ""),
        ("00000005\n00000003\n", "00000005 00000003 "),
        ("00000005\r\n00000003", "00000005 00000003 "),
        ("00000005\n\r\n00000003\r", "00000005 00000003 "),
        ("deadBEEF\nDEADbeef\n", "deadbeef deadbeef "),
        ("ffffffff", "ffffffff "),
        ("fffffff\n", "line 2 malformed"),
        ("00000001\n000000001\n", "line 3 malformed"),
        ("00000001\n\n\n0x000001\n", "line 5 malformed"),
        ("00000001 \n", "line 2 malformed"),
        ("+0000001\n", "line 2 malformed"),
        ("00000001\r\r\n", "line 2 malformed"),
    ] {
        let told = replies(&rt, rt.alloc(), text)?;
        assert_eq!(rt; told.as_str(), want, "of {text:?}");
    }
    Ok(())
}
