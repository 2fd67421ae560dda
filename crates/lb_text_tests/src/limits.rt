// At most 64 brackets are open.
use crate::answer::{NoAnswer, expect};
use std::alloc::{AllocError, Global};

// The text with so many of a piece between its two ends.
fn with_many(
    alloc: Global,
    front: &str,
    piece: &str,
    times: u32,
    back: &str,
) -> Result<String, AllocError> {
    let mut text = String::from_str(alloc, front)?;
    push_times(&mut text, piece, times)?;
    text.push_str(back)?;
    Ok(text)
}

// Appends the piece so many times.
fn push_times(text: &mut String, piece: &str, times: u32) -> Result<(), AllocError> {
    for _ in 0..times {
        text.push_str(piece)?;
    }
    Ok(())
}

#[test]
fn counts_brackets(rt: HostRuntime) -> Result<(), NoAnswer> {
    for (front, piece, times, back, want) in [
        ("fn init(){x=", "(", 63u32, "", "text at 75 ended"),
        ("fn init(){x=", "(", 64, "", "text at 75 too-deep"),
        ("fn init(){x=", "(", 63, "load4", "text at 80 ended"),
        ("fn init(){x=", "(", 63, "load4(", "text at 80 too-deep"),
        ("fn init(){x=", "(", 63, "{", "text at 75 unexpected"),
        ("fn f(){", "if a{", 63, "", "text at 322 ended"),
        ("fn f(){", "if a{", 64, "", "text at 326 too-deep"),
        ("fn f(){", "if a{", 63, "(", "text at 322 unexpected"),
        ("fn f(){", "if a{", 63, "skip;f(", "text at 328 too-deep"),
        ("fn f(){//", "({", 40, "\n}", "fn f() {\n}\n"),
        ("fn f(){x=", "(", 62, "a(", "text at 72 unexpected"),
    ] {
        let text = with_many(rt.alloc(), front, piece, times, back)?;
        expect(&rt, rt.alloc(), text.as_bytes(), want.as_bytes())?;
    }
    Ok(())
}

#[test]
fn accepts_64_open_brackets(rt: HostRuntime) -> Result<(), NoAnswer> {
    let opened = with_many(rt.alloc(), "fn init(){x=", "(", 63, "a")?;
    let text = with_many(rt.alloc(), opened.as_str(), "+a)", 63, ";}")?;
    let opened = with_many(rt.alloc(), "fn init() {\n  x = ", "(", 63, "a")?;
    let want = with_many(rt.alloc(), opened.as_str(), " + a)", 63, ";\n}\n")?;
    expect(&rt, rt.alloc(), text.as_bytes(), want.as_bytes())
}
