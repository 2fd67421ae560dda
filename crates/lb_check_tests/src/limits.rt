// The limits: what stands just at them, and what is one step past them.
use crate::answer::expect;
use std::alloc::{AllocError, Global};
use std::test::Fail;

// Appends the piece so many times.
fn push_times(text: &mut String, piece: &str, times: u32) -> Result<(), AllocError> {
    for _ in 0..times {
        text.push_str(piece)?;
    }
    Ok(())
}

// The text, with so many `skip;` at each `#`.
fn with_skips(alloc: Global, text: &str, skips: u32) -> Result<String, AllocError> {
    let mut whole = String::new(alloc);
    for c in text.chars() {
        match c {
            '#' => push_times(&mut whole, "skip; ", skips)?,
            c => whole.push(c)?,
        }
    }
    Ok(whole)
}

#[test]
fn branches_pass_any_length(rt: HostRuntime) -> Result<(), Fail> {
    for (text, skips, want) in [
        (
            "fn init() { while 1 { x = 1; # } } fn loop() { }",
            126u32,
            "ok words 1212 stack 144",
        ),
        (
            "fn init() { if 1 { } else { x = 1; # } } fn loop() { }",
            4_070,
            "ok words 32764 stack 144",
        ),
        (
            "fn init() { if 1 { } else { x = 1; # } } fn loop() { }",
            4_071,
            "code-need 32772",
        ),
    ] {
        let text = with_skips(rt.alloc(), text, skips)?;
        expect(&rt, rt.alloc(), text.as_str(), want)?;
    }
    Ok(())
}

#[test]
fn frames_have_32768_bytes(rt: HostRuntime) -> Result<(), Fail> {
    for (text, want) in [
        (
            "fn init() { stackalloc 32628 as p { } } fn loop() { }",
            "ok words 272 stack 32768",
        ),
        (
            "fn init() { stackalloc 32632 as p { } } fn loop() { }",
            "frame-need init 32772",
        ),
        (
            "fn init() { f(); } fn loop() { } fn f() { stackalloc 32628 as p { g(); } } fn g() { stackalloc 32628 as p { } }",
            "stack-need 65672",
        ),
        (
            "fn init() { stackalloc 32628 as p { store4((p + 32624), 7); x = load4((p + 32624)); MMIOWRITE(0x1001200C, x); } } fn loop() { }",
            "frame-need init 32784",
        ),
        (
            "fn init() { stackalloc 32608 as p { store4((p + 32604), 7); x = load4((p + 32604)); MMIOWRITE(0x1001200C, x); } } fn loop() { }",
            "ok words 456 stack 32764",
        ),
    ] {
        expect(&rt, rt.alloc(), text, want)?;
    }
    Ok(())
}

// The words of a function with a frame of over 2,032 bytes count twice.
#[test]
fn far_frames_double_the_words(rt: HostRuntime) -> Result<(), Fail> {
    for (text, skips, want) in [
        (
            "fn init() { stackalloc 1892 as p { # } } fn loop() { }",
            2_031u32,
            "ok words 16432 stack 2032",
        ),
        (
            "fn init() { stackalloc 1896 as p { # } } fn loop() { }",
            2_031,
            "ok words 32768 stack 2036",
        ),
        (
            "fn init() { stackalloc 1896 as p { # } } fn loop() { }",
            2_032,
            "code-need 32784",
        ),
        (
            "fn init() { stackalloc 32632 as p { # } } fn loop() { }",
            4_074,
            "frame-need init 32772",
        ),
    ] {
        let text = with_skips(rt.alloc(), text, skips)?;
        expect(&rt, rt.alloc(), text.as_str(), want)?;
    }
    Ok(())
}

#[test]
fn code_has_32768_words(rt: HostRuntime) -> Result<(), Fail> {
    for (text, skips, want) in [
        (
            "fn init() { # } fn loop() { }",
            4_074u32,
            "ok words 32768 stack 136",
        ),
        (
            "fn init() { x = 1; # } fn loop() { x = 1; x = 1; }",
            4_069,
            "code-need 32770",
        ),
        (
            "fn init() { # } fn loop() { while 1 { # } }",
            4_074,
            "code-need 65374",
        ),
    ] {
        let text = with_skips(rt.alloc(), text, skips)?;
        expect(&rt, rt.alloc(), text.as_str(), want)?;
    }
    Ok(())
}

// `init` with a block of so many bytes, 32 functions with blocks of 1,892 bytes, each of which calls the next, and one of so
// many `skip;`.
fn chain(alloc: Global, bytes: u32, skips: u32) -> Result<String, AllocError> {
    let mut text = format!(in alloc;
        "fn loop() {{ }} fn init() {{ stackalloc {bytes} as p {{ f1(); }} }} "
    )?;
    for k in 1..32u32 {
        let next = k + 1;
        write!(
            text,
            "fn f{k}() {{ stackalloc 1892 as p {{ f{next}(); }} }} "
        )?;
    }
    text.push_str("fn f32() { stackalloc 1892 as p { } } fn g() { ")?;
    push_times(&mut text, "skip; ", skips)?;
    text.push('}')?;
    Ok(text)
}

#[test]
fn frames_on_a_path_have_65536_bytes(rt: HostRuntime) -> Result<(), Fail> {
    for (bytes, skips, want) in [
        (372u32, 3_679u32, "ok words 32768 stack 65536"),
        (376, 3_679, "stack-need 65540"),
        (376, 3_680, "code-need 32776"),
    ] {
        let text = chain(rt.alloc(), bytes, skips)?;
        expect(&rt, rt.alloc(), text.as_str(), want)?;
    }
    Ok(())
}

// A program of so many functions, of which none calls another.
fn functions(alloc: Global, count: u32) -> Result<String, AllocError> {
    let mut text = String::from_str(alloc, "fn init() { } fn loop() { } ")?;
    for k in 2..count {
        write!(text, "fn f{k}() {{ }} ")?;
    }
    Ok(text)
}

#[test]
fn programs_have_256_functions(rt: HostRuntime) -> Result<(), Fail> {
    for (count, want) in [
        (256u32, "ok words 20496 stack 136"),
        (257, "too-many-functions 257"),
    ] {
        let text = functions(rt.alloc(), count)?;
        expect(&rt, rt.alloc(), text.as_str(), want)?;
    }
    for (count, want) in [
        (256u32, "duplicate-function f"),
        (257, "too-many-functions 257"),
    ] {
        let mut text = String::new(rt.alloc());
        push_times(&mut text, "fn f() { } ", count)?;
        expect(&rt, rt.alloc(), text.as_str(), want)?;
    }
    Ok(())
}
