// Programs with large frames, deep stacks and far branches.
use crate::compiled::compile_in_slots;
use crate::ran::{expect, expect_in_slots};
use lb_program_testkit::NoProgram;
use std::alloc::{AllocError, Global};
use std::test::Fail;

// A function without parameters whose frame has a block of so many bytes: it writes a value to the last of them, and passes
// it to the device. It asks for 152 bytes more than its block.
fn one_block(alloc: Global, bytes: u32) -> Result<String, AllocError> {
    let last = bytes.saturating_sub(1);
    format!(in alloc;
        "fn init() {{ stackalloc {bytes} as p {{ store1((p + {last}), 77); MMIOWRITE(0x1001200C, load1((p + {last}))); }} }} fn loop() {{ x = MMIOREAD(0x10024048); }}"
    )
}

// Adds a text several times.
fn add(text: &mut String, piece: &str, times: u32) -> Result<(), AllocError> {
    for _ in 0..times {
        text.push_str(piece)?;
    }
    Ok(())
}

// Frames that ask for 2,028, 2,032, 2,036 and 32,768 bytes.
#[test]
fn reaches_whole_frames(rt: HostRuntime) -> Result<(), Fail> {
    let alloc = rt.alloc();
    for bytes in [1876, 1880, 1884, 32616] {
        let text = one_block(alloc, bytes)?;
        expect(&rt, alloc, text.as_str(), &[], "77 wants")?;
        expect_in_slots(&rt, alloc, text.as_str(), &[], "77 wants")?;
    }
    // four frames of 16,384 bytes, one upon the other: each has its last word before and after the call
    let chain =
        "fn init() { stackalloc 16224 as p { store4((p + 16220), 5); r = f(load4((p + 16220))); MMIOWRITE(0x1001200C, (r + load4((p + 16220)))); } } fn f(x) -> (y) { stackalloc 16220 as p { store4((p + 16216), x); y = g((x + 1)); y = (y + load4((p + 16216))); } } fn g(x) -> (y) { stackalloc 16220 as p { store4((p + 16216), x); y = h((x + 1)); y = (y + load4((p + 16216))); } } fn h(x) -> (y) { stackalloc 16220 as p { store4((p + 16216), x); y = (load4((p + 16216)) + 1); } } fn loop() { x = MMIOREAD(0x10024048); }";
    expect(&rt, alloc, chain, &[], "24 wants")?;
    expect_in_slots(&rt, alloc, chain, &[], "24 wants")?;
    Ok(())
}

// An `if` and a loop over code of more than 4 KiB each: each sum takes 3 instructions, two of them for its literal, so that
// 350 sums take 4,200 bytes.
fn long_code(alloc: Global) -> Result<String, AllocError> {
    let mut text = String::from_str(alloc, "fn init() { x = 0; while (x < 4301850) {")?;
    add(&mut text, " x = (x + 4097);", 350)?;
    text.push_str(" } MMIOWRITE(0x1001200C, x); if (x == 4301850) {")?;
    add(&mut text, " x = (x + 8194);", 350)?;
    text.push_str(" } else {")?;
    add(&mut text, " x = (x + 4098);", 350)?;
    text.push_str(" } MMIOWRITE(0x1001200C, x); } fn loop() { x = MMIOREAD(0x10024048); }")?;
    Ok(text)
}

// Code over 4 KiB that an `if` and a loop jump over, and that a loop jumps back over.
#[test]
fn jumps_over_long_code(rt: HostRuntime) -> Result<(), Fail> {
    let text = long_code(rt.alloc())?;
    expect(&rt, rt.alloc(), text.as_str(), &[], "4301850 7169750 wants")?;
    Ok(())
}

// Adds 70 calls that set 8 variables each.
fn add_calls(alloc: Global, text: &mut String) -> Result<(), AllocError> {
    for i in 0..70u32 {
        let call = format!(in alloc; " a{i}, b{i}, c{i}, d{i}, e{i}, f{i}, g{i}, h{i} = f();")?;
        text.push_str(call.as_str())?;
    }
    Ok(())
}

// Adds a command that does 49 tests for equality. The innermost gives 1, the others but the outermost 0, and that gives 1.
fn add_equalities(text: &mut String) -> Result<(), AllocError> {
    text.push_str(" n = (n + (0 == ")?;
    add(text, "(0x12345678 == ", 48)?;
    text.push_str("x")?;
    add(text, ")", 48)?;
    text.push_str("));")
}

// 560 variables that are set by calls, and 49 tests for equality for each of 21 times that a number goes up.
fn far_slots(alloc: Global) -> Result<String, AllocError> {
    let mut text = String::from_str(
        alloc,
        "fn f() -> (a, b, c, d, e, f, g, h) { a = 1; b = 2; c = 3; d = 4; e = 5; f = 6; g = 7; h = 8; } fn init() {",
    )?;
    add_calls(alloc, &mut text)?;
    text.push_str(" x = 0x12345678; n = 0; while (n < 40) {")?;
    for _ in 0..21 {
        add_equalities(&mut text)?;
    }
    text.push_str(
        " } MMIOWRITE(0x1001200C, n); MMIOWRITE(0x1001200C, (a0 + (10 * (h0 + (10 * (a69 + (10 * h69))))))); } fn loop() { x = MMIOREAD(0x10024048); }",
    )?;
    Ok(text)
}

// How many words the code has with a slot for each variable.
fn words_in_slots(alloc: Global, text: &str) -> Result<usize, NoProgram> {
    let emitted = compile_in_slots(alloc, text)?;
    Ok(emitted.code.len())
}

// Slots further from the stack pointer than an immediate reaches, and a loop over 64 KiB of code.
#[test]
fn reaches_far_slots_and_jumps_over_64_kib(rt: HostRuntime) -> Result<(), Fail> {
    let text = far_slots(rt.alloc())?;
    // the loop's body alone has 21 times 793 instructions
    assert!(rt; words_in_slots(rt.alloc(), text.as_str())? > 16_653);
    expect_in_slots(&rt, rt.alloc(), text.as_str(), &[], "42 8181 wants")?;
    expect(&rt, rt.alloc(), text.as_str(), &[], "42 8181 wants")?;
    Ok(())
}
