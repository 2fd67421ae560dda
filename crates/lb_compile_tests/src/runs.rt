// What the code of programs does.
use crate::answer::image_of;
use lb_isa::{IsaRun, run};
use lb_program_testkit::NoProgram;
use lb_trace::print_trace;
use std::alloc::{AllocError, Global};
use std::process::Abort;
use std::test::Fail;

// How a run ended, and what it did.
fn lines(alloc: Global, ran: &IsaRun) -> Result<Vec<u8>, AllocError> {
    let ending = format!(in alloc; "{:?}\n", ran.ending)?;
    let mut lines = ending.into_bytes();
    let trace = print_trace(alloc, ran.trace.as_slice())?;
    lines.extend_from_slice(trace.as_slice())?;
    Ok(lines)
}

// What the code of the text's program does, run for at most 100,000 instructions with these replies.
fn told(alloc: Global, text: &str, replies: &[u32]) -> Result<Vec<u8>, NoProgram> {
    let image = image_of(alloc, text.as_bytes())?;
    let ran = run(alloc, image.code.as_slice(), image.entry, replies, 100_000)?;
    Ok(lines(alloc, &ran)?)
}

// Asserts that the code of the text's program does this with these replies.
fn expect(
    rt: &impl Abort,
    alloc: Global,
    text: &str,
    replies: &[u32],
    want: &str,
) -> Result<(), NoProgram> {
    let told = told(alloc, text, replies)?;
    assert_eq!(rt; told.as_slice(), want.as_bytes(), "of {text}");
    Ok(())
}

#[test]
fn does_what_programs_say(rt: HostRuntime) -> Result<(), Fail> {
    for (text, replies, want) in [
        (
            "fn init() { x = MMIOREAD(0x10024048); } fn loop() { x = MMIOREAD(0x10024048); }",
            [0].as_slice(),
            "WantsReply\nld 10024048 00000000\n",
        ),
        (
            "fn init() { MMIOWRITE(0x1001200C, (7 / 0)); MMIOWRITE(0x1001200C, (7 % 0)); } fn loop() { }",
            [].as_slice(),
            "Running\nst 1001200c ffffffff\nst 1001200c 00000007\n",
        ),
        (
            "fn init() { stackalloc 8 as p { store4(p, 1); store4((p + 4), 2); x = load4((p + 4)); MMIOWRITE(0x1001200C, x); } } fn loop() { }",
            [].as_slice(),
            "Running\nst 1001200c 00000002\n",
        ),
        (
            "fn init() { stackalloc 32608 as p { store4((p + 32604), 7); x = load4((p + 32604)); MMIOWRITE(0x1001200C, x); } } fn loop() { }",
            [].as_slice(),
            "Running\nst 1001200c 00000007\n",
        ),
        (
            "fn init() { i = 5; s = 0; while i { a = MMIOREAD(0x10012000); if (a < i) { s = sum(s, a); } else { s = sum(s, i); } i = (i - 1); } MMIOWRITE(0x1001200C, s); } fn loop() { } fn sum(a, b) -> (c) { c = (a + b); }",
            [3, 9, 1, 7, 0].as_slice(),
            "Running\nld 10012000 00000003\nld 10012000 00000009\nld 10012000 00000001\nld 10012000 00000007\nld 10012000 00000000\nst 1001200c 0000000a\n",
        ),
        (
            "fn f(a, b, c, d, e, f, g, h) -> (j, k, l, m, n, o, p, q) { j = h; k = g; l = f; m = e; n = d; o = c; p = b; q = a; } fn init() { q, p, o, n, m, l, k, j = f(1, 2, 3, 4, 5, 6, 7, 8); MMIOWRITE(0x1001200C, ((((((q * 10) + p) * 10) + o) * 10) + j)); } fn loop() { }",
            [].as_slice(),
            "Running\nst 1001200c 00002239\n",
        ),
    ] {
        expect(&rt, rt.alloc(), text, replies, want)?;
    }
    Ok(())
}
