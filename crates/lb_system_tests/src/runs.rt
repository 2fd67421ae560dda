// What `interp` and `isa` report, and what the modes that compile refuse.
use lb_bulb::source;
use lb_testkit::call::{Answer, call_plain, whole, words_of_line};
use std::alloc::{AllocError, Global};
use std::process::Abort;
use std::test::Fail;

// The words behind the program's name, an input, and what is told: the status, whether there is an image, and what is
// written.
const ROWS: [(&str, &str, &str); 25] = [
    (
        "interp --events 3 --trace",
        "fn init() { } fn loop() { MMIOWRITE(0x1001200C, 1); }",
        "0 image\nmmio 2\nend spent\ntrace\nst 1001200c 00000001\nst 1001200c 00000001\n",
    ),
    (
        "interp --trace",
        "fn init() { x = MMIOREAD(0x10024048); } fn loop() { x = MMIOREAD(0x10024048); }\n%%\n00000000",
        "0 image\nmmio 1\nend starved\ntrace\nld 10024048 00000000\n",
    ),
    (
        "interp",
        "fn init() { x = MMIOREAD(0x10024048); } fn loop() { x = MMIOREAD(0x10024048); }\n%%\n00000000",
        "0 image\nmmio 1\nend starved\n",
    ),
    (
        "interp",
        "fn init() { y = x; } fn loop() { }",
        "0 image\nmmio 0\nend undefined unset-variable\n",
    ),
    (
        "interp",
        "fn init() { MMIOWRITE(0x10012002, 0); } fn loop() { }",
        "0 image\nmmio 0\nend undefined unaligned\n",
    ),
    (
        "interp",
        "fn init() { MMIOWRITE(0x10013000, 0); } fn loop() { }",
        "0 image\nmmio 0\nend undefined out-of-range\n",
    ),
    (
        "interp",
        "fn init() { MMIOWRITE(0x10012FFC, 0); } fn loop() { }",
        "0 image\nmmio 1\nend spent\n",
    ),
    (
        "interp --events 1 --trace",
        "fn init() { MMIOWRITE(0x1001200C, (7 / 0)); MMIOWRITE(0x1001200C, (7 % 0)); } fn loop() { }",
        "0 image\nmmio 2\nend spent\ntrace\nst 1001200c ffffffff\nst 1001200c 00000007\n",
    ),
    (
        "isa --events 100000",
        "fn init() { MMIOWRITE(0x1001200C, (7 / 0)); MMIOWRITE(0x1001200C, (7 % 0)); } fn loop() { }",
        "0 image\ndone 100000\nmmio 2\nend running\n",
    ),
    (
        "isa --trace --log --events=100000 --workers 3",
        "fn init() { MMIOWRITE(0x1001200C, (7 / 0)); MMIOWRITE(0x1001200C, (7 % 0)); } fn loop() { }",
        "0 image\ndone 100000\nmmio 2\nend running\ntrace\nst 1001200c ffffffff\nst 1001200c 00000007\n",
    ),
    (
        "interp --events 9",
        "fn init() { stackalloc 8 as p { store4(p, 1); x = load4((p + 4)); } } fn loop() { }",
        "0 image\nmmio 0\nend undefined unset-byte\n",
    ),
    (
        "interp --events 9",
        "fn init() { stackalloc 8 as p { store4(p, 1); store4((p + 4), 2); x = load4((p + 4)); } } fn loop() { }",
        "0 image\nmmio 0\nend spent\n",
    ),
    (
        "interp --events 9",
        "fn init() { stackalloc 8 as p { store4(p, 1); x = load4((p + 6)); } } fn loop() { }",
        "0 image\nmmio 0\nend undefined unset-byte\n",
    ),
    (
        "interp --events 9",
        "fn init() { stackalloc 8 as p { store4(p, 1); store4((p + 4), 2); x = load4((p + 6)); } } fn loop() { }",
        "0 image\nmmio 0\nend undefined not-owned\n",
    ),
    (
        "isa",
        "fn init() { stackalloc 32628 as p { store4((p + 32624), 7); x = load4((p + 32624)); MMIOWRITE(0x1001200C, x); } } fn loop() { }",
        "4\nlimit frame-need function init bytes 32784\n",
    ),
    (
        "isa --events 100000 --trace",
        "fn init() { stackalloc 32608 as p { store4((p + 32604), 7); x = load4((p + 32604)); MMIOWRITE(0x1001200C, x); } } fn loop() { }",
        "0 image\ndone 100000\nmmio 1\nend running\ntrace\nst 1001200c 00000007\n",
    ),
    (
        "isa --events 1",
        "fn init() { MMIOWRITE(1, 2); } fn loop() { }",
        "0 image\ndone 1\nmmio 0\nend running\n",
    ),
    ("interp", "fn init() {", "2\ntext at 11 ended\n"),
    (
        "isa",
        "fn init() { } fn loop() { }\n%%\n\n0000000g\n",
        "5\nline 4 malformed\n",
    ),
    (
        "interp",
        "fn init() { } fn loop() { }\n%%\n00000000\r\n1234567\n",
        "5\nline 4 malformed\n",
    ),
    ("interp", "fn init() { }\n%%\nx", "3\ncheck no-loop\n"),
    (
        "isa",
        "fn init() { } fn loop() { }\n%%\n%%\nx",
        "5\nsection line 3\n",
    ),
    (
        "compile",
        "fn init() { } fn loop() { }\n%%\n",
        "5\nsection line 2\n",
    ),
    ("compile", "", "3\ncheck no-init\n"),
    (
        "list",
        "fn init() { f(); } fn loop() { } fn f() { f(); }",
        "3\ncheck recursion function f\n",
    ),
];

// What the program answers to words with a blank between them.
fn answer(alloc: Global, line: &str, input: &[u8]) -> Result<Answer, AllocError> {
    let words = words_of_line(alloc, line)?;
    call_plain(alloc, &whole(&words, input))
}

// What it tells.
fn told(alloc: Global, line: &str, input: &str) -> Result<String, AllocError> {
    answer(alloc, line, input.as_bytes())?.told(alloc)
}

#[test]
fn reports_runs(rt: HostRuntime) -> Result<(), Fail> {
    for (line, input, want) in ROWS {
        let got = told(rt.alloc(), line, input)?;
        assert_eq!(rt; got.as_str(), want, "of {line} {input}");
    }
    Ok(())
}

// What a run of the code tells, without the number of instructions, which is the compiler's choice.
fn told_but_done(alloc: Global, input: &str) -> Result<String, AllocError> {
    let told = told(alloc, "isa --trace", input)?;
    match told.split_once("\nmmio ") {
        Some((begin, end)) if begin.starts_with("0 image\ndone ") => String::from_str(alloc, end),
        _ => Ok(told),
    }
}

#[test]
fn waits_and_halts(rt: HostRuntime) -> Result<(), Fail> {
    for (input, want) in [
        (
            "fn init() { x = MMIOREAD(0x10024048); } fn loop() { x = MMIOREAD(0x10024048); }\n%%\n0000000A",
            "1\nend wants-reply\ntrace\nld 10024048 0000000a\n",
        ),
        (
            "fn init() { x = MMIOREAD(0x90000000); } fn loop() { }",
            "0\nend halted bad-access\ntrace\n",
        ),
        (
            "fn init() { MMIOWRITE(1, 2); } fn loop() { }",
            "0\nend halted store-to-code\ntrace\n",
        ),
    ] {
        let got = told_but_done(rt.alloc(), input)?;
        assert_eq!(rt; got.as_str(), want, "of {input}");
    }
    Ok(())
}

// What `interp` tells of the driver, whose chip is busy at so many reads.
fn told_of_driver(alloc: Global, busy: usize) -> Result<String, AllocError> {
    let mut input = Vec::from_slice(alloc, source())?;
    input.extend_from_slice(b"\n%%\n")?;
    for _ in 0..busy {
        input.extend_from_slice(b"80000000\n")?;
    }
    answer(alloc, "interp --events 2000", &input)?.told(alloc)
}

// The driver polls a chip that never answers: 1,000 reads, and 4 writes.
#[test]
fn interprets_the_driver(rt: HostRuntime) -> Result<(), Fail> {
    let got = told_of_driver(rt.alloc(), 1000)?;
    assert_eq!(rt; got.as_str(), "0 image\nmmio 1004\nend spent\n");
    Ok(())
}

// What `list` tells of the image that `compile` writes for the input; what `compile` tells where it writes none.
fn listing(alloc: Global, input: &[u8]) -> Result<String, AllocError> {
    let image = answer(alloc, "compile", input)?;
    let begin = b"LBIM\x01\x00\x00\x00";
    if image.status == 0 && image.has_image && image.written.starts_with(begin) {
        answer(alloc, "list", &image.written)?.told(alloc)
    } else {
        image.told(alloc)
    }
}

// What `list` has to tell of the input: the same, over an image that it compiles.
fn expected_listing(alloc: Global, input: &[u8]) -> Result<String, AllocError> {
    let told = listing(alloc, input)?;
    match told.strip_prefix("0\nentry ") {
        Some(lines) => format!(in alloc; "0 image\nentry {lines}"),
        None => format!(in alloc; "of the image: {told}"),
    }
}

// Asserts that the bytes that `compile` writes for the input are an image, which lists as the input does.
fn lists_alike(rt: &impl Abort, alloc: Global, input: &[u8]) -> Result<(), AllocError> {
    let want = expected_listing(alloc, input)?;
    let got = answer(alloc, "list", input)?.told(alloc)?;
    assert_eq!(rt; got.as_str(), want.as_str());
    Ok(())
}

#[test]
fn compiles_images_that_list_alike(rt: HostRuntime) -> Result<(), Fail> {
    for input in [
        b"fn init() { } fn loop() { }".as_slice(),
        b"fn init() { stackalloc 8 as p { store4(p, 1); f(p); } } fn loop() { } fn f(p) { x = load4(p); MMIOWRITE(0x1001200C, x); }".as_slice(),
        source(),
    ] {
        lists_alike(&rt, rt.alloc(), input)?;
    }
    Ok(())
}
