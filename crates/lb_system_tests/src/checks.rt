// What `check` tells: what a program asks for, the first rule that it breaks, or the place where its text fails.
use lb_bulb::source;
use lb_testkit::call::{Call, told_by_plain, whole};
use std::test::Fail;

const CHECK: [&str; 2] = ["bulb", "check"];

const EMPTY: &[u8] = b"fn init() { } fn loop() { }";

// An input, and what is told of it: the status and the line.
const RULES: [(&str, &str); 24] = [
    (
        "fn init() { } fn loop() { }",
        "0\nok functions 2 words 176 stack 136\n",
    ),
    (
        "fn init() { } fn loop() { } fn init() { }",
        "3\ncheck duplicate-function function init\n",
    ),
    (
        "fn f(a, b, a) { } fn init() { }",
        "3\ncheck duplicate-name function f name a\n",
    ),
    (
        "fn f(a) -> (a, b, b) { } fn init() { }",
        "3\ncheck duplicate-name function f name b\n",
    ),
    ("", "3\ncheck no-init\n"),
    ("fn init() { }", "3\ncheck no-loop\n"),
    (
        "fn loop(x) { } fn init() -> (y) { }",
        "3\ncheck entry-shape function loop\n",
    ),
    (
        "fn init() { } fn loop() { } fn f(a, b, c, d, e, f, g, h, i) { }",
        "3\ncheck too-many-params function f count 9\n",
    ),
    (
        "fn init() { } fn loop() { } fn f(a) -> (a, b, c, d, e, f, g, h, i, j) { }",
        "3\ncheck too-many-params function f count 10\n",
    ),
    (
        "fn init() { stackalloc 6 as p { } } fn loop() { }",
        "3\ncheck bad-alloc-size function init bytes 6\n",
    ),
    (
        "fn init() { stackalloc 0 as p { } } fn loop() { }",
        "3\ncheck bad-alloc-size function init bytes 0\n",
    ),
    (
        "fn init() { g(); } fn loop() { }",
        "3\ncheck unknown-function function init name g\n",
    ),
    (
        "fn init() { f(1); } fn loop() { } fn f() { }",
        "3\ncheck wrong-arity function init name f\n",
    ),
    (
        "fn init() { x, x = f(); } fn loop() { } fn f() -> (a, b) { }",
        "3\ncheck duplicate-target function init name x\n",
    ),
    (
        "fn init() { } fn loop() { MMIOREAD(268582984); }",
        "3\ncheck bad-io function loop\n",
    ),
    (
        "fn init() { } fn loop() { f(); } fn f() { g(); } fn g() { f(); }",
        "3\ncheck recursion function f\n",
    ),
    (
        "fn init() { stackalloc 1892 as p { } } fn loop() { }",
        "0\nok functions 2 words 184 stack 2032\n",
    ),
    (
        "fn init() { stackalloc 1896 as p { } } fn loop() { }",
        "0\nok functions 2 words 272 stack 2036\n",
    ),
    (
        "fn init() { stackalloc 32628 as p { } } fn loop() { }",
        "0\nok functions 2 words 272 stack 32768\n",
    ),
    (
        "fn init() { stackalloc 32632 as p { } } fn loop() { }",
        "4\nlimit frame-need function init bytes 32772\n",
    ),
    (
        "fn init() { f(); } fn loop() { } fn f() { stackalloc 32628 as p { g(); } } fn g() { stackalloc 32628 as p { } }",
        "4\nlimit stack-need bytes 65672\n",
    ),
    // An earlier rule stands before a later one, wherever they are broken.
    (
        "fn init() { g(); stackalloc 6 as p { } } fn loop() { }",
        "3\ncheck bad-alloc-size function init bytes 6\n",
    ),
    (
        "fn init() { stackalloc 1896 as p { } } fn loop() { loop(); }",
        "3\ncheck recursion function loop\n",
    ),
    (
        "fn init() { } fn loop() { } fn f(a, b, c, d, e, g, h, i) -> (a, b, c, d, e, g, h, i) { }",
        "0\nok functions 3 words 320 stack 168\n",
    ),
];

// The same, of inputs that are no texts of programs.
const TEXTS: [(&str, &str); 15] = [
    ("fn init() {", "2\ntext at 11 ended\n"),
    ("/", "2\ntext at 1 ended\n"),
    ("fn if", "2\ntext at 5 ended\n"),
    ("fn init() { \u{1} }", "2\ntext at 12 bad-byte\n"),
    ("fn init() { é }", "2\ntext at 12 bad-byte\n"),
    ("fn\0", "2\ntext at 2 bad-byte\n"),
    (
        "fn init() { x = 4294967296; } fn loop() { }",
        "2\ntext at 25 number-too-wide\n",
    ),
    (
        "fn init() { x = 0xFFFFFFFFa",
        "2\ntext at 26 number-too-wide\n",
    ),
    ("fn init() { x = 429496729a", "2\ntext at 25 unexpected\n"),
    (
        "fn abcdefghijklmnopqrstuvwxyz_012345",
        "2\ntext at 35 name-too-long\n",
    ),
    ("fn if(", "2\ntext at 5 unexpected\n"),
    ("fn init() / {", "2\ntext at 11 unexpected\n"),
    ("fn init() { x = (a > b", "2\ntext at 20 unexpected\n"),
    ("fn init() { x = (a = b", "2\ntext at 20 unexpected\n"),
    ("fn init() { x == 1", "2\ntext at 15 unexpected\n"),
];

#[test]
fn tells_needs_and_rules(rt: HostRuntime) -> Result<(), Fail> {
    for (input, want) in RULES {
        let got = told_by_plain(rt.alloc(), &whole(&CHECK, input.as_bytes()))?;
        assert_eq!(rt; got.as_str(), want, "of {input}");
    }
    Ok(())
}

#[test]
fn tells_where_a_text_fails(rt: HostRuntime) -> Result<(), Fail> {
    for (input, want) in TEXTS {
        let got = told_by_plain(rt.alloc(), &whole(&CHECK, input.as_bytes()))?;
        assert_eq!(rt; got.as_str(), want, "of {input}");
    }
    Ok(())
}

#[test]
fn tells_the_needs_of_the_driver(rt: HostRuntime) -> Result<(), Fail> {
    let got = told_by_plain(rt.alloc(), &whole(&CHECK, source()))?;
    assert_eq!(rt; got.as_str(), "0\nok functions 5 words 3066 stack 2036\n");
    Ok(())
}

const AMPLE: Call<'static> = Call {
    words: &CHECK,
    input: EMPTY,
    piece: 65_536,
    read_fails: &[],
    room: 65_536,
    write_fails: &[],
};

// Reads and writes that fail, and a sink that is full.
const FAILING: [(Call<'static>, &str); 3] = [
    (
        Call {
            read_fails: &[0],
            ..AMPLE
        },
        "6\nread fault\n",
    ),
    (
        Call {
            write_fails: &[0],
            ..AMPLE
        },
        "7\n",
    ),
    (
        Call {
            input: b"fn init() { }",
            room: 9,
            ..AMPLE
        },
        "3\ncheck no-",
    ),
];

#[test]
fn tells_reads_and_writes_that_fail(rt: HostRuntime) -> Result<(), Fail> {
    for (call, want) in &FAILING {
        let got = told_by_plain(rt.alloc(), call)?;
        assert_eq!(rt; got.as_str(), *want);
    }
    Ok(())
}
