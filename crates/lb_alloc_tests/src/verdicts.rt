// Places that are refused, and beside them places that are accepted.
use crate::answer::expect_verdict;
use std::test::Fail;

// Variables are numbered in the order in which their names come first, then the values of expressions: that of the second 1
// is variable 3.
const SUM: &str = "fn init() { x = 1; y = (x + 1); x = (x + y); } fn loop() { }";

#[test]
fn judges_each_place(rt: HostRuntime) -> Result<(), Fail> {
    for (places, want) in [
        ("18 19 20 21;", true),
        // two that are live at once have one register, and two that aren't
        ("18 18 20 21;", false),
        ("18 19 20 18;", false),
        ("18 19 20 19;", true),
        // the same with a slot
        ("s0 s0 20 21;", false),
        ("s0 19 20 s0;", false),
        ("18 s1 20 s1;", true),
        ("s0 s1 s2 s3;", true),
        // slots are numbered below the number of variables, registers are 18 to 29
        ("18 19 20 s3;", true),
        ("18 19 20 s4;", false),
        ("17 19 20 21;", false),
        ("29 19 20 21;", true),
        ("30 19 20 21;", false),
        // a place for each variable, and places for each function, and no more
        ("18 19 20;", false),
        ("18 19 20 21 22;", false),
        ("18 19 20 21; 18", false),
        ("18 19 20 21", false),
        ("18 19 20 21; ;", false),
    ] {
        expect_verdict(&rt, rt.alloc(), SUM, places, want)?;
    }
    Ok(())
}

#[test]
fn judges_what_is_live(rt: HostRuntime) -> Result<(), Fail> {
    for (text, places, want) in [
        // x lives across the call that sets y
        (
            "fn init() { x = 2; y = f(); x = (x + y); } fn loop() { } fn f() -> (r) { r = 1; }",
            "18 18 20 21; ; 18 19",
            false,
        ),
        (
            "fn init() { x = 2; y = f(); x = (x + y); } fn loop() { } fn f() -> (r) { r = 1; }",
            "18 19 20 19; ; 18 19",
            true,
        ),
        // a call sets its targets at once
        (
            "fn init() { x, y = f(); x = (x + y); } fn loop() { } fn f() -> (r, s) { r = 1; s = 2; }",
            "18 18 20 21; ; 18 19 20",
            false,
        ),
        (
            "fn init() { x, y = f(); x = (x + 1); } fn loop() { } fn f() -> (r, s) { r = 1; s = 2; }",
            "18 18 20 21; ; 18 19 20",
            false,
        ),
        (
            "fn init() { x, y = f(); x = (y + 1); } fn loop() { } fn f() -> (r, s) { r = 1; s = 2; }",
            "18 18 20 21; ; 18 19 20",
            false,
        ),
        (
            "fn init() { x, y = f(); } fn loop() { } fn f() -> (r, s) { r = 1; s = 2; }",
            "18 18; ; 18 19 20",
            true,
        ),
        // the end reads the results
        (
            "fn init() { x, y = f(); } fn loop() { } fn f() -> (r, s) { r = 1; s = 2; }",
            "18 19; ; 18 18 20",
            false,
        ),
        // the next turn of the loop reads z
        (
            "fn init() { z = 1; while z { a = z; z = 7; b = 3; } } fn loop() { }",
            "18 19 18 20;",
            false,
        ),
        (
            "fn init() { z = 1; while z { a = z; b = 3; z = 7; } } fn loop() { }",
            "18 19 18 20;",
            true,
        ),
        (
            "fn init() { z = 1; c = 1; while c { c = z; b = 3; } } fn loop() { }",
            "18 19 18 20;",
            false,
        ),
        // the start sets both parameters at once
        (
            "fn f(a, b) -> (r) { r = (a + b); } fn init() { } fn loop() { }",
            "18 18 19 20 21; ;",
            false,
        ),
        (
            "fn f(a, b) -> (r) { r = 1; } fn init() { } fn loop() { }",
            "18 18 19 20; ;",
            true,
        ),
        // on one way r is read at the end and set nowhere
        (
            "fn f(a) -> (r) { if a { r = 1; } else { } } fn init() { } fn loop() { }",
            "18 18 19; ;",
            false,
        ),
        (
            "fn f(a) -> (r) { if a { r = 1; } else { r = 2; } } fn init() { } fn loop() { }",
            "18 18 19; ;",
            true,
        ),
        // a block's address is set before the body
        (
            "fn init() { q = 1; stackalloc 8 as p { store4(p, q); } } fn loop() { }",
            "18 18 19 20 21;",
            false,
        ),
        (
            "fn init() { q = 1; stackalloc 8 as p { store4(p, 1); } } fn loop() { }",
            "18 18 19 20 21;",
            true,
        ),
        // an unset is a setting
        (
            "fn init() { x = 1; unset y; x = (x + 1); } fn loop() { }",
            "18 18 19 20;",
            false,
        ),
        (
            "fn init() { x = 1; x = (x + 1); unset y; } fn loop() { }",
            "18 18 19 20;",
            true,
        ),
    ] {
        expect_verdict(&rt, rt.alloc(), text, places, want)?;
    }
    Ok(())
}
