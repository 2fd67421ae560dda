// The order of the rules: an earlier one is told, wherever the place is where a later one is broken.
use crate::answer::expect;
use std::test::Fail;

#[test]
fn earlier_rules_come_first(rt: HostRuntime) -> Result<(), Fail> {
    for (text, want) in [
        (
            "fn f(a, a) { } fn g() { } fn g() { }",
            "duplicate-function g",
        ),
        ("fn f() { } fn g(a, a) { }", "duplicate-name g a"),
        ("fn loop(a) { }", "no-init"),
        ("fn init(a) { }", "no-loop"),
        (
            "fn f(a, b, c, d, e, g, h, i, j) { } fn init(a) { } fn loop() { }",
            "entry-shape init",
        ),
        (
            "fn init() { stackalloc 6 as p { } } fn loop() { } fn f(a, b, c, d, e, g, h, i, j) { }",
            "too-many-params f 9",
        ),
        (
            "fn init() { f(); } fn loop() { stackalloc 6 as p { } }",
            "bad-alloc-size loop 6",
        ),
        (
            "fn init() { loop(1); } fn loop() { f(); }",
            "unknown-function loop f",
        ),
        (
            "fn init() { x, x = f(); } fn loop() { f(); } fn f() -> (a, b) { }",
            "wrong-arity loop f",
        ),
        (
            "fn init() { MMIOWRITE(1); } fn loop() { x, x = f(); } fn f() -> (a, b) { }",
            "duplicate-target loop x",
        ),
        (
            "fn init() { init(); } fn loop() { MMIOWRITE(1); }",
            "bad-io loop",
        ),
        (
            "fn init() { stackalloc 1896 as p { } } fn loop() { loop(); }",
            "recursion loop",
        ),
    ] {
        expect(&rt, rt.alloc(), text, want)?;
    }
    Ok(())
}
