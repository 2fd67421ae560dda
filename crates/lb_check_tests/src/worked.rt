// The examples that the language is told by.
use crate::answer::{NoAnswer, answer, expect};
use std::test::Fail;

#[test]
fn answers_worked_examples(rt: HostRuntime) -> Result<(), Fail> {
    for (text, want) in [
        ("fn init() { } fn loop() { }", "ok words 176 stack 136"),
        ("", "no-init"),
        (
            "fn init() { } fn loop() { f(); } fn f() { g(); } fn g() { f(); }",
            "recursion f",
        ),
        (
            "fn init() { stackalloc 1892 as p { } } fn loop() { }",
            "ok words 184 stack 2032",
        ),
        (
            "fn init() { stackalloc 1896 as p { } } fn loop() { }",
            "ok words 272 stack 2036",
        ),
        (
            "fn init() { stackalloc 6 as p { } } fn loop() { }",
            "bad-alloc-size init 6",
        ),
        (
            "fn init() { } fn loop() { } fn f(a, b, c, d, e, g, h, i, j) { }",
            "too-many-params f 9",
        ),
    ] {
        expect(&rt, rt.alloc(), text, want)?;
    }
    Ok(())
}

#[test]
fn refuses_texts(rt: HostRuntime) {
    for text in ["fn init() { x = 4294967296; } fn loop() { }", "fn init() {"] {
        assert_eq!(rt; answer(rt.alloc(), text), Err(NoAnswer::Text), "of {text}");
    }
}
