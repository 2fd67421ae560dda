// Each rule, kept and broken, and the first place where it is broken in two.
use crate::answer::expect;
use std::test::Fail;

#[test]
fn names_stand_once(rt: HostRuntime) -> Result<(), Fail> {
    for (text, want) in [
        (
            "fn init() { } fn loop() { } fn f() { } fn g() { } fn g() { } fn f() { }",
            "duplicate-function g",
        ),
        (
            "fn init() { } fn loop() { } fn init() { }",
            "duplicate-function init",
        ),
        (
            "fn init() { } fn loop() { } fn f(a, b, b, a) { }",
            "duplicate-name f b",
        ),
        (
            "fn init() { } fn loop() { } fn f(a, a) -> (b, b) { }",
            "duplicate-name f a",
        ),
        (
            "fn init() { } fn loop() { } fn f(a) -> (b, c, c) { } fn g(a, a) { }",
            "duplicate-name f c",
        ),
        (
            "fn init() { } fn loop() { } fn f(a, b) -> (b, a) { }",
            "ok words 272 stack 144",
        ),
    ] {
        expect(&rt, rt.alloc(), text, want)?;
    }
    Ok(())
}

#[test]
fn entries_stand_alone(rt: HostRuntime) -> Result<(), Fail> {
    for (text, want) in [
        ("fn loop() { }", "no-init"),
        ("fn init() { }", "no-loop"),
        ("fn f() { }", "no-init"),
        ("fn loop(a) { } fn init() -> (b) { }", "entry-shape loop"),
        ("fn init() -> (b) { } fn loop() { }", "entry-shape init"),
        ("fn init() { } fn loop(a) { }", "entry-shape loop"),
        (
            "fn loop() { } fn f(a) { } fn init() { }",
            "ok words 260 stack 140",
        ),
    ] {
        expect(&rt, rt.alloc(), text, want)?;
    }
    Ok(())
}

#[test]
fn counts_parameters_and_results(rt: HostRuntime) -> Result<(), Fail> {
    for (text, want) in [
        (
            "fn init() { } fn loop() { } fn f(a, b, c, d, e, g, h, i) -> (a, b, c, d, e, g, h, i) { }",
            "ok words 320 stack 168",
        ),
        (
            "fn init() { } fn loop() { } fn f() -> (a, b, c, d, e, g, h, i, j) { } fn g(a, b, c, d, e, f, h, i, j, k) { }",
            "too-many-params f 9",
        ),
        (
            "fn init() { } fn loop() { } fn f(a, b, c, d, e, g, h, i, j) -> (a, b, c, d, e, g, h, i, j, k) { }",
            "too-many-params f 9",
        ),
        (
            "fn init() { } fn loop() { } fn f(a, b, c, d, e, g, h, i) -> (a, b, c, d, e, g, h, i, j, k) { }",
            "too-many-params f 10",
        ),
    ] {
        expect(&rt, rt.alloc(), text, want)?;
    }
    Ok(())
}

#[test]
fn blocks_are_whole_words(rt: HostRuntime) -> Result<(), Fail> {
    for (text, want) in [
        (
            "fn init() { stackalloc 0 as p { } } fn loop() { stackalloc 2 as p { } }",
            "bad-alloc-size init 0",
        ),
        (
            "fn init() { stackalloc 7 as p { stackalloc 5 as q { } } } fn loop() { }",
            "bad-alloc-size init 7",
        ),
        (
            "fn init() { stackalloc 4 as p { stackalloc 5 as q { } } stackalloc 6 as p { } } fn loop() { }",
            "bad-alloc-size init 5",
        ),
        (
            "fn init() { } fn loop() { if 1 { } else { while 1 { stackalloc 4294967295 as p { } } } }",
            "bad-alloc-size loop 4294967295",
        ),
        (
            "fn init() { stackalloc 4 as p { } } fn loop() { stackalloc 8 as p { stackalloc 12 as q { } } }",
            "ok words 200 stack 164",
        ),
    ] {
        expect(&rt, rt.alloc(), text, want)?;
    }
    Ok(())
}

#[test]
fn calls_fit(rt: HostRuntime) -> Result<(), Fail> {
    for (text, want) in [
        (
            "fn init() { if 1 { f(); } else { g(); } } fn loop() { h(); } fn f() { }",
            "unknown-function init g",
        ),
        (
            "fn init() { } fn loop() { f(); if 0 { i(); } h(); } fn f() { g(); }",
            "unknown-function loop i",
        ),
        (
            "fn init() { f(); } fn loop() { g(); } fn f(a) { } fn g(a) { }",
            "wrong-arity init f",
        ),
        (
            "fn init() { f(1); x = f(1); } fn loop() { g(); } fn f(a) { } fn g() -> (b) { }",
            "wrong-arity init f",
        ),
        (
            "fn init() { x, y = f(1, 2); f(1, 2); } fn loop() { f(1); } fn f(a, b) -> (c, d) { }",
            "wrong-arity init f",
        ),
        (
            "fn init() { x, y, z, y, x = f(); } fn loop() { x, x, y, y, z = f(); } fn f() -> (a, b, c, d, e) { }",
            "duplicate-target init y",
        ),
        (
            "fn init() { x, y = f(1, x); } fn loop() { x, y = f(x, x); } fn f(a, b) -> (b, a) { }",
            "ok words 344 stack 292",
        ),
    ] {
        expect(&rt, rt.alloc(), text, want)?;
    }
    Ok(())
}

#[test]
fn accesses_have_their_shape(rt: HostRuntime) -> Result<(), Fail> {
    for (text, want) in [
        ("fn init() { MMIOREAD(1); } fn loop() { }", "bad-io init"),
        (
            "fn init() { } fn loop() { x, y = MMIOREAD(1); }",
            "bad-io loop",
        ),
        ("fn init() { x = MMIOREAD(); } fn loop() { }", "bad-io init"),
        (
            "fn init() { } fn loop() { x = MMIOREAD(1, 2); }",
            "bad-io loop",
        ),
        (
            "fn init() { MMIOWRITE(1); } fn loop() { MMIOWRITE(1); }",
            "bad-io init",
        ),
        (
            "fn init() { } fn loop() { x = MMIOWRITE(1, 2); }",
            "bad-io loop",
        ),
        (
            "fn loop() { MMIOWRITE(1, 2, 3); } fn init() { MMIOREAD(1); }",
            "bad-io loop",
        ),
        (
            "fn init() { x = MMIOREAD(1); } fn loop() { MMIOWRITE(1, 2); }",
            "ok words 226 stack 144",
        ),
    ] {
        expect(&rt, rt.alloc(), text, want)?;
    }
    Ok(())
}

#[test]
fn no_call_leads_back(rt: HostRuntime) -> Result<(), Fail> {
    for (text, want) in [
        (
            "fn init() { f(); } fn loop() { f(); } fn f() { h(); g(); } fn g() { g(); } fn h() { }",
            "recursion g",
        ),
        (
            "fn init() { init(); } fn loop() { loop(); }",
            "recursion init",
        ),
        (
            "fn init() { } fn loop() { f(); } fn f() { g(); } fn g() { h(); } fn h() { while 1 { if 0 { } else { g(); } } }",
            "recursion g",
        ),
        (
            "fn f() { } fn g() { f(); f(); } fn h() { g(); f(); } fn init() { h(); g(); f(); } fn loop() { h(); h(); }",
            "ok words 488 stack 544",
        ),
    ] {
        expect(&rt, rt.alloc(), text, want)?;
    }
    Ok(())
}

#[test]
fn counts_needs(rt: HostRuntime) -> Result<(), Fail> {
    for (text, want) in [
        (
            "fn init() { x = ((1 + y) * load4(x)); unset z; } fn loop() { }",
            "ok words 228 stack 160",
        ),
        (
            "fn init() { store2((a + 1), load1(b)); a, c = f(load1(b), 1); } fn loop() { } fn f(a, b) -> (c, d) { MMIOWRITE(a, b); }",
            "ok words 380 stack 312",
        ),
        (
            "fn init() { } fn loop() { } fn f() { g(); } fn g() { stackalloc 400 as p { } }",
            "ok words 352 stack 676",
        ),
    ] {
        expect(&rt, rt.alloc(), text, want)?;
    }
    Ok(())
}
