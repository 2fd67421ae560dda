// Programs that show one thing each.
use crate::ran::{expect, expect_in_slots};
use std::test::Fail;

// Each text, and what its code does to the devices, with places that are made and in slots alone.
#[test]
fn computes_and_keeps(rt: HostRuntime) -> Result<(), Fail> {
    let alloc = rt.alloc();
    for (text, want) in [
        // every operation
        (
            "fn init() { a = 0x80000002; b = 3; MMIOWRITE(0x1001200C, (a + b)); MMIOWRITE(0x1001200C, (a - b)); MMIOWRITE(0x1001200C, (a * b)); MMIOWRITE(0x1001200C, (a *^ b)); MMIOWRITE(0x1001200C, (a / b)); MMIOWRITE(0x1001200C, (a % b)); MMIOWRITE(0x1001200C, (a & b)); MMIOWRITE(0x1001200C, (a | b)); MMIOWRITE(0x1001200C, (a ^ b)); MMIOWRITE(0x1001200C, (a >> b)); MMIOWRITE(0x1001200C, (a << b)); MMIOWRITE(0x1001200C, (a >>. b)); MMIOWRITE(0x1001200C, (a <. b)); MMIOWRITE(0x1001200C, (a < b)); MMIOWRITE(0x1001200C, (a == b)); MMIOWRITE(0x1001200C, (a == a)); } fn loop() { x = MMIOREAD(0x10024048); }",
            "2147483653 2147483647 2147483654 1 715827883 1 2 2147483651 2147483649 268435456 16 4026531840 1 0 0 1 wants",
        ),
        // loads and stores of each width, a load without a sign
        (
            "fn init() { stackalloc 8 as p { store4(p, 0x12345678); store2((p + 4), 0xABCD9876); store1((p + 6), 0x1FF); store1((p + 7), 0); MMIOWRITE(0x1001200C, load1(p)); MMIOWRITE(0x1001200C, load2((p + 1))); MMIOWRITE(0x1001200C, load4((p + 4))); MMIOWRITE(0x1001200C, load2((p + 4))); MMIOWRITE(0x1001200C, load1((p + 6))); } } fn loop() { x = MMIOREAD(0x10024048); }",
            "120 13398 16750710 39030 255 wants",
        ),
        // literals of one instruction and of two
        (
            "fn init() { MMIOWRITE(0x1001200C, 0); MMIOWRITE(0x1001200C, 2047); MMIOWRITE(0x1001200C, 2048); MMIOWRITE(0x1001200C, 4096); MMIOWRITE(0x1001200C, 0xFFFFF800); MMIOWRITE(0x1001200C, 0xFFFFF7FF); MMIOWRITE(0x1001200C, 0x7FFFFFFF); MMIOWRITE(0x1001200C, 0xFFFFFFFF); MMIOWRITE(0x1001200C, 0x12345800); } fn loop() { x = MMIOREAD(0x10024048); }",
            "0 2047 2048 4096 4294965248 4294965247 2147483647 4294967295 305420288 wants",
        ),
        // a block whose bytes hold what another call left there
        (
            "fn fill() { stackalloc 16 as p { store4(p, 0xFFFFFFFF); store4((p + 4), 0xFFFFFFFF); store4((p + 8), 0xFFFFFFFF); store4((p + 12), 0xFFFFFFFF); } } fn take() -> (x) { stackalloc 16 as p { store1((p + 1), 0); store1(p, 7); x = load2(p); } } fn init() { fill(); x = take(); MMIOWRITE(0x1001200C, x); } fn loop() { x = MMIOREAD(0x10024048); }",
            "7 wants",
        ),
        // two blocks that nest, and two one behind the other
        (
            "fn init() { stackalloc 8 as p { store4((p + 4), 1); stackalloc 4 as q { store4(q, 2); MMIOWRITE(0x1001200C, (load4((p + 4)) + (10 * load4(q)))); } stackalloc 4 as r { store4(r, 3); MMIOWRITE(0x1001200C, (load4((p + 4)) + (10 * load4(r)))); } } } fn loop() { x = MMIOREAD(0x10024048); }",
            "21 31 wants",
        ),
    ] {
        expect(&rt, alloc, text, &[], want)?;
        expect_in_slots(&rt, alloc, text, &[], want)?;
    }
    Ok(())
}

// The same of calls and loops.
#[test]
fn calls_and_repeats(rt: HostRuntime) -> Result<(), Fail> {
    let alloc = rt.alloc();
    for (text, want) in [
        // a loop whose body calls, and both blocks of an `if`
        (
            "fn loop() { x = MMIOREAD(0x10024048); } fn double(x) -> (y) { y = (x + x); } fn init() { i = 0; s = 1; while (i < 5) { s = double(s); if (i & 1) { MMIOWRITE(0x1001200C, s); } else { MMIOWRITE(0x1001200C, (s + 100)); } i = (i + 1); } }",
            "102 4 108 16 132 wants",
        ),
        // eight arguments and results, all turned round, and a call that swaps its targets' values
        (
            "fn f(a, b, c, d, e, f, g, h) -> (j, k, l, m, n, o, p, q) { j = h; k = g; l = f; m = e; n = d; o = c; p = b; q = a; } fn swap(a, b) -> (b, a) { skip; } fn init() { a, b, c, d, e, f, g, h = f(1, 2, 3, 4, 5, 6, 7, 8); a, h = swap(a, h); MMIOWRITE(0x1001200C, a); MMIOWRITE(0x1001200C, b); MMIOWRITE(0x1001200C, c); MMIOWRITE(0x1001200C, d); MMIOWRITE(0x1001200C, e); MMIOWRITE(0x1001200C, f); MMIOWRITE(0x1001200C, g); MMIOWRITE(0x1001200C, h); } fn loop() { x = MMIOREAD(0x10024048); }",
            "1 7 6 5 4 3 2 8 wants",
        ),
        // a callee that sets as many registers as its caller: the caller's values stay
        (
            "fn g(x) -> (y) { a = (x + 1); b = (a + 1); c = (b + 1); d = (c + 1); e = (d + 1); f = (e + 1); g = (f + 1); y = (a + (b + (c + (d + (e + (f + g)))))); } fn init() { a = 1; b = 2; c = 3; d = 4; e = 5; f = 6; g = 7; h = g(10); MMIOWRITE(0x1001200C, (a + (10 * (b + (10 * (c + (10 * (d + (10 * (e + (10 * (f + (10 * g))))))))))))); MMIOWRITE(0x1001200C, h); } fn loop() { x = MMIOREAD(0x10024048); }",
            "7654321 98 wants",
        ),
    ] {
        expect(&rt, alloc, text, &[], want)?;
        expect_in_slots(&rt, alloc, text, &[], want)?;
    }
    // the last function goes back to boot, and `loop` begins again
    let again =
        "fn init() { MMIOWRITE(0x1001200C, 1); } fn loop() { x = MMIOREAD(0x10024048); MMIOWRITE(0x1001200C, (x + 1)); }";
    let want = "1 <5 6 <9 10 <4294967295 0 wants";
    expect(&rt, alloc, again, &[5, 9, 0xFFFF_FFFF], want)?;
    Ok(())
}
