// Programs beside the compiled code of them: the same events, one by one.
use lb_testkit::beside::{Row, disagreement};
use lb_testkit::call::{call_plain, whole};
use std::alloc::{AllocError, Global};
use std::test::Fail;

const ROWS: [Row<'static>; 17] = [
    Row {
        input: "fn init() { a = 2047; b = 2048; c = 4095; d = 4096; e = 2147481600; f = 4294967295; MMIOWRITE(0x1001200C, a); MMIOWRITE(0x1001200C, b); MMIOWRITE(0x1001200C, c); MMIOWRITE(0x1001200C, d); MMIOWRITE(0x1001200C, e); MMIOWRITE(0x1001200C, f); }\nfn loop() { }\n",
        events: 6,
        source: "spent",
        code: "running",
    },
    Row {
        input: "fn init() { MMIOWRITE(0x1001200C, 2047); MMIOWRITE(0x1001200C, 2048); MMIOWRITE(0x1001200C, 4095); MMIOWRITE(0x1001200C, 4096); MMIOWRITE(0x1001200C, 2147481600); MMIOWRITE(0x1001200C, 4294967295); }\nfn loop() { }\n",
        events: 6,
        source: "spent",
        code: "running",
    },
    Row {
        input: "fn init() { a = 1; }\nfn loop() { x = MMIOREAD(0x10024048); y = x; MMIOWRITE(0x1002404C, y); }\n%%\n00000001\n80000000\nffffffff\n",
        events: 6,
        source: "starved",
        code: "wants-reply",
    },
    Row {
        input: "fn init() { i = 0; while (i < 5) { MMIOWRITE(0x1001200C, (i * i)); i = (i + 1); } }\nfn loop() { }\n",
        events: 5,
        source: "spent",
        code: "running",
    },
    Row {
        input: "fn init() { i = 0; while (i < 4) { j = 0; while (j < i) { if ((i ^ j) & 1) { MMIOWRITE(0x1001200C, ((i << 4) | j)); } else { MMIOWRITE(0x10012010, j); } j = (j + 1); } i = (i + 1); } }\nfn loop() { }\n",
        events: 6,
        source: "spent",
        code: "running",
    },
    Row {
        input: "fn init() { }\nfn loop() { x = MMIOREAD(0x10024048); while (x >> 31) { if (x == 2147483648) { MMIOWRITE(0x1001200C, 1); } x = MMIOREAD(0x10024048); } MMIOWRITE(0x1001200C, (x * ((x + 2) * (x + (3 - (4 / (5 - x))))))); }\n%%\n80000000\nC0000000\n00000007\n00000001\n",
        events: 7,
        source: "starved",
        code: "wants-reply",
    },
    Row {
        input: "fn init() { a = 9; b = 5; MMIOWRITE(0x1001200C, (((a - b) * (a + b)) - ((a & b) | ((a ^ b) << (a - (b + 1)))))); MMIOWRITE(((0x1001200C - 4) + (a - b)), ((a <. (0 - b)) + ((0 - a) <. b))); }\nfn loop() { }\n",
        events: 2,
        source: "spent",
        code: "running",
    },
    Row {
        input: "fn init() { while 1 { skip; } }\nfn loop() { }\n",
        events: 0,
        source: "spent",
        code: "running",
    },
    Row {
        input: "fn init() { x = MMIOREAD(0x10024048); while (0 < x) { x = (x - 1); if (x % 2) { if (x / 2) { MMIOWRITE(0x1001200C, 5); } else { MMIOWRITE(0x1001200C, x); } } else { while (x *^ 4294967295) { x = 0; MMIOWRITE(0x1001200C, 6); } } } }\nfn loop() { y = MMIOREAD((0x10024048 + (0 * 1))); }\n%%\n00000003\n",
        events: 2,
        source: "starved",
        code: "wants-reply",
    },
    Row {
        input: "fn init() { i = 5; s = 0; while i { a = MMIOREAD(0x10012000); if (a < i) { s = sum(s, a); } else { s = sum(s, i); } i = (i - 1); } MMIOWRITE(0x1001200C, s); }\nfn loop() { x = MMIOREAD(0x10012000); }\nfn sum(a, b) -> (c) { c = (a + b); }\n%%\n00000003\n00000009\n00000001\n00000007\n00000000\n",
        events: 6,
        source: "starved",
        code: "wants-reply",
    },
    Row {
        input: "fn f(a, b, c, d, e, f, g, h) -> (j, k, l, m, n, o, p, q) { j = h; k = g; l = f; m = e; n = d; o = c; p = b; q = a; }\nfn init() { q, p, o, n, m, l, k, j = f(1, 2, 3, 4, 5, 6, 7, 8); MMIOWRITE(0x1001200C, ((((((q * 10) + p) * 10) + o) * 10) + j)); }\nfn loop() { }\n",
        events: 1,
        source: "spent",
        code: "running",
    },
    Row {
        input: "fn init() { stackalloc 16 as p { i = 0; while (i < 16) { store1((p + i), (i * 17)); i = (i + 1); } MMIOWRITE(0x1001200C, load4(p)); MMIOWRITE(0x1001200C, load2((p + 6))); MMIOWRITE(0x1001200C, load1((p + 15))); store2((p + 2), 0xABCD); MMIOWRITE(0x1001200C, load4(p)); } }\nfn loop() { }\n",
        events: 4,
        source: "spent",
        code: "running",
    },
    Row {
        input: "fn init() { stackalloc 8 as p { stackalloc 4 as q { store4(q, 7); fill(p, load4(q)); MMIOWRITE(0x1001200C, (load4(p) + load4((p + 4)))); } } }\nfn loop() { }\nfn fill(p, v) { store4(p, v); w = twice(v); store4((p + 4), w); }\nfn twice(v) -> (w) { w = (v + v); }\n",
        events: 1,
        source: "spent",
        code: "running",
    },
    Row {
        input: "fn init() { x = 1; unset x; x = 2; if x { unset x; } else { } x = 3; MMIOWRITE(0x1001200C, x); x, y = swap(x, 4); MMIOWRITE(0x1001200C, (x - y)); }\nfn loop() { }\nfn swap(a, b) -> (b, a) { }\n",
        events: 2,
        source: "spent",
        code: "running",
    },
    Row {
        input: "fn init() { }\nfn loop() { n = MMIOREAD(0x1001200C); if ((n >> 23) & 1) { MMIOWRITE(0x1001200C, 0); } else { MMIOWRITE(0x1001200C, 0x800000); } }\n%%\n00000000\n00800000\n",
        events: 4,
        source: "starved",
        code: "wants-reply",
    },
    Row {
        input: "fn init() { v0 = 0; v1 = 1; v2 = 2; v3 = 3; v4 = 4; v5 = 5; v6 = 6; v7 = 7; v8 = 8; v9 = 9; v10 = 10; v11 = 11; v12 = 12; v13 = 13; v14 = 14; v15 = 15; v16 = 16; v17 = 17; v18 = 18; v19 = 19; v20 = 20; v21 = 21; v22 = 22; v23 = 23; v24 = 24; v25 = 25; v26 = 26; v27 = 27; v28 = 28; v29 = 29; v30 = 30; v31 = 31; v32 = 32; v33 = 33; v34 = 34; v35 = 35; v36 = 36; v37 = 37; v38 = 38; v39 = 39; s = 0; s = ((s * 3) + v0); s = ((s * 3) + v1); s = ((s * 3) + v2); s = ((s * 3) + v3); s = ((s * 3) + v4); s = ((s * 3) + v5); s = ((s * 3) + v6); s = ((s * 3) + v7); s = ((s * 3) + v8); s = ((s * 3) + v9); s = ((s * 3) + v10); s = ((s * 3) + v11); s = ((s * 3) + v12); s = ((s * 3) + v13); s = ((s * 3) + v14); s = ((s * 3) + v15); s = ((s * 3) + v16); s = ((s * 3) + v17); s = ((s * 3) + v18); s = ((s * 3) + v19); s = ((s * 3) + v20); s = ((s * 3) + v21); s = ((s * 3) + v22); s = ((s * 3) + v23); s = ((s * 3) + v24); s = ((s * 3) + v25); s = ((s * 3) + v26); s = ((s * 3) + v27); s = ((s * 3) + v28); s = ((s * 3) + v29); s = ((s * 3) + v30); s = ((s * 3) + v31); s = ((s * 3) + v32); s = ((s * 3) + v33); s = ((s * 3) + v34); s = ((s * 3) + v35); s = ((s * 3) + v36); s = ((s * 3) + v37); s = ((s * 3) + v38); s = ((s * 3) + v39); MMIOWRITE(0x1001200C, s); }\nfn loop() { }\n",
        events: 1,
        source: "spent",
        code: "running",
    },
    Row {
        input: "fn init() { stackalloc 4000 as p { store4((p + 3996), 9); x = deep(p, 3); MMIOWRITE(0x1001200C, x); } }\nfn loop() { }\nfn deep(p, n) -> (r) { stackalloc 2048 as q { store4((q + 2044), n); r = (load4((p + 3996)) + load4((q + 2044))); } }\n",
        events: 1,
        source: "spent",
        code: "running",
    },
];

#[test]
fn does_what_the_source_does(rt: HostRuntime) -> Result<(), Fail> {
    for row in &ROWS {
        let got = disagreement(rt.alloc(), row)?;
        assert_eq!(rt; got.as_str(), "", "of {}", row.input);
    }
    Ok(())
}

// Nothing where a mode's run of a program that writes for ever is cut short, with a report that begins so; else what it
// told.
fn told_otherwise(alloc: Global, mode: &str, begins: &str) -> Result<String, AllocError> {
    let words = ["bulb", mode, "--events", "1000", "--trace"];
    let input = b"fn init() { } fn loop() { MMIOWRITE(0x1001200C, 1); }";
    let a = call_plain(alloc, &whole(&words, input))?;
    let is_cut_short = a.status == 0
        && a.written.starts_with(begins.as_bytes())
        && a.written
            .ends_with(b"\nst 1001200c 00000001\nst 1001200c 00000001\n");
    a.told_unless(alloc, is_cut_short)
}

#[test]
fn writes_for_ever(rt: HostRuntime) -> Result<(), Fail> {
    for (mode, begins) in [
        (
            "interp",
            "mmio 999\nend spent\ntrace\nst 1001200c 00000001\n",
        ),
        ("isa", "done 1000\nmmio "),
    ] {
        let got = told_otherwise(rt.alloc(), mode, begins)?;
        assert_eq!(rt; got.as_str(), "", "by {mode}");
    }
    Ok(())
}
