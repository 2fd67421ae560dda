// The examples that placed code is told by.
use crate::answer::{expect, expect_doubled};
use std::test::Fail;

// Commands without blocks.
const PLAIN: &str =
    "fn init() { x = 7; y = load4(x); store2(x, y); z = (x - y); unset z; } fn loop() { }";

// Blocks, and conditions.
const BLOCKS: &str =
    "fn init() { stackalloc 8 as p { if p { skip; } else { p = 1; } while p { p = 0; } } } fn loop() { }";

// Calls and accesses.
const CALLS: &str =
    "fn f(a, b) -> (q, r) { q = b; r = a; } fn init() { x, y = f(1, 2); MMIOWRITE(0x1001200C, y); y = MMIOREAD(0x1001200C); } fn loop() { }";

#[test]
fn places_worked_examples(rt: HostRuntime) -> Result<(), Fail> {
    for (text, registers, want) in [
        (
            PLAIN,
            (0, 0),
            "init 0 loop 1\nfn 7 [] [] { r30:=7 s0=r30 r30=s0 r30=load Four r30 s1=r30 r30=s0 r31=s1 store Two r30 r31 r30=s0 r31=s1 r30=r30 Sub r31 s2=r30 }\nfn 0 [] [] { }",
        ),
        (
            PLAIN,
            (0, 12),
            "init 0 loop 1\nfn 0 [] [] { r18:=7 r19=load Four r18 store Two r18 r19 r20=r18 Sub r19 }\nfn 0 [] [] { }",
        ),
        (
            PLAIN,
            (3, 12),
            "init 0 loop 1\nfn 3 [] [] { r30:=7 s0=r30 r30=s0 r30=load Four r30 s1=r30 r30=s0 r31=s1 store Two r30 r31 r30=s0 r31=s1 r30=r30 Sub r31 s2=r30 }\nfn 0 [] [] { }",
        ),
        (
            PLAIN,
            (0, 3),
            "init 0 loop 1\nfn 7 [] [] { r18:=7 r19=load Four r18 store Two r18 r19 r20=r18 Sub r19 }\nfn 0 [] [] { }",
        ),
        (
            PLAIN,
            (3, 4),
            "init 0 loop 1\nfn 7 [] [] { r30:=7 s0=r30 r30=s0 r30=load Four r30 s1=r30 r30=s0 r31=s1 store Two r30 r31 r30=s0 r31=s1 r30=r30 Sub r31 s2=r30 }\nfn 0 [] [] { }",
        ),
        (
            PLAIN,
            (0, 1),
            "init 0 loop 1\nfn 7 [] [] { r18:=7 r30=load Four r18 s1=r30 r31=s1 store Two r18 r31 r31=s1 r30=r18 Sub r31 s2=r30 }\nfn 0 [] [] { }",
        ),
        (
            PLAIN,
            (1, 2),
            "init 0 loop 1\nfn 7 [] [] { r30:=7 s0=r30 r30=s0 r19=load Four r30 r30=s0 store Two r30 r19 r30=s0 r30=r30 Sub r19 s2=r30 }\nfn 0 [] [] { }",
        ),
        (
            BLOCKS,
            (0, 0),
            "init 0 loop 1\nfn 2 [] [] { r30=alloc 8 { s0=r30 r30=s0 if r30 { } { r30:=1 s0=r30 } while { r30=s0 } r30 { r30:=0 s0=r30 } } }\nfn 0 [] [] { }",
        ),
        (
            BLOCKS,
            (0, 12),
            "init 0 loop 1\nfn 0 [] [] { r18=alloc 8 { if r18 { } { r18:=1 } while { } r18 { r18:=0 } } }\nfn 0 [] [] { }",
        ),
        (
            BLOCKS,
            (0, 1),
            "init 0 loop 1\nfn 2 [] [] { r18=alloc 8 { if r18 { } { r18:=1 } while { } r18 { r18:=0 } } }\nfn 0 [] [] { }",
        ),
        (
            BLOCKS,
            (1, 2),
            "init 0 loop 1\nfn 1 [] [] { r30=alloc 8 { s0=r30 r30=s0 if r30 { } { r30:=1 s0=r30 } while { r30=s0 } r30 { r30:=0 s0=r30 } } }\nfn 0 [] [] { }",
        ),
        (
            CALLS,
            (0, 0),
            "init 1 loop 2\nfn 5 [Slot(0), Slot(1)] [Slot(2), Slot(3)] { r30=s1 s2=r30 r30=s0 s3=r30 }\nfn 5 [] [] { r30:=1 s2=r30 r30:=2 s3=r30 [Slot(0), Slot(1)]=call 0 [Slot(2), Slot(3)] r30:=268509196 s2=r30 []=Write [Slot(2), Slot(1)] r30:=268509196 s2=r30 [Slot(1)]=Read [Slot(2)] }\nfn 0 [] [] { }",
        ),
        (
            CALLS,
            (0, 12),
            "init 1 loop 2\nfn 0 [Register(18), Register(19)] [Register(20), Register(21)] { r20=r19 r21=r18 }\nfn 0 [] [] { r20:=1 r21:=2 [Register(18), Register(19)]=call 0 [Register(20), Register(21)] r20:=268509196 []=Write [Register(20), Register(19)] r20:=268509196 [Register(19)]=Read [Register(20)] }\nfn 0 [] [] { }",
        ),
        (
            CALLS,
            (1, 3),
            "init 1 loop 2\nfn 5 [Slot(0), Register(19)] [Register(20), Slot(3)] { r20=r19 r30=s0 s3=r30 }\nfn 5 [] [] { r20:=1 r30:=2 s3=r30 [Slot(0), Register(19)]=call 0 [Register(20), Slot(3)] r20:=268509196 []=Write [Register(20), Register(19)] r20:=268509196 [Register(19)]=Read [Register(20)] }\nfn 0 [] [] { }",
        ),
    ] {
        expect(&rt, rt.alloc(), text, registers, want)?;
    }
    Ok(())
}

#[test]
fn places_a_doubled_variable(rt: HostRuntime) -> Result<(), Fail> {
    for (registers, want) in [
        (
            (0, 0),
            "init 0 loop 1\nfn 1 [] [] { r30:=5 s0=r30 r30=s0 r31=s0 r30=r30 Add r31 s0=r30 }\nfn 0 [] [] { }",
        ),
        (
            (0, 1),
            "init 0 loop 1\nfn 0 [] [] { r18:=5 r18=r18 Add r18 }\nfn 0 [] [] { }",
        ),
    ] {
        expect_doubled(&rt, rt.alloc(), registers, want)?;
    }
    Ok(())
}
