// The examples that flat code is told by.
use crate::answer::expect;
use std::test::Fail;

#[test]
fn flattens_worked_examples(rt: HostRuntime) -> Result<(), Fail> {
    for (text, want) in [
        (
            "fn init() { MMIOWRITE(0x1001200C, (7 / 0)); MMIOWRITE(0x1001200C, (7 % 0)); } fn loop() { }",
            "init 0 loop 1\nfn 4 [] [] { 0:=268509196 1:=7 2:=0 1=1 Divu 2 []=Write [0, 1] 0:=268509196 1:=7 2:=0 1=1 Remu 2 []=Write [0, 1] }\nfn 0 [] [] { }",
        ),
        (
            "fn loop() { } fn init() { stackalloc 8 as p { store4(p, 1); x = load4((p + 4)); } }",
            "init 1 loop 0\nfn 0 [] [] { }\nfn 7 [] [] { 0=alloc 8 { 3:=1 store Four 0 3 3:=4 2=0 Add 3 1=load Four 2 } }",
        ),
        (
            "fn f(a, b) -> (q, r) { if b { q = (a / b); r = (a % b); } else { unset a; } } fn init() { x, y = f(7, 2); } fn loop() { while 1 { skip; } }",
            "init 1 loop 2\nfn 6 [0, 1] [2, 3] { if 1 { 2=0 Divu 1 3=0 Remu 1 } { unset 0 } }\nfn 5 [] [] { 2:=7 3:=2 [0, 1]=call 0 [2, 3] }\nfn 1 [] [] { while { 0:=1 } 0 { } }",
        ),
        (
            "fn init() { x = (1 + (1 + (1 + (1 + (1 + (1 + (1 + (1 + (1 + (1 + (1 + (1 + (1 + (1 + (1 + (1 + (1 + (1 + (1 + (1 + (1 + (1 + (1 + (1 + (1 + (1 + (1 + (1 + (1 + (1 + (1 + (1 + (1 + (1 + (1 + (1 + (1 + (1 + (1 + (1 + (1 + (1 + (1 + (1 + (1 + (1 + (1 + (1 + (1 + (1 + (1 + (1 + (1 + (1 + (1 + (1 + (1 + (1 + (1 + (1 + (1 + (1 + (1 + 1))))))))))))))))))))))))))))))))))))))))))))))))))))))))))))))); } fn loop() { }",
            "init 0 loop 1\nfn 65 [] [] { 1:=1 2:=1 3:=1 4:=1 5:=1 6:=1 7:=1 8:=1 9:=1 10:=1 11:=1 12:=1 13:=1 14:=1 15:=1 16:=1 17:=1 18:=1 19:=1 20:=1 21:=1 22:=1 23:=1 24:=1 25:=1 26:=1 27:=1 28:=1 29:=1 30:=1 31:=1 32:=1 33:=1 34:=1 35:=1 36:=1 37:=1 38:=1 39:=1 40:=1 41:=1 42:=1 43:=1 44:=1 45:=1 46:=1 47:=1 48:=1 49:=1 50:=1 51:=1 52:=1 53:=1 54:=1 55:=1 56:=1 57:=1 58:=1 59:=1 60:=1 61:=1 62:=1 63:=1 64:=1 63=63 Add 64 62=62 Add 63 61=61 Add 62 60=60 Add 61 59=59 Add 60 58=58 Add 59 57=57 Add 58 56=56 Add 57 55=55 Add 56 54=54 Add 55 53=53 Add 54 52=52 Add 53 51=51 Add 52 50=50 Add 51 49=49 Add 50 48=48 Add 49 47=47 Add 48 46=46 Add 47 45=45 Add 46 44=44 Add 45 43=43 Add 44 42=42 Add 43 41=41 Add 42 40=40 Add 41 39=39 Add 40 38=38 Add 39 37=37 Add 38 36=36 Add 37 35=35 Add 36 34=34 Add 35 33=33 Add 34 32=32 Add 33 31=31 Add 32 30=30 Add 31 29=29 Add 30 28=28 Add 29 27=27 Add 28 26=26 Add 27 25=25 Add 26 24=24 Add 25 23=23 Add 24 22=22 Add 23 21=21 Add 22 20=20 Add 21 19=19 Add 20 18=18 Add 19 17=17 Add 18 16=16 Add 17 15=15 Add 16 14=14 Add 15 13=13 Add 14 12=12 Add 13 11=11 Add 12 10=10 Add 11 9=9 Add 10 8=8 Add 9 7=7 Add 8 6=6 Add 7 5=5 Add 6 4=4 Add 5 3=3 Add 4 2=2 Add 3 0=1 Add 2 }\nfn 0 [] [] { }",
        ),
        (
            "fn f(a, b, c, d, e, f, g, h) -> (j, k, l, m, n, o, p, q) { j = h; k = g; l = f; m = e; n = d; o = c; p = b; q = a; } fn init() { q, p, o, n, m, l, k, j = f(1, 2, 3, 4, 5, 6, 7, 8); } fn loop() { }",
            "init 1 loop 2\nfn 17 [0, 1, 2, 3, 4, 5, 6, 7] [8, 9, 10, 11, 12, 13, 14, 15] { 8=7 9=6 10=5 11=4 12=3 13=2 14=1 15=0 }\nfn 17 [] [] { 8:=1 9:=2 10:=3 11:=4 12:=5 13:=6 14:=7 15:=8 [0, 1, 2, 3, 4, 5, 6, 7]=call 0 [8, 9, 10, 11, 12, 13, 14, 15] }\nfn 0 [] [] { }",
        ),
        (
            "fn init() { } fn loop() { p = 8; while (load1(p) < load4((p + 4))) { store2(p, load2(p)); p = MMIOREAD(0x10012000); } }",
            "init 0 loop 1\nfn 0 [] [] { }\nfn 7 [] [] { 0:=8 while { 1=load One 0 3:=4 2=0 Add 3 2=load Four 2 1=1 Ltu 2 } 1 { 2=load Two 0 store Two 0 2 1:=268509184 [0]=Read [1] } }",
        ),
        (
            "fn g(a, b) -> (c, d) { c = a; d = b; } fn init() { x = 3; x = (x + 1); x = (1 - (x * x)); y = (y + x); x = x; x, y = g(y, x); if x { while y { y = MMIOREAD(x); } } else { } } fn loop() { }",
            "init 1 loop 2\nfn 5 [0, 1] [2, 3] { 2=0 3=1 }\nfn 7 [] [] { 0:=3 3:=1 0=0 Add 3 2:=1 3=0 Mul 0 0=2 Sub 3 1=1 Add 0 0=0 [0, 1]=call 0 [1, 0] if 0 { while { } 1 { [1]=Read [0] } } { } }\nfn 0 [] [] { }",
        ),
    ] {
        expect(&rt, rt.alloc(), text, want)?;
    }
    Ok(())
}
