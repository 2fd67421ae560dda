// Where fuel is spent, and calls.

/// The programs, in the form that `programs` reads.
pub static PROGRAMS: &str = "\
no fuel for `init`
0
fn init() { MMIOWRITE(0x1001200C, 1); }
fn loop() { MMIOWRITE(0x1001200C, 1); }

Spent

fuel for `init` alone
1
fn init() { MMIOWRITE(0x1001200C, 1); }
fn loop() { MMIOWRITE(0x1001200C, 1); }

st 1001200c 00000001
Spent

fuel for `init` and one `loop`
2
fn init() { MMIOWRITE(0x1001200C, 1); }
fn loop() { MMIOWRITE(0x1001200C, 1); }

st 1001200c 00000001
st 1001200c 00000001
Spent

each turn of a `while` spends one
3
fn init() { while 1 { MMIOWRITE(0x1001200C, 1); } }
fn loop() { }

st 1001200c 00000001
st 1001200c 00000001
Spent

no fuel for the third turn
3
fn init() { x = 3; while x { x = (x - 1); } MMIOWRITE(0x1001200C, 1); }
fn loop() { }

Spent

fuel for three turns
4
fn init() { x = 3; while x { x = (x - 1); } MMIOWRITE(0x1001200C, 1); }
fn loop() { }

st 1001200c 00000001
Spent

no turn and both branches of an `if` spend nothing
1
fn init() {
  while 0 { } if 3 { MMIOWRITE(0x1001200C, 1); } else { } if 0 { } else { MMIOWRITE(0x1001200C, 2);
  }
}
fn loop() { }

st 1001200c 00000001
st 1001200c 00000002
Spent

the condition is tested before fuel is spent
1
fn init() { while x { } }
fn loop() { }

Undefined(UnsetVariable)

a variable of `init` isn't set in `loop`
9
fn init() { x = 1; }
fn loop() { y = x; }

Undefined(UnsetVariable)

no fuel for the call
1
fn init() { MMIOWRITE(0x1001200C, 1); x, y = f(7, 8); MMIOWRITE(0x1001200C, 2); }
fn loop() { }
fn f(a, b) -> (c, d) { c = (a + b); d = (a * b); a = 99; }

st 1001200c 00000001
Spent

fuel for the call
2
fn init() { MMIOWRITE(0x1001200C, 1); x, y = f(7, 8); MMIOWRITE(0x1001200C, 2); }
fn loop() { }
fn f(a, b) -> (c, d) { c = (a + b); d = (a * b); a = 99; }

st 1001200c 00000001
st 1001200c 00000002
Spent

the arguments before fuel is spent, the first one first: it is unset
1
fn init() { x, y = f(z, load4(0)); }
fn loop() { }
fn f(a, b) -> (c, d) { }

Undefined(UnsetVariable)

the first argument first: it isn't owned
9
fn init() { x, y = f(load4(0), z); }
fn loop() { }
fn f(a, b) -> (c, d) { }

Undefined(NotOwned)

the variables of a function are its own
9
fn init() {
  a = 1; c = 5; x, y = f(7, 8); MMIOWRITE(0x1001200C, a); MMIOWRITE(0x1001200C, c);
  MMIOWRITE(0x1001200C, x); MMIOWRITE(0x1001200C, y);
}
fn loop() { }
fn f(a, b) -> (c, d) { c = (a + b); d = (a * b); a = 99; }

st 1001200c 00000001
st 1001200c 00000005
st 1001200c 0000000f
st 1001200c 00000038
Spent

a target that is an argument too
9
fn init() { a = 2; a, x = f((a + 1), a); MMIOWRITE(0x1001200C, a); MMIOWRITE(0x1001200C, x); }
fn loop() { }
fn f(a, b) -> (c, d) { c = (a + b); d = (a * b); a = 99; }

st 1001200c 00000005
st 1001200c 00000006
Spent

a variable of the caller isn't set in the function
9
fn init() { z = 1; x, y = f(1, 2); }
fn loop() { }
fn f(a, b) -> (c, d) { c = z; d = 0; }

Undefined(UnsetVariable)

a result is unset
9
fn init() { z = 1; x, y = f(1, 2); }
fn loop() { }
fn f(a, b) -> (c, d) { c = 1; }

Undefined(UnsetVariable)

a function changes a block of its caller
9
fn init() {
  stackalloc 4 as p { store4(p, 3); x, y = f(p, 0); MMIOWRITE(0x1001200C, x);
  MMIOWRITE(0x1001200C, load4(p)); }
}
fn loop() { }
fn f(a, b) -> (c, d) { c = load4(a); store4(a, 6); d = 0; }

st 1001200c 00000003
st 1001200c 00000006
Spent

the frame of a function stands below its caller's, and its block isn't owned behind it
9
fn init() {
  stackalloc 8 as p { x, y = f(1, 2); MMIOWRITE(0x1001200C, p); MMIOWRITE(0x1001200C, x);
  z = load1(x); }
}
fn loop() { }
fn f(a, b) -> (c, d) { stackalloc 4 as q { store4(q, 1); c = q; d = 0; } }

st 1001200c 0003fff8
st 1001200c 0003fff4
Undefined(NotOwned)

";
