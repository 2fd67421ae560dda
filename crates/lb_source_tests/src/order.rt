// The order in which expressions are evaluated, the variables that are set, and the operations.
// `load4(0)` is a load of bytes that aren't owned.

/// The programs, in the form that `programs` reads.
pub static PROGRAMS: &str = "\
a variable that was never set
9
fn init() { y = x; }
fn loop() { }

Undefined(UnsetVariable)

a variable that was set and unset
9
fn init() { x = 1; unset x; y = x; }
fn loop() { }

Undefined(UnsetVariable)

the left operand first: it is unset
9
fn init() { y = (x + load4(0)); }
fn loop() { }

Undefined(UnsetVariable)

the left operand first: it isn't owned
9
fn init() { y = (load4(0) + x); }
fn loop() { }

Undefined(NotOwned)

the address of a store first: it is unset
9
fn init() { store4(x, load4(0)); }
fn loop() { }

Undefined(UnsetVariable)

the address of a store first: it isn't owned
9
fn init() { store4(load4(0), x); }
fn loop() { }

Undefined(NotOwned)

the value before the store itself
9
fn init() { store4(0, x); }
fn loop() { }

Undefined(UnsetVariable)

a load whose address has no value
9
fn init() { y = load4(x); }
fn loop() { }

Undefined(UnsetVariable)

a variable is set, set again, unset and set
9
fn init() {
  unset x; skip; x = 1; x = (x + 1); MMIOWRITE(0x1001200C, x); unset x; x = 5;
  MMIOWRITE(0x1001200C, x);
}
fn loop() { }

st 1001200c 00000002
st 1001200c 00000005
Spent

a sum, a difference, a product, an upper product, a quotient, a remainder, `and` and `or`
9
fn init() {
  MMIOWRITE(0x1001200C, (0xFFFFFFFF + 2)); MMIOWRITE(0x1001200C, (7 - 8));
  MMIOWRITE(0x1001200C, (0x10001 * 0x10001)); MMIOWRITE(0x1001200C, (0x80000000 *^ 4));
  MMIOWRITE(0x1001200C, (0x80000000 / 3)); MMIOWRITE(0x1001200C, (0x80000000 % 3));
  MMIOWRITE(0x1001200C, (12 & 10)); MMIOWRITE(0x1001200C, (12 | 10));
}
fn loop() { }

st 1001200c 00000001
st 1001200c ffffffff
st 1001200c 00020001
st 1001200c 00000002
st 1001200c 2aaaaaaa
st 1001200c 00000002
st 1001200c 00000008
st 1001200c 0000000e
Spent

the same of `xor`, the shifts and the comparisons
9
fn init() {
  MMIOWRITE(0x1001200C, (12 ^ 10)); MMIOWRITE(0x1001200C, (0x80000000 >> 31));
  MMIOWRITE(0x1001200C, (1 << 33)); MMIOWRITE(0x1001200C, (0x80000000 >>. 4));
  MMIOWRITE(0x1001200C, (0xFFFFFFFF <. 0)); MMIOWRITE(0x1001200C, (0xFFFFFFFF < 0));
  MMIOWRITE(0x1001200C, (5 == 5));
}
fn loop() { }

st 1001200c 00000006
st 1001200c 00000001
st 1001200c 00000002
st 1001200c f8000000
st 1001200c 00000001
st 1001200c 00000000
st 1001200c 00000001
Spent

";
