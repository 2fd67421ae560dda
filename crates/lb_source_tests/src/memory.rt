// Loads, stores and blocks. The blocks stand one after another in a frame that has nothing else,
// and the stack begins at 0x40000: so the bytes before and behind those of `init` are not owned.

/// The programs, in the form that `programs` reads.
pub static PROGRAMS: &str = "\
a load fails at its first byte that fails: the second word is unset
9
fn init() { stackalloc 8 as p { store4(p, 1); x = load4((p + 4)); } }
fn loop() { }

Undefined(UnsetByte)

both words are set
9
fn init() { stackalloc 8 as p { store4(p, 1); store4((p + 4), 2); x = load4((p + 4)); } }
fn loop() { }

Spent

two bytes are unset, and then two aren't owned
9
fn init() { stackalloc 8 as p { store4(p, 1); x = load4((p + 6)); } }
fn loop() { }

Undefined(UnsetByte)

two bytes are set, and then two aren't owned
9
fn init() { stackalloc 8 as p { store4(p, 1); store4((p + 4), 2); x = load4((p + 6)); } }
fn loop() { }

Undefined(NotOwned)

two bytes aren't owned, and then two are unset
9
fn init() { stackalloc 8 as p { x = load4((p - 2)); } }
fn loop() { }

Undefined(NotOwned)

a byte that is set stands behind two that are unset
9
fn init() { stackalloc 8 as p { store1((p + 2), 1); x = load4(p); } }
fn loop() { }

Undefined(UnsetByte)

a block is owned while its body runs: a store past its end
9
fn init() { stackalloc 8 as p { store4((p + 6), 1); } }
fn loop() { }

Undefined(NotOwned)

a load after the block
9
fn init() { stackalloc 4 as p { store4(p, 1); } x = load4(p); }
fn loop() { }

Undefined(NotOwned)

a store after the block
9
fn init() { stackalloc 4 as p { } store1(p, 1); }
fn loop() { }

Undefined(NotOwned)

a load across address 0
9
fn init() { x = load4(0xFFFFFFFE); }
fn loop() { }

Undefined(NotOwned)

the block of the second turn is unset again
9
fn init() {
  x = 2; while x { stackalloc 4 as p { if (x == 2) { store4(p, 1); } else { q = load4(p); } }
  x = (x - 1); }
}
fn loop() { }

Undefined(UnsetByte)

an outer block goes on behind an inner one
9
fn init() {
  stackalloc 8 as p { stackalloc 4 as q { store4(p, 7); } MMIOWRITE(0x1001200C, load4(p)); }
}
fn loop() { }

st 1001200c 00000007
Spent

an address that wraps
9
fn init() {
  stackalloc 8 as p { q = (p + 4); store4(p, 9); MMIOWRITE(0x1001200C, load4((q + 0xFFFFFFFC))); }
}
fn loop() { }

st 1001200c 00000009
Spent

loads of each width at an odd address
9
fn init() {
  stackalloc 8 as p { store4(p, 0x84838281); store4((p + 4), 0x88878685); q = (p + 1);
  MMIOWRITE(0x1001200C, load1(q)); MMIOWRITE(0x1001200C, load2(q)); MMIOWRITE(0x1001200C, load4(q));
  }
}
fn loop() { }

st 1001200c 00000082
st 1001200c 00008382
st 1001200c 85848382
Spent

stores of the low bytes alone
9
fn init() {
  stackalloc 4 as p { store4(p, 0); store1((p + 1), 0x1FF); MMIOWRITE(0x1001200C, load4(p));
  store2((p + 1), 0xABCDEF01); MMIOWRITE(0x1001200C, load4(p)); }
}
fn loop() { }

st 1001200c 0000ff00
st 1001200c 00ef0100
Spent

where blocks stand, and the address stays behind them
9
fn init() {
  if 0 { stackalloc 4 as p { } } else { stackalloc 8 as p { MMIOWRITE(0x1001200C, p); } }
  stackalloc 4 as p { MMIOWRITE(0x1001200C, p); } MMIOWRITE(0x1001200C, p);
}
fn loop() { }

st 1001200c 0003fff4
st 1001200c 0003fffc
st 1001200c 0003fffc
Spent

";
