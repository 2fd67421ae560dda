// Accesses of devices.

/// The programs, in the form that `programs` reads.
pub static PROGRAMS: &str = "\
no multiple of 4
9
fn init() { MMIOWRITE(0x10012002, 0); }
fn loop() { }

Undefined(Unaligned)

behind the first device
9
fn init() { MMIOWRITE(0x10013000, 0); }
fn loop() { }

Undefined(OutOfRange)

before the first device
9
fn init() { MMIOWRITE(0x10011FFC, 0); }
fn loop() { }

Undefined(OutOfRange)

before the second device
9
fn init() { x = MMIOREAD(0x10023FFC); }
fn loop() { }

Undefined(OutOfRange)

behind the second device
9
fn init() { x = MMIOREAD(0x10025000); }
fn loop() { }

Undefined(OutOfRange)

behind the second device and no multiple of 4
9
fn init() { x = MMIOREAD(0x10025001); }
fn loop() { }

Undefined(Unaligned)

a value without a value before an address that is refused
9
fn init() { MMIOWRITE(1, x); }
fn loop() { }

Undefined(UnsetVariable)

the expression of the address before that of the value
9
fn init() { MMIOWRITE(load1(0), x); }
fn loop() { }

Undefined(NotOwned)

the last word of the first device
9
fn init() { MMIOWRITE(0x10012FFC, 0); }
fn loop() { }

st 10012ffc 00000000
Spent

the ends of both devices, and a reply that is left over
9 5 7 9
fn init() { x = MMIOREAD(0x10012000); y = MMIOREAD(0x10024FFC); MMIOWRITE(0x10024000, (x - y)); }
fn loop() { }

ld 10012000 00000005
ld 10024ffc 00000007
st 10024000 fffffffe
Spent

a reply is wanted, and none is left
400000 0
fn init() { x = MMIOREAD(0x10024048); }
fn loop() { x = MMIOREAD(0x10024048); }

ld 10024048 00000000
Starved

fuel is wanted before the reply, and none is left
1 0
fn init() { x = MMIOREAD(0x10024048); }
fn loop() { x = MMIOREAD(0x10024048); }

ld 10024048 00000000
Spent

no reply at all
9
fn init() { x = MMIOREAD(0x10024048); }
fn loop() { x = MMIOREAD(0x10024048); }

Starved

`loop` is called again and again
3
fn init() { }
fn loop() { MMIOWRITE(0x1001200C, 1); }

st 1001200c 00000001
st 1001200c 00000001
Spent

a quotient and a remainder by 0
1
fn init() { MMIOWRITE(0x1001200C, (7 / 0)); MMIOWRITE(0x1001200C, (7 % 0)); }
fn loop() { }

st 1001200c ffffffff
st 1001200c 00000007
Spent

";
