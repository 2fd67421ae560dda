// Programs, and the texts that are printed of them.
use crate::sketch::Line::{self, Alloc, Call, Device, If, Set, Skip, Store, Unset, While};
use crate::sketch::Term::{self, Bin, Load, Num, Var};
use crate::sketch::{NoTree, Sketch, program};
use lb_printing::print_program;
use lb_syntax::{Action, Op, Width};
use std::alloc::Global;
use std::process::Abort;
use std::test::Fail;

const A: Term<'static> = Var(b"a");

const B: Term<'static> = Var(b"b");

const X: Term<'static> = Var(b"x");

// The text that is printed of the program.
fn printed(alloc: Global, sketches: &[Sketch]) -> Result<String, NoTree> {
    let tree = program(alloc, sketches)?;
    let bytes = print_program(alloc, &tree)?;
    String::from_utf8(bytes).map_err(|_| NoTree::NotText)
}

// Asserts that just this text is printed of the program.
fn expect(rt: &impl Abort, alloc: Global, sketches: &[Sketch], want: &str) -> Result<(), NoTree> {
    assert_eq!(rt; printed(alloc, sketches)?.as_str(), want);
    Ok(())
}

// A function without parameters and results.
const fn plain<'a>(name: &'a [u8], body: &'a [Line<'a>]) -> Sketch<'a> {
    Sketch {
        name,
        params: &[],
        results: &[],
        body,
    }
}

const EIGHT_LINES: &str = "fn init() {
  x = 16;
  if (x < 3) {
    skip;
  }
}
fn loop() {
}
";

const INIT: &[Line<'static>] = &[
    Set(b"x", Num(0x10)),
    If(Bin(Op::Ltu, &X, &Num(3)), &[Skip], &[]),
];

#[test]
fn prints_functions_one_after_another(rt: HostRuntime) -> Result<(), Fail> {
    let two = [plain(b"init", INIT), plain(b"loop", &[])];
    expect(&rt, rt.alloc(), &two, EIGHT_LINES)?;
    expect(&rt, rt.alloc(), &[], "")?;
    Ok(())
}

const HEADS: &str = "fn f(a) {
}
fn g() -> (r) {
}
fn _h2(a, b, Z_9) -> (r, a) {
}
";

#[test]
fn prints_parameters_and_results(rt: HostRuntime) -> Result<(), Fail> {
    let f = Sketch {
        params: &[b"a"],
        ..plain(b"f", &[])
    };
    let g = Sketch {
        results: &[b"r"],
        ..plain(b"g", &[])
    };
    let h = Sketch {
        params: &[b"a", b"b", b"Z_9"],
        results: &[b"r", b"a"],
        ..plain(b"_h2", &[])
    };
    expect(&rt, rt.alloc(), &[f, g, h], HEADS)?;
    Ok(())
}

// One command on each line.
const LINES: &str = "fn f() {
  skip;
  x = 0;
  x = 4294967295;
  unset x;
  store1(a, 1);
  store2(x, b);
  store4((a + 4), load4(a));
  x = load1(load2(b));
  f();
  f(1, (a - b));
  a = f(x);
  a, b = f(a, b, x);
  x = MMIOREAD(268509208);
  MMIOWRITE(a, 1);
}
";

const COMMANDS: &[Line<'static>] = &[
    Skip,
    Set(b"x", Num(0)),
    Set(b"x", Num(0xFFFF_FFFF)),
    Unset(b"x"),
    Store(Width::One, A, Num(1)),
    Store(Width::Two, X, B),
    Store(
        Width::Four,
        Bin(Op::Add, &A, &Num(4)),
        Load(Width::Four, &A),
    ),
    Set(b"x", Load(Width::One, &Load(Width::Two, &B))),
    Call(&[], b"f", &[]),
    Call(&[], b"f", &[Num(1), Bin(Op::Sub, &A, &B)]),
    Call(&[b"a"], b"f", &[X]),
    Call(&[b"a", b"b"], b"f", &[A, B, X]),
    Device(&[b"x"], Action::Read, &[Num(0x1001_2018)]),
    Device(&[], Action::Write, &[A, Num(1)]),
];

#[test]
fn prints_a_command_on_a_line(rt: HostRuntime) -> Result<(), Fail> {
    expect(&rt, rt.alloc(), &[plain(b"f", COMMANDS)], LINES)?;
    Ok(())
}

const SIGNS: &str = "fn f() {
  x = (a + b);
  x = (a - b);
  x = (a * b);
  x = (a *^ b);
  x = (a / b);
  x = (a % b);
  x = (a & b);
  x = (a | b);
  x = (a ^ b);
  x = (a >> b);
  x = (a << b);
  x = (a >>. b);
  x = (a <. b);
  x = (a < b);
  x = (a == b);
  x = ((a / b) / (b / a));
}
";

const OPERATIONS: &[Line<'static>] = &[
    Set(b"x", Bin(Op::Add, &A, &B)),
    Set(b"x", Bin(Op::Sub, &A, &B)),
    Set(b"x", Bin(Op::Mul, &A, &B)),
    Set(b"x", Bin(Op::Mulhuu, &A, &B)),
    Set(b"x", Bin(Op::Divu, &A, &B)),
    Set(b"x", Bin(Op::Remu, &A, &B)),
    Set(b"x", Bin(Op::And, &A, &B)),
    Set(b"x", Bin(Op::Or, &A, &B)),
    Set(b"x", Bin(Op::Xor, &A, &B)),
    Set(b"x", Bin(Op::Sru, &A, &B)),
    Set(b"x", Bin(Op::Slu, &A, &B)),
    Set(b"x", Bin(Op::Srs, &A, &B)),
    Set(b"x", Bin(Op::Lts, &A, &B)),
    Set(b"x", Bin(Op::Ltu, &A, &B)),
    Set(b"x", Bin(Op::Eq, &A, &B)),
    Set(
        b"x",
        Bin(Op::Divu, &Bin(Op::Divu, &A, &B), &Bin(Op::Divu, &B, &A)),
    ),
];

#[test]
fn prints_the_sign_of_each_operation(rt: HostRuntime) -> Result<(), Fail> {
    expect(&rt, rt.alloc(), &[plain(b"f", OPERATIONS)], SIGNS)?;
    Ok(())
}

const NESTED: &str = "fn f() {
  stackalloc 8 as a {
    while x {
      if (x == 1) {
      } else {
        skip;
        if b {
          unset b;
        } else {
          while 0 {
          }
        }
      }
      unset x;
    }
  }
}
";

const BLOCKS: &[Line<'static>] = &[Alloc(
    8,
    b"a",
    &[While(
        X,
        &[
            If(
                Bin(Op::Eq, &X, &Num(1)),
                &[],
                &[Skip, If(B, &[Unset(b"b")], &[While(Num(0), &[])])],
            ),
            Unset(b"x"),
        ],
    )],
)];

#[test]
fn prints_blocks_in_blocks(rt: HostRuntime) -> Result<(), Fail> {
    expect(&rt, rt.alloc(), &[plain(b"f", BLOCKS)], NESTED)?;
    Ok(())
}
