// Large programs of seeds.
use lb_gen::{checked_program, large_program};
use lb_text::{ReadError, print_program, read_program};
use std::alloc::{AllocError, Global};
use std::test::Fail;

// What the program of a seed needs.
fn needs_line(alloc: Global, seed: u32) -> Result<String, AllocError> {
    let checked = checked_program(alloc, seed)?;
    let functions = checked.program().functions.len();
    let words = checked.needs().words;
    let stack = checked.needs().stack;
    format!(in alloc; "functions {functions} words {words} stack {stack}")
}

#[test]
fn all_seeds_need_the_same(rt: HostRuntime) -> Result<(), Fail> {
    for seed in [7, 0, 1, 0x9E37_79B9, 4_294_967_295] {
        let line = needs_line(rt.alloc(), seed)?;
        assert_eq!(rt;
            line.as_str(),
            "functions 66 words 18232 stack 10640",
            "of {seed}"
        );
    }
    Ok(())
}

// The functions f0 and f1 of seed 7.
const FIRST_OF_7: &str = "fn f0(a, b) -> (r) {
  r = (a | 4230465337);
  i = 0;
  while (i < 2) {
    r = ((r % b) < 2223414435);
    i = (i + 1);
  }
  MMIOWRITE(268509196, r);
}
fn f1(a, b) -> (r) {
  r = (a == 4141510806);
  i = 0;
  while (i < 3) {
    r = ((r < b) *^ 6135163);
    i = (i + 1);
  }
  r = f0(r, 3450221762);
  MMIOWRITE(268509196, r);
}
";

// Its functions `init` and `loop`.
const LAST_OF_7: &str = "fn init() {
  r = f63(519978681, 4228331405);
}
fn loop() {
  skip;
}
";

// The functions f0 and f1 of the seed whose stream begins at 1.
const FIRST_OF_ONE: &str = "fn f0(a, b) -> (r) {
  r = (a >> 67634689);
  i = 0;
  while (i < 6) {
    r = ((r % b) ^ 745495504);
    i = (i + 1);
  }
  MMIOWRITE(268509196, r);
}
fn f1(a, b) -> (r) {
  r = (a + 2005365029);
  i = 0;
  while (i < 5) {
    r = ((r >> b) ^ 3031976842);
    i = (i + 1);
  }
  r = f0(r, 82049198);
  MMIOWRITE(268509196, r);
}
";

// Its functions `init` and `loop`.
const LAST_OF_ONE: &str = "fn init() {
  r = f63(1106051047, 471756047);
}
fn loop() {
  skip;
}
";

// Whether the program's text is so long, begins and ends so.
fn is_printed(
    alloc: Global,
    seed: u32,
    length: usize,
    first: &str,
    last: &str,
) -> Result<bool, AllocError> {
    let printed = print_program(alloc, &large_program(alloc, seed)?)?;
    let text = printed.as_slice();
    Ok(
        text.len() == length
            && text.starts_with(first.as_bytes())
            && text.ends_with(last.as_bytes()),
    )
}

#[test]
fn programs_are_printed(rt: HostRuntime) {
    for (seed, length, first, last) in [
        (7, 11_643, FIRST_OF_7, LAST_OF_7),
        (0x9E37_79B9, 11_639, FIRST_OF_ONE, LAST_OF_ONE),
    ] {
        assert_eq!(rt;
            is_printed(rt.alloc(), seed, length, first, last),
            Ok(true),
            "of {seed}"
        );
    }
}

// The most bytes of a text.
const MOST_BYTES: usize = 1_048_576;

// Whether the text of the seed's program is a program's that is printed the same.
fn is_read_again(alloc: Global, seed: u32) -> Result<bool, AllocError> {
    let printed = print_program(alloc, &large_program(alloc, seed)?)?;
    let text = printed.as_slice();
    if text.len() > MOST_BYTES {
        return Ok(false);
    }
    match read_program(alloc, text) {
        Ok(program) => Ok(print_program(alloc, &program)?.as_slice() == text),
        Err(ReadError::Text(_)) => Ok(false),
        Err(ReadError::Memory) => Err(AllocError),
    }
}

#[test]
fn texts_are_read_again(rt: HostRuntime) {
    for seed in [7, 4_294_967_295] {
        assert_eq!(rt; is_read_again(rt.alloc(), seed), Ok(true), "of {seed}");
    }
}
