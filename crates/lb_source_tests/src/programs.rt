// Programs that are held in texts. Each is a line of what it shows, a line of the fuel and the
// replies, the program's own text up to a blank line, and what is told of its run up to another.
ghost use Rattle.std.specs.Prelude.{◌<◌, ◌^◌, length};

use crate::{devices, fuel, memory, order};
use lb_handmade::{checked, packed_layout};
use lb_source::interpret;
use lb_text::read_program;
use lb_trace::print_trace;
use std::alloc::Global;
use std::process::Abort;
use std::test::Fail;

// The most bytes of a program's text.
const MOST_BYTES: usize = 1_048_576;

// What is told of a program's run, where the blocks of each frame stand one after another: its
// accesses and how it ends, each in a line.
fn tell(alloc: Global, text: &[u8], fuel: u64, replies: &[u32]) -> Result<String, Fail>
    requires { length text.now < 2 ^ 32 }
{
    let program = checked(alloc, read_program(alloc, text)?)?;
    let layout = packed_layout(alloc, &program)?;
    let run = interpret(alloc, &program, &layout, fuel, replies)?;
    let mut told = String::from_utf8(print_trace(alloc, run.trace.as_slice())?)?;
    let end = run.end;
    let end = format!(in alloc; "{end:?}")?;
    told.push_str(end.as_str())?;
    Ok(told)
}

// The first line of a text, and the rest.
fn line(text: &str) -> (&str, &str) {
    text.split_once('\n').unwrap_or((text, ""))
}

// A text up to its first blank line, and the rest.
fn part(text: &str) -> (&str, &str) {
    text.split_once("\n\n").unwrap_or((text, ""))
}

// The numbers of a line, in decimal: the fuel, and the replies.
fn numbers(alloc: Global, line: &str) -> Result<(u64, Vec<u32>), Fail> {
    let mut fuel = 0;
    let mut replies = Vec::new(alloc);
    for (i, text) in line.split(' ').enumerate() {
        let n: u32 = text.parse()?;
        if i == 0 {
            fuel = u64::from(n);
        } else {
            replies.push(n)?;
        }
    }
    Ok((fuel, replies))
}

// Asserts what is told of so many programs.
fn expect(rt: &impl Abort, alloc: Global, programs: &str, count: u32) -> Result<(), Fail> {
    let mut left = programs;
    for _ in 0..count {
        let (what, rest) = line(left);
        let (given, rest) = line(rest);
        let (text, rest) = part(rest);
        let (want, rest) = part(rest);
        let (fuel, replies) = numbers(alloc, given)?;
        assert!(rt; text.len() <= MOST_BYTES, "{what}");
        let told = tell(alloc, text.as_bytes(), fuel, replies.as_slice())?;
        assert_eq!(rt; told.as_str(), want, "{what}");
        left = rest;
    }
    assert_eq!(rt; left, "");
    Ok(())
}

#[test]
fn moves_bytes_of_owned_blocks(rt: HostRuntime) -> Result<(), Fail> {
    expect(&rt, rt.alloc(), memory::PROGRAMS, 16)
}

#[test]
fn evaluates_in_order(rt: HostRuntime) -> Result<(), Fail> {
    expect(&rt, rt.alloc(), order::PROGRAMS, 11)
}

#[test]
fn accesses_devices(rt: HostRuntime) -> Result<(), Fail> {
    expect(&rt, rt.alloc(), devices::PROGRAMS, 15)
}

#[test]
fn spends_fuel_and_calls(rt: HostRuntime) -> Result<(), Fail> {
    expect(&rt, rt.alloc(), fuel::PROGRAMS, 19)
}
