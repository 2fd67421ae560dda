// Programs that are held in texts.
use crate::{accesses, halts};
use lb_isa::{Isa, Stepped};
use lb_trace::{Event, append_trace};
use lb_trace_testkit::text::{add_number, first_line, in_one_line, numbers};
use std::alloc::{AllocError, Global};
use std::process::Abort;
use std::test::Fail;

// More steps than any program takes.
const MOST_STEPS: u32 = 200;

// Steps until the program ends, and adds the accesses, the end and where it is.
fn add_steps(
    alloc: Global,
    told: &mut Vec<u8>,
    isa: &mut Isa,
    replies: &[u32],
) -> Result<(), AllocError> {
    let mut read = 0usize;
    for _ in 0..MOST_STEPS {
        match isa.step(replies.get(read).copied()) {
            Stepped::Committed { event: None } => {}
            Stepped::Committed { event: Some(event) } => {
                append_trace(told, &[event])?;
                if matches!(event, Event::Ld { .. }) {
                    read = read.saturating_add(1);
                }
            }
            Stepped::WantsReply => return add_number(told, b"wants reply at ", isa.pc()),
            Stepped::Halted { cause } => {
                let text = format!(in alloc; "halted {cause:?} at ")?;
                return add_number(told, text.as_bytes(), isa.pc());
            }
        }
    }
    Ok(())
}

// What is told of a program from address 0 on: its accesses, how it ends and where, and the registers that aren't 0, each
// in a line; nothing where the code is too long.
fn tell(alloc: Global, code: &[u32], replies: &[u32]) -> Result<Vec<u8>, AllocError> {
    let mut told = Vec::new(alloc);
    if code.is_empty() || code.len() > 32_768 {
        return Ok(told);
    }
    let mut isa = Isa::boot(alloc, code, 0)?;
    add_steps(alloc, &mut told, &mut isa, replies)?;
    for n in 0..32u8 {
        if isa.register(n) != 0 {
            let text = format!(in alloc; "\nx{n} ")?;
            add_number(&mut told, text.as_bytes(), isa.register(n))?;
        }
    }
    Ok(told)
}

// Asserts what is told of so many programs.
fn expect(rt: &impl Abort, alloc: Global, programs: &str, count: u32) -> Result<(), AllocError> {
    let mut left = programs;
    for _ in 0..count {
        let (what, rest) = first_line(left);
        let (words, rest) = first_line(rest);
        let (replies, rest) = first_line(rest);
        let (want, rest) = first_line(rest);
        let code = numbers(alloc, words)?;
        let replies = numbers(alloc, replies)?;
        let told = tell(alloc, code.as_slice(), replies.as_slice())?;
        assert_eq!(rt; in_one_line(told).as_slice(), want.as_bytes(), "{what}");
        left = rest;
    }
    assert_eq!(rt; left, "");
    Ok(())
}

#[test]
fn halts_by_each_cause(rt: HostRuntime) -> Result<(), Fail> {
    expect(&rt, rt.alloc(), halts::PROGRAMS, 27)?;
    Ok(())
}

#[test]
fn loads_stores_and_calculates(rt: HostRuntime) -> Result<(), Fail> {
    expect(&rt, rt.alloc(), accesses::PROGRAMS, 6)?;
    Ok(())
}
