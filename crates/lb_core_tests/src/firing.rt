// Fires the schedules that are held in texts.
use crate::{causes, paths, schedules};
use lb_core::{Core, Demand};
use lb_trace::{Event, Kind, append_trace};
use lb_trace_testkit::kinds::kind_of;
use lb_trace_testkit::text::{add_number, first_line, in_one_line, numbers};
use std::alloc::{AllocError, Global};
use std::process::Abort;
use std::test::Fail;

// A reply that no access takes but a read.
const NO_REPLY: u32 = 0x5A5A5A5A;

// Fires the kinds of a line, asserts of each whether it is enabled, and adds the accesses.
fn fire_all(
    rt: &impl Abort,
    told: &mut Vec<u8>,
    core: &mut Core,
    kinds: &str,
    replies: &[u32],
) -> Result<(), AllocError> {
    let mut read = 0usize;
    for letter in kinds.chars() {
        let Some(kind) = kind_of(letter) else {
            continue;
        };
        let is_enabled = core.enabled(kind);
        assert_eq!(rt; is_enabled, letter.is_ascii_uppercase(), "{kind:?}");
        assert_eq!(rt; core.demand().is_some(), core.enabled(Kind::Mmio));
        if !is_enabled || core.retired() > 1000 {
            continue;
        }
        let reply = replies.get(read).copied().unwrap_or(NO_REPLY);
        if let Some(event) = core.fire(kind, reply) {
            append_trace(told, &[event])?;
            if matches!(event, Event::Ld { .. }) {
                read = read.saturating_add(1);
            }
        }
    }
    assert_eq!(rt; read, replies.len());
    Ok(())
}

// Adds the access that waits, if one does.
fn add_demand(told: &mut Vec<u8>, core: &Core) -> Result<(), AllocError> {
    match core.demand() {
        None => return Ok(()),
        Some(Demand::Read { addr }) => add_number(told, b"wants read ", addr)?,
        Some(Demand::Write { addr, value }) => {
            add_number(told, b"wants write ", addr)?;
            add_number(told, b" ", value)?;
        }
    }
    told.push(b'\n')?;
    Ok(())
}

// Adds how far the core is, why it is halted, and the registers that aren't 0.
fn add_state(alloc: Global, told: &mut Vec<u8>, core: &Core) -> Result<(), AllocError> {
    let counts = format!(in alloc; "done {} retired {} fetch ", core.done(), core.retired())?;
    add_number(told, counts.as_bytes(), core.fetch_pc())?;
    if let Some(cause) = core.halted() {
        let text = format!(in alloc; "\nhalted {cause:?}")?;
        told.extend_from_slice(text.as_bytes())?;
    }
    for n in 0..32u8 {
        if core.register(n) != 0 {
            let text = format!(in alloc; "\nx{n} ")?;
            add_number(told, text.as_bytes(), core.register(n))?;
        }
    }
    Ok(())
}

// What is told of a code from address 0 on under a schedule, with these replies; nothing where the code is too long.
fn tell(
    rt: &impl Abort,
    alloc: Global,
    code: &[u32],
    kinds: &str,
    replies: &[u32],
) -> Result<Vec<u8>, AllocError> {
    let mut told = Vec::new(alloc);
    if code.is_empty() || code.len() > 32_768 {
        return Ok(told);
    }
    let mut core = Core::boot(alloc, code, 0)?;
    fire_all(rt, &mut told, &mut core, kinds, replies)?;
    add_demand(&mut told, &core)?;
    add_state(alloc, &mut told, &core)?;
    assert_eq!(rt; core.code(), code);
    Ok(in_one_line(told))
}

// Asserts what is told of so many schedules.
fn expect(rt: &impl Abort, alloc: Global, programs: &str, count: u32) -> Result<(), AllocError> {
    let mut left = programs;
    for _ in 0..count {
        let (what, rest) = first_line(left);
        let (words, rest) = first_line(rest);
        let (kinds, rest) = first_line(rest);
        let (replies, rest) = first_line(rest);
        let (want, rest) = first_line(rest);
        let code = numbers(alloc, words)?;
        let replies = numbers(alloc, replies)?;
        let told = tell(rt, alloc, code.as_slice(), kinds, replies.as_slice())?;
        assert_eq!(rt; told.as_slice(), want.as_bytes(), "{what}");
        left = rest;
    }
    assert_eq!(rt; left, "");
    Ok(())
}

#[test]
fn waits_and_accesses(rt: HostRuntime) -> Result<(), Fail> {
    expect(&rt, rt.alloc(), schedules::PROGRAMS, 10)?;
    Ok(())
}

#[test]
fn drops_what_is_on_a_wrong_path(rt: HostRuntime) -> Result<(), Fail> {
    expect(&rt, rt.alloc(), paths::PROGRAMS, 9)?;
    Ok(())
}

#[test]
fn halts_by_each_cause(rt: HostRuntime) -> Result<(), Fail> {
    expect(&rt, rt.alloc(), causes::PROGRAMS, 8)?;
    Ok(())
}

#[test]
fn boots_at_its_entry(rt: HostRuntime) -> Result<(), Fail> {
    let code = [0x00108093, 0x00108093, 0x0000006F];
    let core = Core::boot(rt.alloc(), &code, 8)?;
    assert_eq!(rt; core.fetch_pc(), 8);
    assert_eq!(rt; core.code(), code.as_slice());
    assert_eq!(rt; core.done(), 0);
    assert_eq!(rt; core.halted(), None);
    Ok(())
}
