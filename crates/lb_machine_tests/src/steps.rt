// Steps that are written as letters, and what is told of a machine.
use crate::calls::{
    arrived, attempt, attempt_at, count, done, fetch_pc, halted, is_enabled, lamp, retired,
    trace_of,
};
use lb_machine::{Machine, NotFired};
use lb_rv::Cause;
use lb_trace::{Kind, append_trace};
use lb_trace_testkit::kinds::{KINDS, kind_of};
use std::alloc::{AllocError, Global};
use std::process::Abort;

// Fires a kind that is enabled.
fn fire(rt: &impl Abort, machine: &mut Machine, kind: Kind) {
    let place = count(machine) as u64;
    assert!(rt; is_enabled(machine, kind), "{kind:?} at {place}");
    assert_eq!(rt; attempt_at(machine, place, kind), Ok(place), "{kind:?}");
}

// Fires a kind that isn't.
fn refuse(rt: &impl Abort, machine: &mut Machine, kind: Kind) {
    let entries = count(machine);
    assert!(rt; !is_enabled(machine, kind), "{kind:?} at {entries}");
    assert_eq!(rt;
        attempt(machine, kind),
        Err(NotFired::GuardFalse),
        "{kind:?} at {entries}"
    );
    assert_eq!(rt; count(machine), entries, "{kind:?}");
}

// Fires the kinds of one instruction.
fn instruction(rt: &impl Abort, machine: &mut Machine) {
    fire(rt, machine, Kind::Fetch);
    fire(rt, machine, Kind::Decode);
    fire(rt, machine, Kind::Execute);
    if is_enabled(machine, Kind::Mmio) {
        fire(rt, machine, Kind::Mmio);
    }
    if is_enabled(machine, Kind::Ram) {
        fire(rt, machine, Kind::Ram);
    }
    fire(rt, machine, Kind::Writeback);
}

/// Fires the kinds of the letters: those in upper case are enabled, those in lower case aren't. A point is one
/// instruction, when nothing else is under way.
pub fn fire_all(rt: &impl Abort, machine: &mut Machine, letters: &str) {
    for letter in letters.chars() {
        if letter == '.' {
            instruction(rt, machine);
            continue;
        }
        let Some(kind) = kind_of(letter) else {
            continue;
        };
        if letter.is_ascii_uppercase() {
            fire(rt, machine, kind);
        } else {
            refuse(rt, machine, kind);
        }
    }
}

/// What is told of a machine: how far its core is, why it is halted, its frames, its lamp and its accesses.
pub fn tell(alloc: Global, machine: &Machine) -> Result<Vec<u8>, AllocError> {
    let counts = format!(in alloc;
        "entries {} done {} retired {} fetch {} arrived {} lamp {}\n",
        count(machine),
        done(machine),
        retired(machine),
        fetch_pc(machine),
        arrived(machine),
        lamp(machine)
    )?;
    let mut told = Vec::from_slice(alloc, counts.as_bytes())?;
    if let Some(cause) = halted(machine) {
        let text = format!(in alloc; "halted {cause:?}\n")?;
        told.extend_from_slice(text.as_bytes())?;
    }
    append_trace(&mut told, trace_of(machine))?;
    Ok(told)
}

/// Asserts that a halted machine fires nothing, and doesn't change.
pub fn expect_halted(rt: &impl Abort, machine: &mut Machine, cause: Cause) {
    let entries = count(machine);
    for (_, kind) in KINDS {
        assert!(rt; !is_enabled(machine, kind), "{kind:?}, halted by {cause:?}");
        assert_eq!(rt;
            attempt(machine, kind),
            Err(NotFired::Halted { cause }),
            "{kind:?}"
        );
    }
    assert_eq!(rt; count(machine), entries, "halted by {cause:?}");
}
