// Machines beside each other: copies, replays and parts. One function for each, since every machine
// that is at hand makes the proof of a function longer.
use crate::calls::{count, fires, parts_of, replay_of};
use crate::jobs::{Job, boot};
use crate::steps::tell;
use crate::stop::Stop;
use lb_machine::{Machine, Parts};
use lb_trace::print_trace;
use std::alloc::Global;

/// Whether the machine is one of this job, with this many entries at most.
pub fn is_of_job(
    alloc: Global,
    machine: &Machine,
    job: Job,
    max_events: u32,
) -> Result<bool, Stop> {
    let other = boot(alloc, job, max_events)?;
    Ok(other.same_job(machine))
}

/// What is told of a copy: whether it has the same job, the first line in which other things are told of it, and
/// whether it is made of the same log and accesses.
#[derive(Clone, Copy, Debug, PartialEq, Eq)]
pub struct Copied {
    pub has_job: bool,
    pub other_line: Option<usize>,
    pub is_made: bool,
}

impl Copied {
    /// Of a copy that is the same.
    pub const SAME: Copied = Copied {
        has_job: true,
        other_line: None,
        is_made: true,
    };
}

/// What is told of its copy.
pub fn compare_copy(alloc: Global, machine: &Machine) -> Result<Copied, Stop> {
    let has_job = copy_has_the_job(alloc, machine)?;
    let other_line = other_line_of_copy(alloc, machine)?;
    let is_made = is_made_of(machine.copy(alloc)?, machine);
    Ok(Copied {
        has_job,
        other_line,
        is_made,
    })
}

// Whether its copy has the same job.
fn copy_has_the_job(alloc: Global, machine: &Machine) -> Result<bool, Stop> {
    let copy = machine.copy(alloc)?;
    Ok(copy.same_job(machine))
}

// The first line in which its copy tells something else.
fn other_line_of_copy(alloc: Global, machine: &Machine) -> Result<Option<usize>, Stop> {
    let copy = machine.copy(alloc)?;
    other_line(alloc, &copy, machine)
}

// Whether it is made of the log and the accesses of the other.
fn is_made_of(machine: Machine, other: &Machine) -> bool {
    let Parts {
        log,
        trace,
        core,
        ..
    } = parts_of(machine);
    log.as_slice() == other.log()
        && trace.as_slice() == other.trace()
        && core.done() == other.core().done()
}

// The first line, from 1, in which other things are told of the two.
fn other_line(alloc: Global, one: &Machine, other: &Machine) -> Result<Option<usize>, Stop> {
    let told = tell(alloc, one)?;
    Ok(first_other_line(&told, &tell(alloc, other)?))
}

// The first line, from 1, in which two texts differ.
fn first_other_line(one: &[u8], other: &[u8]) -> Option<usize> {
    let mut line = 1usize;
    for (byte, its) in one.iter().zip(other) {
        if byte != its {
            return Some(line);
        }
        if *byte == b'\n' {
            line = line.saturating_add(1);
        }
    }
    (one.len() != other.len()).then_some(line)
}

/// The accesses that the machine made, as lines.
pub fn lines_of(alloc: Global, machine: &Machine) -> Result<Vec<u8>, Stop> {
    Ok(print_trace(alloc, machine.trace())?)
}

/// Where a replay isn't what a machine is that fires its log: the number of its entries, and the first line in which
/// other things are told; none where it can't fire the next entry.
#[derive(Clone, Copy, Debug, PartialEq, Eq)]
pub struct Parting {
    pub entries: usize,
    pub line: Option<usize>,
}

/// Where the first beginning of the log parts from it.
pub fn first_parting(alloc: Global, job: Job, whole: &Machine) -> Result<Option<Parting>, Stop> {
    let mut part = boot(alloc, job, 1000)?;
    parts_from(alloc, job, &mut part, whole)
}

// Where the replay of each length parts from it while it fires the log of the other, or it from this at the end.
fn parts_from(
    alloc: Global,
    job: Job,
    part: &mut Machine,
    whole: &Machine,
) -> Result<Option<Parting>, Stop> {
    for entry in whole.log() {
        let line = other_line_of_replay(alloc, job, part)?;
        let entries = count(part);
        if line.is_some() || !fires(part, *entry) {
            return Ok(Some(Parting { entries, line }));
        }
    }
    match other_line(alloc, part, whole)? {
        None => Ok(None),
        line => Ok(Some(Parting {
            entries: count(part),
            line,
        })),
    }
}

// The first line in which the replay of its log tells something else.
fn other_line_of_replay(alloc: Global, job: Job, part: &Machine) -> Result<Option<usize>, Stop> {
    let again = replay_of(alloc, job, part)?;
    other_line(alloc, &again, part)
}
