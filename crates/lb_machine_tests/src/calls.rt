// Calls of a machine behind functions without clauses. What a test knows of a machine is what it is
// told, and no proof of a test looks into the rows of a kind or the replay of a log.
use crate::jobs::{Job, replayed};
use crate::stop::Stop;
use lb_machine::{Machine, NotFired, Parts};
use lb_rv::Cause;
use lb_trace::{Entry, Event, Kind};
use std::alloc::Global;

/// Whether the kind is enabled.
pub fn is_enabled(machine: &Machine, kind: Kind) -> bool {
    machine.enabled(kind)
}

/// Tries to fire a kind, as worker 0.
pub fn attempt(machine: &mut Machine, kind: Kind) -> Result<u64, NotFired> {
    machine.fire(0, kind)
}

/// Tries to fire a kind, as the worker whose number is the place modulo 8.
pub fn attempt_at(machine: &mut Machine, place: u64, kind: Kind) -> Result<u64, NotFired> {
    machine.fire((place % 8) as u8, kind)
}

/// Whether an entry is fired.
pub fn fires(machine: &mut Machine, entry: Entry) -> bool {
    entry.worker < 8 && machine.fire(entry.worker, entry.kind).is_ok()
}

/// How many entries the log has.
pub fn count(machine: &Machine) -> usize {
    machine.log().len()
}

/// The first four entries of the log. They hold no memory, so that an assertion on them costs little.
pub fn first_entries(machine: &Machine) -> [Option<Entry>; 4] {
    let log = machine.log();
    [
        log.first().copied(),
        log.get(1).copied(),
        log.get(2).copied(),
        log.get(3).copied(),
    ]
}

/// The accesses.
pub fn trace_of(machine: &Machine) -> &[Event] {
    machine.trace()
}

/// How many instructions are done.
pub fn done(machine: &Machine) -> u64 {
    machine.core().done()
}

/// How many were retired.
pub fn retired(machine: &Machine) -> u64 {
    machine.core().retired()
}

/// Where fetch is.
pub fn fetch_pc(machine: &Machine) -> u32 {
    machine.core().fetch_pc()
}

/// Why the core is halted.
pub fn halted(machine: &Machine) -> Option<Cause> {
    machine.core().halted()
}

/// How many frames arrived.
pub fn arrived(machine: &Machine) -> u32 {
    machine.board().arrived()
}

/// Whether the lamp is lit.
pub fn lamp(machine: &Machine) -> bool {
    machine.board().lamp()
}

// How many frames its job has.
fn frame_count(machine: &Machine) -> usize {
    machine.frames().len()
}

// The most entries of its log.
fn most(machine: &Machine) -> u32 {
    machine.max_events()
}

/// What is counted of a machine.
#[derive(Clone, Copy, Debug, PartialEq, Eq)]
pub struct Counts {
    pub entries: usize,
    pub most: u32,
    pub accesses: usize,
    pub done: u64,
    pub retired: u64,
    pub arrived: u32,
    pub frames: usize,
    pub lamp: bool,
    pub halted: Option<Cause>,
}

/// Its counts.
pub fn counts_of(machine: &Machine) -> Counts {
    Counts {
        entries: count(machine),
        most: most(machine),
        accesses: trace_of(machine).len(),
        done: done(machine),
        retired: retired(machine),
        arrived: arrived(machine),
        frames: frame_count(machine),
        lamp: lamp(machine),
        halted: halted(machine),
    }
}

/// What it is made of.
pub fn parts_of(machine: Machine) -> Parts {
    machine.into_parts()
}

/// The replay of a machine's log.
pub fn replay_of(alloc: Global, job: Job, machine: &Machine) -> Result<Machine, Stop> {
    // Names what its type keeps, for the log's bounds.
    machine.max_events();
    replayed(alloc, job, machine.log())
}

/// The replay of one entry of worker 0.
pub fn replay_one(alloc: Global, job: Job, kind: Kind) -> Result<Machine, Stop> {
    replayed(alloc, job, &[Entry { worker: 0, kind }])
}

/// The replay of three entries of worker 0.
pub fn replay_three(
    alloc: Global,
    job: Job,
    first: Kind,
    second: Kind,
    third: Kind,
) -> Result<Machine, Stop> {
    let log = [
        Entry {
            worker: 0,
            kind: first,
        },
        Entry {
            worker: 0,
            kind: second,
        },
        Entry {
            worker: 0,
            kind: third,
        },
    ];
    replayed(alloc, job, &log)
}
