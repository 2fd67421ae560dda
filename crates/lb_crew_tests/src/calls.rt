// Crews that fire a machine of one small program.
ghost use Rattle.std.specs.Prelude.{◌≤◌, IfOk};
ghost use Rattle.lb_crew.specs.Crews.{CallsFinish, Finishes, MayCall};

use crate::stop::Stop;
use lb_crew::{race, serial, serial_until};
use lb_machine::{MOST_ENTRIES, Machine, replay};
use lb_ports::Gate;
use lb_trace::Entry;
use std::alloc::{AllocError, Global};
use std::sync::Wait;
use std::thread::Threads;

/// Stores ever greater numbers to a device: `lui x1, 0x10012`; `addi x2, x2, 1`; `sw x2, 12(x1)`; `jal x0, -8`.
const CODE: [u32; 4] = [0x1001_20B7, 0x0011_0113, 0x0020_A623, 0xFF9F_F06F];

/// A machine of the program before its first step.
pub fn boot(alloc: Global, max_events: u32) -> Result<Machine, Stop> {
    if max_events > MOST_ENTRIES {
        return Err(Stop::Range);
    }
    Ok(Machine::boot(alloc, &CODE, 0, Vec::new(alloc), max_events)?)
}

/// The machine after so many workers have raced.
pub fn raced<R: Threads + Wait + Sync, G: Gate + Sync>(
    rt: &R,
    alloc: Global,
    gate: &G,
    size: Size,
    seed: u32,
) -> Result<Machine, Stop> {
    let crew = |alloc: Global, machine: Machine, workers: u8, seed: u32| -> Result<
        Machine,
        AllocError,
    >
        requires { (1 ≤ workers) × (workers ≤ 8) }
        ensures { IfOk result (Finishes seed workers machine) }
    { race(rt, alloc, machine, workers, seed, gate) };
    finished_by(&crew, alloc, size, seed)
}

// The machine that a crew finished.
fn finished_by<C: Fn(Global, Machine, u8, u32) -> Result<Machine, AllocError>>(
    crew: &C,
    alloc: Global,
    size: Size,
    seed: u32,
) -> Result<Machine, Stop>
    requires callable { MayCall (C.pre crew.now) }
    requires finishes { CallsFinish (C.post crew.now) }
{
    if size.workers == 0 || size.workers > 8 {
        return Err(Stop::Range);
    }
    Ok(crew(alloc, boot(alloc, size.events)?, size.workers, seed)?)
}

/// How many workers race, for how many entries.
#[derive(Clone, Copy)]
pub struct Size {
    pub workers: u8,
    pub events: u32,
}

/// The machine after worker 0 alone.
pub fn alone(alloc: Global, max_events: u32, seed: u32) -> Result<Machine, Stop> {
    Ok(serial(boot(alloc, max_events)?, seed))
}

/// The machine after worker 0 alone, once it has made so many accesses.
pub fn until(alloc: Global, max_events: u32, seed: u32, events: u32) -> Result<Machine, Stop> {
    Ok(serial_until(boot(alloc, max_events)?, seed, events))
}

/// What is told of a crew's log: how many entries it has, and how many of these are of no worker of the crew; and what
/// its replay did that the machine didn't: the place of the first access, and how many instructions each retired.
#[derive(Clone, Copy, Debug, PartialEq, Eq)]
pub struct Found {
    pub entries: usize,
    pub strangers: usize,
    pub other_access: Option<usize>,
    pub other_retired: Option<[u64; 2]>,
}

impl Size {
    /// What is to be found: the log is full, each of its entries is of a worker of the crew, and its replay does the
    /// same.
    pub fn whole(self) -> Found {
        Found {
            entries: self.events as usize,
            strangers: 0,
            other_access: None,
            other_retired: None,
        }
    }
}

/// What is found of the log of so many workers.
pub fn find(alloc: Global, machine: &Machine, workers: u8) -> Result<Found, Stop> {
    let log = machine.log();
    let again = replay(alloc, &CODE, 0, Vec::new(alloc), log)?;
    let retired = [machine.core().retired(), again.core().retired()];
    Ok(Found {
        entries: log.len(),
        strangers: log.iter().filter(|entry| entry.worker >= workers).count(),
        other_access: first_difference(again.trace(), machine.trace()),
        other_retired: (retired[0] != retired[1]).then_some(retired),
    })
}

/// The first place at which the two lists differ, or one of them ends.
pub fn first_difference<T: PartialEq>(one: &[T], other: &[T]) -> Option<usize> {
    for (place, (own, its)) in one.iter().zip(other).enumerate() {
        if own != its {
            return Some(place);
        }
    }
    if one.len() == other.len() {
        None
    } else {
        Some(one.len().min(other.len()))
    }
}

/// Whether the log has an entry of the worker.
pub fn has_entry_of(machine: &Machine, worker: u8) -> bool {
    machine.log().iter().any(|entry| entry.worker == worker)
}

/// Its log alone.
pub fn log_of(machine: Machine) -> Vec<Entry> {
    machine.into_parts().log
}

/// How many accesses it has made.
pub fn accesses(machine: &Machine) -> usize {
    machine.trace().len()
}
