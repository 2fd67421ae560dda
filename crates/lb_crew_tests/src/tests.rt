// Races of one to eight workers. What a test asserts is told by functions of one machine each: every machine that is
// at hand where a function may return makes the proof of a function longer.
use crate::calls::{
    Found, Size, accesses, alone, boot, find, first_difference, has_entry_of, log_of, raced, until,
};
use crate::stop::Stop;
use lb_gate_testkit::gates::{Alternation, Count};
use lb_machine::NotFired;
use lb_ports::{Gate, OpenGate};
use lb_trace::Entry;
use lb_turn_testkit::alone::{Tries, fetch_alone};
use std::alloc::Global;
use std::sync::Wait;
use std::test::Fail;
use std::thread::Threads;

// What the one seat of a turn over a machine of one entry is told.
fn fetch(alloc: Global, times: u32) -> Result<Tries, Stop> {
    let alone = fetch_alone(alloc, boot(alloc, 1)?, times, &NotFired::Full)?;
    Ok(alone.tries)
}

#[test]
fn one_seat_meets_nobody(rt: HostRuntime) -> Result<(), Fail> {
    let tries = fetch(rt.alloc(), 100)?;
    assert_eq!(rt; tries.fired, 1);
    assert_eq!(rt; tries.full, 99);
    assert_eq!(rt; tries.other, 0);
    assert_eq!(rt; tries.seen, 1);
    Ok(())
}

// What is found of what worker 0 makes alone.
fn find_alone(alloc: Global, size: Size, seed: u32) -> Result<Found, Stop> {
    let machine = alone(alloc, size.events, seed)?;
    find(alloc, &machine, size.workers)
}

// The log of what worker 0 makes alone.
fn log_alone(alloc: Global, events: u32, seed: u32) -> Result<Vec<Entry>, Stop> {
    Ok(log_of(alone(alloc, events, seed)?))
}

// The first entry of a race that isn't what worker 0 fires alone.
fn first_not_drawn<R: Threads + Wait + Sync, G: Gate + Sync>(
    rt: &R,
    alloc: Global,
    gate: &G,
    size: Size,
    seed: u32,
) -> Result<Option<usize>, Stop> {
    let log = log_of(raced(rt, alloc, gate, size, seed)?);
    Ok(first_difference(&log, &log_alone(alloc, size.events, seed)?))
}

// What is told of a race of one worker: the first entry that it doesn't fire alone, how many calls of its gate came in
// their order, and whether others came.
#[derive(Clone, Copy)]
struct Drawn {
    other_entry: Option<usize>,
    in_order: u64,
    has_others: bool,
}

// Counts the calls of a race's gate.
fn count_drawn<R: Threads + Wait + Sync>(
    rt: &R,
    alloc: Global,
    size: Size,
    seed: u32,
) -> Result<Drawn, Stop> {
    let count = Count::new();
    let other_entry = first_not_drawn(rt, alloc, &count, size, seed)?;
    Ok(Drawn {
        other_entry,
        in_order: count.in_order(),
        has_others: count.has_others(),
    })
}

// The first entry at which the logs of two seeds differ that worker 0 makes alone.
fn first_unlike(alloc: Global, events: u32, one: u32, other: u32) -> Result<Option<usize>, Stop> {
    let log = log_alone(alloc, events, one)?;
    Ok(first_difference(&log, &log_alone(alloc, events, other)?))
}

// What worker 0 makes alone until it is stopped: how many accesses, and the log.
#[derive(Drop)]
struct Stopped {
    accesses: usize,
    log: Vec<Entry>,
}

// What worker 0 makes until so many accesses are made.
fn stop_after(alloc: Global, max_events: u32, seed: u32, events: u32) -> Result<Stopped, Stop> {
    let machine = until(alloc, max_events, seed, events)?;
    Ok(Stopped {
        accesses: accesses(&machine),
        log: log_of(machine),
    })
}

// What is told of a stopped worker: how many accesses and entries it made, and where its log differs from that of one
// that isn't stopped. Where it is the beginning of this and shorter, that is at its end.
#[derive(Clone, Copy)]
struct Beginning {
    accesses: usize,
    entries: usize,
    differs_at: Option<usize>,
}

// What is told of worker 0, stopped after so many accesses.
fn begin(alloc: Global, size: Size, seed: u32, events: u32) -> Result<Beginning, Stop> {
    let some = stop_after(alloc, size.events, seed, events)?;
    let all = log_alone(alloc, size.events, seed)?;
    Ok(Beginning {
        accesses: some.accesses,
        entries: some.log.len(),
        differs_at: first_difference(&some.log, &all),
    })
}

#[test]
fn one_worker_fires_what_is_drawn(rt: HostRuntime) -> Result<(), Fail> {
    let alloc = rt.alloc();
    let size = Size {
        workers: 1,
        events: 2000,
    };
    assert_eq!(rt; find_alone(alloc, size, 7)?, size.whole());
    let Drawn {
        other_entry,
        in_order,
        has_others,
    } = count_drawn(&rt, alloc, size, 7)?;
    assert_eq!(rt; other_entry, None, "the first entry that isn't drawn");
    assert!(rt; !has_others, "calls of the gate out of order");
    assert!(rt; in_order > 2000, "{in_order} calls of the gate");
    let unlike = first_unlike(alloc, size.events, 8, 7)?;
    assert!(rt; unlike.is_some(), "the seeds 8 and 7 fire the same");
    let some = begin(alloc, size, 7, 5)?;
    assert_eq!(rt; some.accesses, 5);
    assert_eq!(rt;
        some.differs_at,
        Some(some.entries),
        "it fires the beginning"
    );
    Ok(())
}

// What is told of a race: whether each of its first two workers has an entry, and what is found of its log.
#[derive(Clone, Copy)]
struct Sharing {
    has_first: bool,
    has_second: bool,
    found: Result<Found, Stop>,
}

// A race of these workers.
fn share<R: Threads + Wait + Sync, G: Gate + Sync>(
    rt: &R,
    alloc: Global,
    gate: &G,
    size: Size,
) -> Result<Sharing, Stop> {
    let machine = raced(rt, alloc, gate, size, 1)?;
    Ok(Sharing {
        has_first: has_entry_of(&machine, 0),
        has_second: has_entry_of(&machine, 1),
        found: find(alloc, &machine, size.workers),
    })
}

// A race whose gate makes two workers take turns: whether it held both, and what is told of the race.
fn take_turns<R: Threads + Wait + Sync>(
    rt: &R,
    alloc: Global,
    size: Size,
) -> Result<(bool, Sharing), Stop> {
    let gate = Alternation::new();
    let sharing = share(rt, alloc, &gate, size)?;
    Ok((gate.held_both(), sharing))
}

#[test]
fn two_workers_race(rt: HostRuntime) -> Result<(), Fail> {
    let size = Size {
        workers: 2,
        events: 1000,
    };
    let (held_both, sharing) = take_turns(&rt, rt.alloc(), size)?;
    assert!(rt; held_both, "the gate held both workers");
    assert!(rt; sharing.has_first, "worker 0 has an entry");
    assert!(rt; sharing.has_second, "worker 1 has an entry");
    assert_eq!(rt; sharing.found, Ok(size.whole()));
    Ok(())
}

// What is found of a race.
fn find_raced<R: Threads + Wait + Sync>(
    rt: &R,
    alloc: Global,
    size: Size,
    seed: u32,
) -> Result<Found, Stop> {
    let machine = raced(rt, alloc, &OpenGate, size, seed)?;
    find(alloc, &machine, size.workers)
}

#[test]
fn each_race_is_replayed(rt: HostRuntime) -> Result<(), Fail> {
    let alloc = rt.alloc();
    for workers in 1..9u8 {
        let size = Size {
            workers,
            events: if workers == 8 { 1_000_000 } else { 20_000 },
        };
        let found = find_raced(&rt, alloc, size, 3)?;
        assert_eq!(rt; found, size.whole(), "{workers} workers");
    }
    for seed in 0..1000u32 {
        let size = Size {
            workers: (seed % 8) as u8 + 1,
            events: seed % 100,
        };
        let found = find_raced(&rt, alloc, size, seed)?;
        assert_eq!(rt; found, size.whole(), "seed {seed}");
    }
    Ok(())
}
