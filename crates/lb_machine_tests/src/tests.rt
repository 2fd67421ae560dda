// Firing, refusing, copying and replaying. What a test asserts is told by functions of one machine each: every machine
// that is at hand where a function may return makes the proof of a function longer.
use crate::alike::{Copied, Parting, compare_copy, first_parting, is_of_job, lines_of};
use crate::calls::{Counts, attempt, counts_of, first_entries, replay_one, replay_three};
use crate::causes::{HALTING, HaltingProgram};
use crate::jobs::{Job, boot};
use crate::lines::{ACCESSES, FRAMES, STEPS, WORDS};
use crate::steps::{expect_halted, fire_all};
use crate::stop::Stop;
use lb_machine::{Machine, NotFired};
use lb_trace::{Entry, Kind};
use lb_turn_testkit::pair::{Shared, share};
use std::alloc::Global;
use std::process::Abort;
use std::test::Fail;

/// `jal x0, 0`.
const LOOP: Job = Job {
    words: "0000006f",
    frames: "",
};

/// `addi x0, x0, 0`.
const OTHER: Job = Job {
    words: "00000013",
    frames: "",
};

/// A program that turns the reception of frames on, and reads none.
const DEAF: Job = Job {
    words: WORDS,
    frames: FRAMES,
};

// An entry of worker 0.
const fn entry(kind: Kind) -> Entry {
    Entry { worker: 0, kind }
}

// The first entries and the counts of a machine.
type Logged = ([Option<Entry>; 4], Counts);

// Those of a replay of three kinds.
fn three_replayed(alloc: Global) -> Result<Logged, Stop> {
    let machine = replay_three(alloc, LOOP, Kind::Fetch, Kind::Boot, Kind::Decode)?;
    Ok((first_entries(&machine), counts_of(&machine)))
}

// Why a log isn't replayed.
fn stop_of(replay: Result<Machine, Stop>) -> Option<Stop> {
    replay.err()
}

#[test]
fn replays_a_log_up_to_what_cannot_be_fired(rt: HostRuntime) -> Result<(), Fail> {
    let alloc = rt.alloc();
    let (entries, counts) = three_replayed(alloc)?;
    let log = [
        Some(entry(Kind::Fetch)),
        Some(entry(Kind::Boot)),
        Some(entry(Kind::Decode)),
        None,
    ];
    assert_eq!(rt; entries, log);
    let want = Counts {
        entries: 3,
        most: 3,
        accesses: 0,
        done: 0,
        retired: 0,
        arrived: 0,
        frames: 0,
        lamp: false,
        halted: None,
    };
    assert_eq!(rt; counts, want);
    for kind in [Kind::Decode, Kind::Arrive, Kind::Shift] {
        assert_eq!(rt;
            stop_of(replay_one(alloc, LOOP, kind)),
            Some(Stop::BadEvent(0)),
            "{kind:?}"
        );
    }
    let three = stop_of(replay_three(alloc, LOOP, Kind::Fetch, Kind::Fetch, Kind::Fetch));
    assert_eq!(rt; three, Some(Stop::BadEvent(2)));
    Ok(())
}

// What is told of a machine of one entry: what it answers, its entries, its accesses, its copy, and whether it is of two
// other jobs.
#[derive(Clone, Copy)]
struct Full {
    answers: [Result<u64, NotFired>; 3],
    entries: [Option<Entry>; 4],
    accesses: usize,
    copied: Result<Copied, Stop>,
    is_longer: Result<bool, Stop>,
    is_other: Result<bool, Stop>,
}

// What is told of the machine of one entry.
fn fill(alloc: Global) -> Result<Full, Stop> {
    let mut machine = boot(alloc, LOOP, 1)?;
    let answers = [
        attempt(&mut machine, Kind::Fetch),
        attempt(&mut machine, Kind::Boot),
        attempt(&mut machine, Kind::Mmio),
    ];
    Ok(Full {
        answers,
        entries: first_entries(&machine),
        accesses: counts_of(&machine).accesses,
        copied: compare_copy(alloc, &machine),
        is_longer: is_of_job(alloc, &machine, LOOP, 2),
        is_other: is_of_job(alloc, &machine, OTHER, 1),
    })
}

#[test]
fn refuses_when_full(rt: HostRuntime) -> Result<(), Fail> {
    let full = fill(rt.alloc())?;
    let refused = Err(NotFired::Full);
    assert_eq!(rt; full.answers, [Ok(0), refused, refused]);
    assert_eq!(rt; full.entries, [Some(entry(Kind::Fetch)), None, None, None]);
    assert_eq!(rt; full.accesses, 0);
    assert_eq!(rt; full.copied, Ok(Copied::SAME));
    assert_eq!(rt;
        full.is_longer,
        Ok(false),
        "a job with more entries at most"
    );
    assert_eq!(rt; full.is_other, Ok(false), "a job of another program");
    Ok(())
}

// What a new machine answers where it is asked for an access of a device.
fn access_at_once(alloc: Global) -> Result<Result<u64, NotFired>, Stop> {
    let mut machine = boot(alloc, LOOP, 9)?;
    Ok(attempt(&mut machine, Kind::Mmio))
}

#[test]
fn refuses_by_its_guard(rt: HostRuntime) -> Result<(), Fail> {
    assert_eq!(rt; access_at_once(rt.alloc())?, Err(NotFired::GuardFalse));
    Ok(())
}

// What is told of a machine that fired all steps of the program that reads no frames.
#[derive(Drop)]
struct Deaf {
    lines: Result<Vec<u8>, Stop>,
    counts: Counts,
    parting: Result<Option<Parting>, Stop>,
    copied: Result<Copied, Stop>,
}

// Fires the steps of the program that reads no frames.
fn fire_deaf<R: Abort>(rt: &R, alloc: Global) -> Result<Deaf, Stop> {
    let mut whole = boot(alloc, DEAF, 1000)?;
    fire_all(rt, &mut whole, STEPS);
    Ok(Deaf {
        lines: lines_of(alloc, &whole),
        counts: counts_of(&whole),
        parting: first_parting(alloc, DEAF, &whole),
        copied: compare_copy(alloc, &whole),
    })
}

// Asserts that these are the lines.
fn expect_lines<R: Abort>(rt: &R, lines: Vec<u8>, want: &str) {
    let told = String::from_utf8(lines).expect(rt, "a trace is ASCII");
    assert_eq!(rt; told.as_str(), want);
}

#[test]
fn frames_arrive_while_nobody_listens(rt: HostRuntime) -> Result<(), Fail> {
    let Deaf {
        lines,
        counts,
        parting,
        copied,
    } = fire_deaf(&rt, rt.alloc())?;
    expect_lines(&rt, lines?, ACCESSES);
    assert_eq!(rt; (counts.done, counts.arrived, counts.frames), (45, 2, 2));
    assert_eq!(rt; parting, Ok(None), "the first length that isn't replayed");
    assert_eq!(rt; copied, Ok(Copied::SAME));
    Ok(())
}

// Fires a program until it halts, and asserts that it then fires nothing. Gives the number of its entries.
fn halt<R: Abort>(rt: &R, alloc: Global, program: HaltingProgram) -> Result<usize, Stop> {
    let job = Job {
        words: program.words,
        frames: "",
    };
    let mut machine = boot(alloc, job, program.entries)?;
    fire_all(rt, &mut machine, program.letters);
    expect_halted(rt, &mut machine, program.cause);
    Ok(counts_of(&machine).entries)
}

#[test]
fn halts_by_each_cause(rt: HostRuntime) -> Result<(), Fail> {
    for program in HALTING {
        let entries = halt(&rt, rt.alloc(), program)?;
        assert_eq!(rt; entries, program.entries as usize, "by {:?}", program.cause);
    }
    Ok(())
}

// The first entries of the machine.
fn entries_of(machine: Option<Machine>) -> Option<[Option<Entry>; 4]> {
    match machine {
        Some(machine) => Some(first_entries(&machine)),
        None => None,
    }
}

#[test]
fn two_seats_fire_one_machine(rt: HostRuntime) -> Result<(), Fail> {
    let alloc = rt.alloc();
    let Shared {
        first,
        second,
        is_refused,
        missing,
        value,
    } = share(alloc, boot(alloc, LOOP, 9)?, &NotFired::GuardFalse)?;
    let by_second = Entry {
        worker: 1,
        kind: Kind::Boot,
    };
    let log = [Some(entry(Kind::Fetch)), Some(by_second), None, None];
    assert_eq!(rt; entries_of(value), Some(log));
    assert_eq!(rt; missing, Some(0));
    assert!(rt;
        is_refused,
        "an access of a device is refused by its guard, over two entries"
    );
    assert_eq!(rt; first.place, Some(0));
    assert_eq!(rt; second.place, Some(1));
    Ok(())
}
