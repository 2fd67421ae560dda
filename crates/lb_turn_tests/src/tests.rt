// One thread and two. What a test asserts is made in functions of their own, since every turn, seat and tape that is at
// hand makes the proof of a function longer.
use crate::{Difference, Gate, NotFired, Tape, Worker, fill, first_difference, meet_holder};
use lb_trace::{Entry, Kind};
use lb_turn_testkit::alone::{Alone, fetch_alone};
use lb_turn_testkit::pair::{Pair, Shared, close_both, open_pair, share};
use std::alloc::{AllocError, Global};
use std::sync::Arc;
use std::test::Fail;
use std::thread::Threads;

// The log of a fetch by the first seat and a boot by the second.
const FETCH_AND_BOOT: [Option<Entry>; 3] = [
    Some(Entry {
        worker: 0,
        kind: Kind::Fetch,
    }),
    Some(Entry {
        worker: 1,
        kind: Kind::Boot,
    }),
    None,
];

// A tape whose gate is open.
fn open_tape(alloc: Global, most: u32) -> Result<Tape, AllocError> {
    Tape::new(alloc, most, Arc::new(alloc, Gate::opened())?)
}

// The first three entries of a tape. They hold no memory, so that an assertion on them costs little.
fn first_entries(tape: Option<Tape>) -> Option<[Option<Entry>; 3]> {
    match tape {
        Some(tape) => {
            let log = tape.log();
            Some([
                log.first().copied(),
                log.get(1).copied(),
                log.get(2).copied(),
            ])
        }
        None => None,
    }
}

#[test]
fn two_seats_fire_and_both_are_needed_to_close(rt: HostRuntime) -> Result<(), Fail> {
    let alloc = rt.alloc();
    let Shared {
        first,
        second,
        is_refused,
        missing,
        value,
    } = share(alloc, open_tape(alloc, 9)?, &NotFired::GuardFalse)?;
    assert_eq!(rt; first_entries(value), Some(FETCH_AND_BOOT));
    assert_eq!(rt; missing, Some(0));
    assert!(rt;
        is_refused,
        "an access of a device is refused by its guard, over two entries"
    );
    assert_eq!(rt; (first.number, second.number), (0, 1));
    assert_eq!(rt; (first.seen_before, second.seen_before), (0, 0));
    assert_eq!(rt; (first.place, second.place), (Some(0), Some(1)));
    assert_eq!(rt; (first.seen_after, second.seen_after), (2, 2));
    Ok(())
}

#[test]
fn one_seat_meets_nobody(rt: HostRuntime) -> Result<(), Fail> {
    let alloc = rt.alloc();
    let Alone { tries, value } = fetch_alone(alloc, open_tape(alloc, 1)?, 100, &NotFired::Full)?;
    let [fetch, ..] = FETCH_AND_BOOT;
    assert_eq!(rt; first_entries(value), Some([fetch, None, None]));
    assert_eq!(rt; tries.fired, 1);
    assert_eq!(rt; tries.full, 99);
    assert_eq!(rt; tries.other, 0);
    assert_eq!(rt; tries.seen, 1);
    Ok(())
}

// What two threads made that filled a tape: how many entries it has, how many places they were given, and for each one
// where these differ from the places of its entries.
#[derive(Clone, Copy)]
struct Filled {
    entries: usize,
    places: usize,
    of_first: Option<Difference>,
    of_second: Option<Difference>,
}

// Two threads fill a tape of 40 entries.
fn fill_by_two<R: Threads>(rt: &R, alloc: Global) -> Result<Filled, AllocError> {
    let of_first = Vec::with_capacity(alloc, 40)?;
    let of_second = Vec::with_capacity(alloc, 40)?;
    let Pair {
        turn,
        first,
        second,
    } = open_pair(alloc, open_tape(alloc, 40)?)?;
    let a = Worker {
        seat: first,
        places: of_first,
    };
    let b = Worker {
        seat: second,
        places: of_second,
    };
    let (a, b) = fill(rt, &turn, a, b);
    let tape = close_both(alloc, turn, a.seat, b.seat)?;
    Ok(count(tape, &a.places, &b.places))
}

// What was made of the tape, by the places of both.
fn count(tape: Option<Tape>, first: &[u64], second: &[u64]) -> Filled {
    let log = match &tape {
        Some(tape) => tape.log(),
        None => &[],
    };
    Filled {
        entries: log.len(),
        places: first.len().saturating_add(second.len()),
        of_first: first_difference(first, 0, log),
        of_second: first_difference(second, 1, log),
    }
}

#[test]
fn two_threads_share_the_places(rt: HostRuntime) -> Result<(), Fail> {
    let filled = fill_by_two(&rt, rt.alloc())?;
    assert_eq!(rt; filled.entries, 40);
    assert_eq!(rt; filled.places, 40);
    assert_eq!(rt; filled.of_first, None, "of the first seat");
    assert_eq!(rt; filled.of_second, None, "of the second seat");
    Ok(())
}

// What was told where a seat met another one while that acted, and where it went on by itself.
#[derive(Clone, Copy)]
struct Meeting {
    fetched_at: Option<u64>,
    holder: Option<u8>,
    count: u64,
    seen_by_first: u64,
    seen_by_second: u64,
    seen_now: u64,
    booted_at: Option<u64>,
    entries: Option<[Option<Entry>; 3]>,
}

// The second seat tries while the first acts, and then boots.
fn meet<R: Threads>(rt: &R, alloc: Global) -> Result<Meeting, AllocError> {
    let gate = Arc::new(alloc, Gate::shut())?;
    let tape = Tape::new(alloc, 9, gate.clone()?)?;
    let Pair {
        turn,
        first,
        second,
    } = open_pair(alloc, tape)?;
    let ((first, fetched_at), (mut second, holder, count)) = meet_holder(
        rt, &gate, &turn, first, second,
    );
    let (seen_by_first, seen_by_second) = (first.seen(), second.seen());
    let seen_now = turn.seen_now(&mut second);
    let booted_at = turn.try_fire(&mut second, Kind::Boot).ok();
    let tape = close_both(alloc, turn, second, first)?;
    Ok(Meeting {
        fetched_at,
        holder,
        count,
        seen_by_first,
        seen_by_second,
        seen_now,
        booted_at,
        entries: first_entries(tape),
    })
}

#[test]
fn a_seat_meets_the_holder(rt: HostRuntime) -> Result<(), Fail> {
    let meeting = meet(&rt, rt.alloc())?;
    assert_eq!(rt; meeting.fetched_at, Some(0), "the first seat fired");
    assert_eq!(rt; meeting.holder, Some(0), "the second one met it");
    assert_eq!(rt; meeting.count, 0, "nothing was published meanwhile");
    assert_eq!(rt; meeting.seen_by_first, 1);
    assert_eq!(rt; meeting.seen_by_second, 0);
    assert_eq!(rt; meeting.seen_now, 1);
    assert_eq!(rt; meeting.booted_at, Some(1));
    assert_eq!(rt; meeting.entries, Some(FETCH_AND_BOOT));
    Ok(())
}
