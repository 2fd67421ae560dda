// Threads that act by their seats.
ghost use Rattle.lb_turn.specs.Seats.{IsOf};

use crate::gate::Gate;
use crate::tape::Tape;
use lb_trace::{Entry, Kind};
use lb_turn::{Seat, Turn, TurnFault};
use std::thread;
use std::thread::Threads;

/// How often a worker tries.
const MOST_TRIES: u64 = 1_000_000_000;

/// A seat, and the places of its entries.
#[derive(Drop)]
pub struct Worker {
    pub seat: Seat<Tape>,
    pub places: Vec<u64>,
}

// Boots until the machine is full, or a very long time.
fn boot_until_full(turn: &Turn<Tape>, worker: Worker) -> Worker
    requires { IsOf turn.now worker.seat }
    ensures { IsOf turn.now result.seat }
{
    let Worker {
        mut seat,
        mut places,
    } = worker;
    for _ in 0..MOST_TRIES {
        match turn.try_fire(&mut seat, Kind::Boot) {
            Ok(place) => {
                let _ = places.push(place);
            }
            Err(TurnFault::Busy { holder: _ }) => {}
            Err(TurnFault::NotFired { seen: _, why: _ }) => break,
        }
    }
    Worker { seat, places }
}

/// Both workers boot until the machine is full, each in a thread of its own.
pub fn fill<R: Threads>(rt: &R, turn: &Turn<Tape>, a: Worker, b: Worker) -> (Worker, Worker)
    requires { IsOf turn.now a.seat × IsOf turn.now b.seat }
    ensures { IsOf turn.now result.0.seat × IsOf turn.now result.1.seat }
{
    thread::join(
        rt,
        || -> Worker
            requires { IsOf turn.now a.seat }
            ensures { IsOf turn.entry.now result.seat }
        { boot_until_full(turn, a) },
        || -> Worker
            requires { IsOf turn.now b.seat }
            ensures { IsOf turn.entry.now result.seat }
        { boot_until_full(turn, b) },
    )
}

/// A place that a worker was given, and the place of its entry in the log, where these differ.
#[derive(Clone, Copy, Debug, PartialEq, Eq)]
pub struct Difference {
    pub given: Option<u64>,
    pub logged: Option<u64>,
}

/// The first difference between the places that the worker was given and those of its entries, both in order.
pub fn first_difference(places: &[u64], worker: u8, log: &[Entry]) -> Option<Difference> {
    let mut left = places.iter();
    for (place, e) in log.iter().enumerate() {
        if e.worker != worker {
            continue;
        }
        let given = left.next().copied();
        let logged = Some(place as u64);
        if given != logged {
            return Some(Difference { given, logged });
        }
    }
    match left.next().copied() {
        None => None,
        given => Some(Difference {
            given,
            logged: None,
        }),
    }
}

// Fires once. The place that it is given.
fn hold(turn: &Turn<Tape>, mut seat: Seat<Tape>) -> (Seat<Tape>, Option<u64>)
    requires { IsOf turn.now seat }
    ensures { IsOf turn.now result.0 }
{
    let place = turn.try_fire(&mut seat, Kind::Fetch).ok();
    (seat, place)
}

// Tries while another seat acts, and then opens the gate. The number of the seat that it met, and what it
// loaded.
fn meet(turn: &Turn<Tape>, gate: &Gate, mut seat: Seat<Tape>) -> (Seat<Tape>, Option<u8>, u64)
    requires { IsOf turn.now seat }
    ensures { IsOf turn.now result.0 }
{
    gate.await_act();
    let holder = match turn.try_fire(&mut seat, Kind::Boot) {
        Err(TurnFault::Busy { holder }) => Some(holder),
        _ => None,
    };
    let count = turn.seen_now(&mut seat);
    gate.open();
    (seat, holder, count)
}

/// The first seat fires, the second tries while it acts. The place that the first is given, the number of the
/// seat that the second met, and what the second loaded meanwhile.
pub fn meet_holder<R: Threads>(
    rt: &R,
    gate: &Gate,
    turn: &Turn<Tape>,
    a: Seat<Tape>,
    b: Seat<Tape>,
) -> ((Seat<Tape>, Option<u64>), (Seat<Tape>, Option<u8>, u64))
    requires { IsOf turn.now a × IsOf turn.now b }
    ensures { IsOf turn.now result.0.0 × IsOf turn.now result.1.0 }
{
    thread::join(
        rt,
        || -> (Seat<Tape>, Option<u64>)
            requires { IsOf turn.now a }
            ensures { IsOf turn.entry.now result.0 }
        { hold(turn, a) },
        || -> (Seat<Tape>, Option<u8>, u64)
            requires { IsOf turn.now b }
            ensures { IsOf turn.entry.now result.0 }
        { meet(turn, gate, b) },
    )
}
