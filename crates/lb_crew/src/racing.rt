// Several workers that race.
ghost use Rattle.std.specs.Prelude.{◌≡◌, ◌≤◌, ◌<◌, ℕ, All, IfOk, length, map};
ghost use Rattle.lb_turn.specs.Seats.{IsOf, new_seats};
ghost use Rattle.lb_crew.specs.Crews.{Finishes};
ghost use Rattle.lb_crew.specs.InternalCrew.{AllHaveWorked, HasWorked};

use crate::alone::finish_alone;
use crate::draws::{draw_kind, next_kind};
use crate::passes::Passes;
use lb_draws::Draws;
use lb_machine::{Machine, NotFired};
use lb_ports::Gate;
use lb_turn::{Seat, Turn, TurnFault};
use std::alloc::{AllocError, Global};
use std::sync::Wait;
use std::thread;
use std::thread::Threads;

/// The most workers of a crew.
pub const MOST_WORKERS: u8 = 8;

/// The machine after 1 to `MOST_WORKERS` workers have fired its kinds, until the log has `max_events` entries or the
/// core is halted. A worker passes the gate, tries a kind, and stops where the machine has ended; it tries the same
/// kind again where another worker had the turn, the next kind where the guard is false, and draws anew where it has
/// fired. One worker works on the calling thread; of several each has a thread of its own, where one can be made. Where
/// memory is refused the machine is dropped.
pub fn race<R: Threads + Wait + Sync, G: Gate + Sync>(
    rt: &R,
    alloc: Global,
    machine: Machine,
    workers: u8,
    seed: u32,
    gate: &G,
) -> Result<Machine, AllocError>
    requires some { 1 ≤ workers }
    requires few { workers ≤ MOST_WORKERS }
    ensures finished { IfOk result (Finishes seed workers machine) }
{
    if workers == 1 {
        return Ok(finish_alone(machine, seed, gate));
    }
    let (turn, seats) = Turn::open(alloc, machine, workers)?;
    let crew = make_crew(alloc, &turn, seats, seed)?;
    let seats = work_all(rt, gate, crew)?;
    Ok(close(turn, seats))
}

// A worker's seat, the turn that the seat is of, and the seed of its draws.
#[derive(Drop)]
struct Worker<'a> {
    turn: &'a Turn<Machine>,
    seat: Seat<Machine>,
    seed: u32,
    ghost of: { IsOf turn.now seat },
}

// A worker for each seat. Fails only for want of memory.
fn make_crew<'a>(
    alloc: Global,
    turn: &'a Turn<Machine>,
    seats: Vec<Seat<Machine>>,
    seed: u32,
) -> Result<Vec<Worker<'a>>, AllocError>
    requires { All (IsOf turn.now) seats.items }
    ensures { IfOk result (λ crew. map (λ w. w.seat) crew.items ≡ seats.items) }
{
    let mut crew = Vec::with_capacity(alloc, seats.len())?;
    for seat in seats {
        crew.push_reserved(Worker { turn, seat, seed });
    }
    Ok(crew)
}

// All workers work, each in a thread of its own. Fails only for want of memory.
fn work_all<R: Threads + Wait + Sync, G: Gate + Sync>(
    rt: &R,
    gate: &G,
    crew: Vec<Worker<'_>>,
) -> Result<Vec<Seat<Machine>>, AllocError>
    ensures { IfOk result (λ seats. AllHaveWorked (map (λ w. w.seat) crew.entry.items) seats.items) }
{
    thread::map_vec(rt, crew, &|worker| work(rt, gate, worker))
}

// A worker tries until it is told that the machine has ended.
fn work<R: Wait, G: Gate>(rt: &R, gate: &G, worker: Worker<'_>) -> Seat<Machine>
    ensures { HasWorked worker.entry.seat result }
{
    let Worker {
        turn,
        mut seat,
        seed,
    } = worker;
    let mut passes = Passes::new(gate, seat.number());
    let mut draws = Draws::new(seed, seat.number());
    let mut kind = draw_kind(&mut draws);
    for _ in rt.forever() {
        passes.pass();
        match turn.try_fire(&mut seat, kind) {
            Ok(_) => kind = draw_kind(&mut draws),
            Err(TurnFault::Busy { holder: _ }) => {}
            Err(TurnFault::NotFired { seen: _, why }) => match why {
                NotFired::GuardFalse => kind = next_kind(kind),
                NotFired::Full | NotFired::Halted { cause: _ } => return seat,
            },
        }
    }
    unreachable!()
}

// The machine, out of the turn.
fn close(turn: Turn<Machine>, seats: Vec<Seat<Machine>>) -> Machine
    requires some { 0 < turn.seats }
    requires worked { AllHaveWorked
        (new_seats turn.turn turn.seats (length turn.value.log) turn.seats) seats.items }
    ensures { (seed : ℕ) → ¬ (turn.seats ≡ 1) → Finishes seed turn.seats turn.value result }
{
    match turn.close(seats) {
        Ok(machine) => {
            // Names the log, so that what the machine keeps is known.
            let _ = machine.log();
            machine
        }
        Err(_) => unreachable!(),
    }
}
