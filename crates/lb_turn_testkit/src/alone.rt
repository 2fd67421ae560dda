// A turn of one seat.
ghost use Rattle.lb_turn.specs.Seats.{IsOf};

use lb_trace::Kind;
use lb_turn::{Acts, Seat, Turn, TurnFault};
use std::alloc::{AllocError, Global};

/// How often a seat fired, found the value full, and was told anything else; and how many entries it then loaded.
#[derive(Clone, Copy)]
pub struct Tries {
    pub fired: u32,
    pub full: u32,
    pub other: u32,
    pub seen: u64,
}

/// What the one seat was told, and the value that the turn was closed to.
#[derive(Drop)]
pub struct Alone<M> {
    pub tries: Tries,
    pub value: Option<M>,
}

/// Tries to fetch so often by the one seat of a turn over the value, which has no entry and room for one; `full` is its
/// reason once it has that. Fails only for want of memory.
pub fn fetch_alone<M: Acts>(
    alloc: Global,
    value: M,
    times: u32,
    full: &M::Why,
) -> Result<Alone<M>, AllocError>
where
    M::Why: PartialEq,
{
    let (turn, mut seats) = Turn::open(alloc, value, 1)?;
    let mut seat = seats.remove(0);
    let mut tries = fetch_often(&turn, &mut seat, times, full);
    tries.seen = turn.seen_now(&mut seat);
    seats.push(seat)?;
    let value = turn.close(seats).ok();
    Ok(Alone { tries, value })
}

// Tries to fetch so often. The first entry is to have the place 0; from then on the value is to be full with 1.
fn fetch_often<M: Acts>(turn: &Turn<M>, seat: &mut Seat<M>, times: u32, full: &M::Why) -> Tries
where
    M::Why: PartialEq,
    requires { IsOf turn.now seat.old }
    ensures { IsOf turn.now seat.new }
{
    let mut tries = Tries {
        fired: 0,
        full: 0,
        other: 0,
        seen: 0,
    };
    for _ in 0..times {
        match turn.try_fire(seat, Kind::Fetch) {
            Ok(0) => tries.fired = tries.fired.saturating_add(1),
            Err(TurnFault::NotFired { seen: 1, why }) if why == *full => {
                tries.full = tries.full.saturating_add(1)
            }
            _ => tries.other = tries.other.saturating_add(1),
        }
    }
    tries
}
