// A turn of two seats.
ghost use Rattle.std.specs.Prelude.{All, IfOk};
ghost use Rattle.lb_turn.specs.Seats.{IsOf};

use lb_trace::Kind;
use lb_turn::{Acts, CloseFault, Seat, Turn, TurnFault};
use std::alloc::{AllocError, Global};

/// A turn and its two seats.
pub struct Pair<M: Acts> {
    pub turn: Turn<M>,
    pub first: Seat<M>,
    pub second: Seat<M>,
}

/// Opens a turn of two seats. Fails only for want of memory.
pub fn open_pair<M: Acts>(alloc: Global, value: M) -> Result<Pair<M>, AllocError>
    ensures { IfOk result (λ p. IsOf p.turn p.first × IsOf p.turn p.second) }
{
    let (turn, mut seats) = Turn::open(alloc, value, 2)?;
    let second = seats.remove(1);
    let first = seats.remove(0);
    Ok(Pair {
        turn,
        first,
        second,
    })
}

/// Closes the turn with both seats, in this order. Gives the value, if it was closed; fails only for want of memory.
pub fn close_both<M: Acts>(
    alloc: Global,
    turn: Turn<M>,
    a: Seat<M>,
    b: Seat<M>,
) -> Result<Option<M>, AllocError>
    requires { IsOf turn a × IsOf turn b }
{
    let mut seats = Vec::with_capacity(alloc, 2)?;
    seats.push_reserved(a);
    seats.push_reserved(b);
    Ok(turn.close(seats).ok())
}

// The number that was missing at the first closing, and the value that the second one gave.
#[derive(Drop)]
struct Closed<M> {
    missing: Option<u8>,
    value: Option<M>,
}

// Closes the turn with its second seat alone, and where that is refused with the first one added. Fails only for want
// of memory.
fn close_late<M: Acts>(
    alloc: Global,
    turn: Turn<M>,
    first: Seat<M>,
    second: Seat<M>,
) -> Result<Closed<M>, AllocError>
    requires { IsOf turn first × IsOf turn second }
{
    let mut seats = Vec::with_capacity(alloc, 2)?;
    seats.push_reserved(second);
    match turn.close(seats) {
        Ok(value) => Ok(Closed {
            missing: None,
            value: Some(value),
        }),
        Err(
            CloseFault::Missing {
                turn,
                mut seats,
                number,
            },
        ) => {
            seats.push(first)?;
            Ok(Closed {
                missing: Some(number),
                value: turn.close(seats).ok(),
            })
        }
    }
}

/// What a seat tells of itself before and after it fires once, and the place that it is given.
#[derive(Clone, Copy)]
pub struct Fired {
    pub number: u8,
    pub seen_before: u64,
    pub place: Option<u64>,
    pub seen_after: u64,
}

/// What two seats tell, the number that was missing where the turn wasn't closed, and the value that it was closed to.
#[derive(Drop)]
pub struct Shared<M> {
    pub first: Fired,
    pub second: Fired,
    pub is_refused: bool,
    pub missing: Option<u8>,
    pub value: Option<M>,
}

/// Fetches by the first of two seats and boots by the second, over a value without entries; then tries an access of a
/// device by the first, which is to be refused for this reason; and closes late. Fails only for want of memory.
pub fn share<M: Acts>(alloc: Global, value: M, why: &M::Why) -> Result<Shared<M>, AllocError>
where
    M::Why: PartialEq,
{
    let Pair {
        turn,
        first: mut a,
        second: mut b,
    } = open_pair(alloc, value)?;
    let mut first = fire(&turn, &mut a, Kind::Fetch);
    let mut second = fire(&turn, &mut b, Kind::Boot);
    let is_refused = is_refused(&turn, &mut a, why);
    first.seen_after = a.seen();
    second.seen_after = b.seen();
    let Closed { missing, value } = close_late(alloc, turn, a, b)?;
    Ok(Shared {
        first,
        second,
        is_refused,
        missing,
        value,
    })
}

// Fires once.
fn fire<M: Acts>(turn: &Turn<M>, seat: &mut Seat<M>, kind: Kind) -> Fired
    requires { IsOf turn.now seat.old }
    ensures { IsOf turn.now seat.new }
{
    let number = seat.number();
    let seen_before = seat.seen();
    let place = turn.try_fire(seat, kind).ok();
    Fired {
        number,
        seen_before,
        place,
        seen_after: seat.seen(),
    }
}

// Whether an access of a device is refused for this reason, over two entries.
fn is_refused<M: Acts>(turn: &Turn<M>, seat: &mut Seat<M>, want: &M::Why) -> bool
where
    M::Why: PartialEq,
    requires { IsOf turn.now seat.old }
    ensures { IsOf turn.now seat.new }
{
    match turn.try_fire(seat, Kind::Mmio) {
        Err(TurnFault::NotFired { seen, why }) => seen == 2 && why == *want,
        _ => false,
    }
}
