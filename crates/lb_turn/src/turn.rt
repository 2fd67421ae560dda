// The turn.
ghost use Rattle.std.specs.Prelude.{◌≡◌, ◌<◌, ◌≤◌, All, IfOk, IfErr};

use crate::acts::Acts;
use crate::closing::{first_missing, take_value};
use crate::holding::act_and_release;
use crate::opening::{add_seats, make_table};
use crate::seat::{Place, Seat, TurnFault};
use crate::steps::{LoadCount, TryTurn};
use crate::table::{Held, Key, TurnRule, View};
use atomic_table::Table;
use lb_trace::Kind;
use std::alloc::{AllocError, Global};
use std::marker::Model;

/// The turn over a value. Contracts see which turn it is, how many seats it has, and the value that it
/// was opened over; these never change.
#[derive(Drop)]
pub struct Turn<M: Acts> {
    seats: u8,
    table: Table<Option<Held<M, M::Why>>, View<M::Fixed, M::Why>, Key<M>, TurnRule, Global>,
    owner: Place<M>,
}

impl<M: Acts> Model for Turn<M> {
    ghost use Rattle.lb_turn.specs.Seats.{IsOpened, TurnView, turn_view};

    ghost Value = { TurnView M };

    ghost view = { λ t. turn_view t.seats t.table.shared.table_id t.table.shared.key };

    ghost invariant = { λ t. IsOpened t.seats t.table.shared.table_id t.table.shared.key t.owner };
}

impl<M: Acts> Turn<M> {
    ghost use Rattle.lb_turn.specs.Seats.{IsOf, IsSameSeat, GoesOn, Answers, Opens};
    ghost use Rattle.lb_turn.specs.Histories.{loaded_by};
    ghost use Rattle.lb_turn.specs.Closing.{Closes};
    ghost use Rattle.lb_turn.specs.CloseFaults.{Refuses};

    /// A turn over the value, and its seats: 1 to 8, the one of number i at place i. Fails only for want
    /// of memory; the value is then dropped.
    pub fn open(alloc: Global, value: M, seats: u8) -> Result<(Turn<M>, Vec<Seat<M>>), AllocError>
        requires { (0 < seats) × (seats ≤ 8) }
        ensures { IfOk result (λ opened. Opens M.entries value seats opened.0 opened.1.items) }
    {
        let count = value.count();
        let mut places: Vec<Seat<M>> = Vec::with_capacity(alloc, seats as usize)?;
        let (table, mut owner) = make_table(alloc, value, seats)?;
        add_seats(&table.shared, &mut owner, &mut places, seats, count);
        let turn = Turn {
            seats,
            table,
            owner,
        };
        Ok((turn, places))
    }

    /// Tries the turn once, and acts where it was free. Ok is the place of the new entry; `Busy` names
    /// the seat that had the turn; `NotFired` has the reason, and how many entries there were. It waits
    /// for nobody and takes no memory.
    pub fn try_fire(&self, seat: &mut Seat<M>, kind: Kind) -> Result<u64, TurnFault<M::Why>>
        requires { IsOf self.now seat.old }
        ensures answers { Answers seat.old kind result seat.new }
        ensures seat { IsSameSeat seat.old seat.new }
    {
        let number = seat.number;
        let table = &self.table.shared;
        let found = table.compare_exchange::<TryTurn>(&mut seat.place, 0, 0, number as u64 + 1);
        if found != 0 {
            return Err(TurnFault::Busy {
                holder: (found - 1) as u8,
            });
        }
        let (count, answer) = act_and_release(table, &mut seat.place, number, kind);
        seat.seen = count;
        match answer {
            Ok(place) => Ok(place),
            Err(why) => Err(TurnFault::NotFired { seen: count, why }),
        }
    }

    /// The published count of entries, by one load; at least what the seat has seen. It waits for nobody
    /// and takes no memory.
    pub fn seen_now(&self, seat: &mut Seat<M>) -> u64
        requires { IsOf self.now seat.old }
        ensures grows { seat.old.history.seen ≤ result }
        ensures loads { GoesOn seat.old seat.new (loaded_by seat.old.history result) }
    {
        let count = self.table.shared.load::<LoadCount>(&mut seat.place, 1);
        seat.seen = count;
        count
    }

    /// The value, exactly where each seat is given back; else the turn and the seats as they were, and
    /// the least number that is missing. It takes no memory.
    pub fn close(self, seats: Vec<Seat<M>>) -> Result<M, CloseFault<M>>
        requires { All (IsOf self) seats.items }
        ensures closed { IfOk result (Closes M.entries M.fixed M.why self seats.items) }
        ensures missing { IfErr result (Refuses self seats.items) }
    {
        if let Some(number) = first_missing(seats.as_slice(), self.seats) {
            return Err(CloseFault::Missing {
                turn: self,
                seats,
                number,
            });
        }
        let Turn {
            seats: total,
            table,
            owner,
        } = self;
        Ok(take_value(total, table, owner, seats))
    }
}

/// Why a turn wasn't closed.
#[derive(Drop)]
pub enum CloseFault<M: Acts> {
    /// The seat of this number is missing.
    Missing {
        turn: Turn<M>,
        seats: Vec<Seat<M>>,
        number: u8,
    },
}
