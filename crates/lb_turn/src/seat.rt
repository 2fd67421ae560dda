// A seat of a turn.
ghost use Rattle.std.specs.Prelude.{◌≡◌};

use crate::acts::Acts;
use crate::table::{Held, View};
use std::marker::Model;

/// The seat of the table under a seat of the turn.
pub(crate) type Place<M> = atomic_table::Seat<
    Option<Held<M, <M as Acts>::Why>>,
    View<<M as Acts>::Fixed, <M as Acts>::Why>,
>;

/// A participant's seat. Contracts see of which turn it is, how many seats that has, its number and its
/// history. It has the turn only within a call of `Turn::try_fire`.
#[derive(Drop)]
pub struct Seat<M: Acts> {
    pub(crate) number: u8,
    pub(crate) seen: u64,
    pub(crate) place: Place<M>,
}

impl<M: Acts> Model for Seat<M> {
    ghost use Rattle.lb_turn.specs.Seats.{IsIdle, SeatView, seat_view};

    ghost Value = { SeatView M.Why };

    ghost view = { λ s. seat_view s.place };

    ghost invariant = { λ s. IsIdle s.number s.seen s.place };
}

/// Why nothing was fired.
#[derive(Drop)]
pub enum TurnFault<W> {
    /// Another seat, of this number, had the turn.
    Busy { holder: u8 },
    /// This seat had the turn, with this many entries, and the act was refused.
    NotFired { seen: u64, why: W },
}

impl<M: Acts> Seat<M> {
    /// Its number, from 0.
    pub fn number(&self) -> u8
        ensures { result ≡ self.now.number }
    {
        self.number
    }

    /// How many entries it knows of.
    pub fn seen(&self) -> u64
        ensures { result ≡ self.now.history.seen }
    {
        self.seen
    }
}
