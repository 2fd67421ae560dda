// The table under a turn. Word 0 is the turn: 0 where it is free, else the holder's number plus 1.
// Word 1 is the published count of entries. Slot 0 has the value.
use crate::acts::Acts;
use atomic_table::{Join, Split, TableRule};
use lb_trace::{Entry, Kind};
use std::collections::LinkedList;
use std::snapshot::Snapshot;

/// What the steps of one seat told. No value of it is made.
pub struct History<W> {
    /// How many entries the seat knows of.
    pub seen: u64,
    /// The places and kinds of its entries.
    pub receipts: LinkedList<(u64, Kind)>,
    /// How many entries there were when an act was refused, its kind, and the reason.
    pub refusals: LinkedList<(u64, Kind, W)>,
    /// The holders that were found where the turn wasn't free.
    pub met: LinkedList<u64>,
    /// The counts that were loaded.
    pub loads: LinkedList<u64>,
}

/// What a seat of the table is to the turn. No value of it is made.
pub enum Role<F, W> {
    /// Joined into the owner.
    Spent,
    /// The turn's own: how many seats it split off, the count at the opening, and the histories of
    /// those it joined.
    Owner(u64, u64, LinkedList<(u64, History<W>)>),
    /// The seat of a number, without the turn.
    Idle(u64, History<W>),
    /// The same with the turn, before the publication: also the entries and the fixed part of the
    /// value it took.
    Holding(u64, History<W>, LinkedList<Entry>, F),
    /// The same after the publication.
    Published(u64, History<W>, LinkedList<Entry>, F),
}

/// What a seat of the table knows: of how many seats, and what it is. No value of it is made.
pub struct View<F, W> {
    pub total: u64,
    pub role: Role<F, W>,
}

/// The kind of an act, and what was answered.
#[derive(Drop)]
pub struct LastAct<W> {
    pub kind: Kind,
    pub answer: Result<u64, W>,
}

/// What the slot has: the value, and the last act on it.
#[derive(Drop)]
pub struct Held<M, W> {
    pub value: M,
    pub last: Snapshot<LastAct<W>>,
}

/// What the table is told once: the value as it was opened, and how many seats there are.
#[derive(Drop)]
pub struct Key<M> {
    pub opened: Snapshot<M>,
    pub seats: u64,
}

/// The rule that each step keeps.
pub struct TurnRule;

impl<M: Acts> TableRule<Option<Held<M, M::Why>>, View<M::Fixed, M::Why>, Key<M>> for TurnRule {
    ghost use Rattle.lb_turn.specs.Rule.{IsKept, first_view};

    ghost holds = { IsKept M.entries M.fixed M.why };

    ghost first = { first_view M.entries M.fixed };
}

/// A seat is split off the owner: only while the turn is opened.
pub struct SplitSeat;

impl<F, W> Split<View<F, W>> for SplitSeat {
    ghost use Rattle.lb_turn.specs.Steps.{split_owner, split_off};

    ghost left = { split_owner };

    ghost right = { split_off };
}

/// A seat is joined into the owner: only while the turn is closed.
pub struct JoinSeat;

impl<F, W> Join<View<F, W>> for JoinSeat {
    ghost use Rattle.lb_turn.specs.Steps.{joined, spent};

    ghost both = { joined };

    ghost spent = { spent };
}
