// What is done by the seat that has the turn.
ghost use Rattle.std.specs.Prelude.{◌≡◌, ◌+◌, ◌<◌, ◌≤◌, [], ◌∷◌, length, MatchResult};
ghost use Rattle.lb_turn.specs.InternalSeats.{IsHolder, ActsInSlot, GoesIdle, IsCounted};

use crate::acts::Acts;
use crate::seat::Place;
use crate::steps::{Publish, Release};
use crate::table::{Held, Key, LastAct, TurnRule, View};
use atomic_table::Shared;
use lb_trace::Kind;
use std::snapshot::Snapshot;

/// The part of the table that all threads have.
pub(crate) type SharedTable<M> = Shared<
    Option<Held<M, <M as Acts>::Why>>,
    View<<M as Acts>::Fixed, <M as Acts>::Why>,
    Key<M>,
    TurnRule,
>;

// Takes the value out of the slot, acts on it and puts it back, in plain memory. Gives the count of
// entries then, and the answer.
fn act_in_slot<M: Acts>(
    table: &SharedTable<M>,
    place: &mut Place<M>,
    number: u8,
    kind: Kind,
) -> (u64, Result<u64, M::Why>)
    requires here { place.old.table_id ≡ table.now.table_id }
    requires number { number ≤ 7 }
    requires holder { IsHolder M.entries M.fixed number place.old }
    ensures same { (place.new.table_id ≡ place.old.table_id) × (place.new.me.0 ≡ place.old.me.0) }
    ensures acted { ActsInSlot M.entries M.fixed M.why number kind place.old place.new result }
{
    let Some(held) = table.exchange(place, 0, None) else {
        unreachable!()
    };
    let Held { mut value, last: _ } = held;
    let answer = value.act(number, kind);
    let count = value.count();
    let act = LastAct { kind, answer };
    let last = Snapshot::of(&act);
    let None = table.exchange(place, 0, Some(Held { value, last })) else {
        unreachable!()
    };
    let LastAct { kind: _, answer } = act;
    (count, answer)
}

/// Acts, publishes the count and releases the turn. Gives the count and the answer.
pub(crate) fn act_and_release<M: Acts>(
    table: &SharedTable<M>,
    place: &mut Place<M>,
    number: u8,
    kind: Kind,
) -> (u64, Result<u64, M::Why>)
    requires here { (place.old.table_id ≡ table.now.table_id) × (table.now.table_id.words ≡ 2) }
    requires number { number ≤ 7 }
    requires holder { IsHolder M.entries M.fixed number place.old }
    ensures same { place.new.table_id ≡ place.old.table_id }
    ensures idle { GoesIdle number kind place.old place.new result.1 }
    ensures answer { IsCounted place.old result.0 result.1 }
{
    let (count, answer) = act_in_slot(table, place, number, kind);
    table.store::<Publish>(place, 1, count);
    table.store::<Release>(place, 0, 0);
    (count, answer)
}
