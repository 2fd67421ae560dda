// What is done while a turn is opened.
ghost use Rattle.std.specs.Prelude.{◌≡◌, ℕ, ◌+◌, ◌<◌, ◌≤◌, [], length, IfOk, vec_len, vec_capacity};
ghost use Rattle.lb_turn.specs.Steps.{split_owner, split_off};
ghost use Rattle.lb_turn.specs.Seats.{new_seat, new_seats};
ghost use Rattle.lb_turn.specs.InternalSeats.{HasSplit, IsTold, IsIn, CanSplit};

use crate::acts::Acts;
use crate::holding::SharedTable;
use crate::seat::{Place, Seat};
use crate::table::{Held, Key, LastAct, SplitSeat, TurnRule, View};
use atomic_table::Table;
use lb_trace::Kind;
use std::alloc::{AllocError, Global};
use std::snapshot::Snapshot;

/// The table with what only its owner has.
pub(crate) type OwnedTable<M> = Table<
    Option<Held<M, <M as Acts>::Why>>,
    View<<M as Acts>::Fixed, <M as Acts>::Why>,
    Key<M>,
    TurnRule,
    Global,
>;

/// The table with the value in its slot, and the owner's place. Fails only for want of memory.
pub(crate) fn make_table<M: Acts>(
    alloc: Global,
    value: M,
    seats: u8,
) -> Result<(OwnedTable<M>, Place<M>), AllocError>
    ensures words { IfOk result (λ t. t.0.shared.table_id.words ≡ 2) }
    ensures slots { IfOk result (λ t. t.0.shared.table_id.slots ≡ 1) }
    ensures here { IfOk result (λ t. t.1.table_id ≡ t.0.shared.table_id) }
    ensures told { IfOk result (λ t. IsTold value seats t.0.shared.key) }
    ensures split { IfOk result (λ t. HasSplit seats 0 (length (M.entries value)) t.1) }
{
    let count = value.count();
    let key = Key {
        opened: Snapshot::of(&value),
        seats: seats as u64,
    };
    let no_act: LastAct<M::Why> = LastAct {
        kind: Kind::Fetch,
        answer: Ok(0),
    };
    let last = Snapshot::of(&no_act);
    let mut slots = Vec::with_capacity(alloc, 1)?;
    slots.push_reserved(Some(Held { value, last }));
    match Table::new(alloc, &[0, count], slots, &key) {
        Ok(made) => Ok(made),
        Err(_) => Err(AllocError),
    }
}

// Splits one seat off the owner.
fn split<M: Acts>(table: &SharedTable<M>, owner: &mut Place<M>) -> Place<M>
    requires here { (owner.old.table_id ≡ table.now.table_id) × (0 < table.now.table_id.words) }
    requires ready { CanSplit M.entries table.now.key owner.old }
    ensures owner_here { owner.new.table_id ≡ owner.old.table_id }
    ensures owner { owner.new.me ≡ (split_owner owner.old.me.0, owner.old.me.1) }
    ensures here { result.table_id ≡ owner.old.table_id }
    ensures place { result.me ≡ (split_off owner.old.me.0, []) }
{
    table.split_seat::<SplitSeat>(owner)
}

// The seat of the next number.
fn next_seat<M: Acts>(
    table: &SharedTable<M>,
    owner: &mut Place<M>,
    number: u8,
    count: u64,
) -> Seat<M>
    requires here { IsIn table.now.table_id owner.old }
    requires ready { HasSplit table.now.key.seats number count owner.old }
    requires count { count ≡ length (M.entries table.now.key.opened.value) }
    requires below { (number < table.now.key.seats) × (table.now.key.seats ≤ 8) }
    ensures here { owner.new.table_id ≡ owner.old.table_id }
    ensures owner { HasSplit table.now.key.seats (number + 1) count owner.new }
    ensures seat { result ≡ new_seat owner.old.table_id table.now.key.seats count number }
{
    let place = split(table, owner);
    Seat {
        number,
        seen: count,
        place,
    }
}

/// Adds all seats, in the order of their numbers.
pub(crate) fn add_seats<M: Acts>(
    table: &SharedTable<M>,
    owner: &mut Place<M>,
    places: &mut Vec<Seat<M>>,
    seats: u8,
    count: u64,
)
    requires here { IsIn table.now.table_id owner.old }
    requires ready { HasSplit seats 0 count owner.old }
    requires count { count ≡ length (M.entries table.now.key.opened.value) }
    requires few { (seats ≡ table.now.key.seats) × (seats ≤ 8) }
    requires empty { (places.old.items ≡ []) × (vec_len places.old ≡ 0) }
    requires room { seats ≤ vec_capacity places.old }
    ensures here { owner.new.table_id ≡ owner.old.table_id }
    ensures owner { HasSplit seats seats count owner.new }
    ensures seats { places.new.items ≡ new_seats owner.old.table_id seats count seats }
{
    for number in 0..seats {
        places.push_reserved(next_seat(table, owner, number, count));
    }
}
