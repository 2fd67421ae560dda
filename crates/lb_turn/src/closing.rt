// What is done while a turn is closed.
ghost use Rattle.std.specs.Prelude.{◌≡◌, ℕ, [], ◌∷◌, ◌++◌, List, All, IfSome, IsTrue, ◌↔◌};
ghost use Rattle.lb_turn.specs.declared.table.History.{History};
ghost use Rattle.lb_turn.specs.Seats.{IsOpened, turn_view};
ghost use Rattle.lb_turn.specs.Closing.{IsComplete, IsFirstMissing, HasNumber, Closes};
ghost use Rattle.lb_turn.specs.InternalSeats.{IsIn, HasJoined, CanJoin, Joins, JoinsAll};

use crate::acts::Acts;
use crate::holding::SharedTable;
use crate::opening::OwnedTable;
use crate::seat::{Place, Seat};
use crate::table::{Held, JoinSeat};

// Joins one seat into the owner.
fn join<M: Acts>(table: &SharedTable<M>, owner: &mut Place<M>, seat: Seat<M>, total: u8)
    requires here { IsIn table.now.table_id owner.old × (seat.turn ≡ table.now.table_id) }
    requires ready { CanJoin total owner.old }
    ensures same { (owner.new.table_id ≡ owner.old.table_id) × (owner.new.id ≡ owner.old.id) }
    ensures joined { Joins total seat owner.old owner.new }
{
    let Seat {
        number: _,
        seen: _,
        place,
    } = seat;
    table.join_seat::<JoinSeat>(owner, place);
}

// Joins all seats into the owner.
fn join_all<M: Acts>(
    table: &SharedTable<M>,
    owner: &mut Place<M>,
    mut seats: Vec<Seat<M>>,
    total: u8,
)
    requires here { IsIn table.now.table_id owner.old }
    requires of_this { All (λ s. s.turn ≡ table.now.table_id) seats.items }
    requires ready { HasJoined total [] owner.old }
    ensures same { (owner.new.table_id ≡ owner.old.table_id) × (owner.new.id ≡ owner.old.id) }
    ensures joined { JoinsAll total seats.items owner.new }
{
    while let Some(seat) = seats.pop() {
        join(table, owner, seat, total);
    }
    seats.destroy_empty();
}

/// The value, out of the table, which is given up. It takes no memory.
pub(crate) fn take_value<M: Acts>(
    total: u8,
    table: OwnedTable<M>,
    mut owner: Place<M>,
    seats: Vec<Seat<M>>,
) -> M
    requires opened { IsOpened total table.shared.table_id table.shared.key owner }
    requires of_this { All (λ s. s.turn ≡ table.shared.table_id) seats.items }
    requires complete { IsComplete total seats.items }
    ensures { Closes M.entries M.fixed M.why
        (turn_view total table.shared.table_id table.shared.key) seats.items result }
{
    join_all(&table.shared, &mut owner, seats, total);
    let mut closed = table.close_with(owner);
    let held = closed.take(0);
    closed.free();
    let Some(held) = held else { unreachable!() };
    let Held { value, last: _ } = held;
    value
}

// Whether the seat of that number is there.
fn has_number<M: Acts>(seats: &[Seat<M>], number: u8) -> bool
    ensures { IsTrue result ↔ HasNumber seats.now number }
{
    let mut at = 0;
    while at < seats.len() {
        if seats[at].number() == number {
            return true;
        }
        at += 1;
    }
    false
}

/// The least number below `total` whose seat isn't there.
pub(crate) fn first_missing<M: Acts>(seats: &[Seat<M>], total: u8) -> Option<u8>
    ensures { IsFirstMissing total seats.now result }
{
    for number in 0..total {
        if !has_number(seats, number) {
            return Some(number);
        }
    }
    None
}
