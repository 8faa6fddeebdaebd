// Closing a hall.

ghost use Rattle.std.specs.Prelude.{◌≡◌, ℕ, ◌<◌, ◌≤◌};
ghost use Rattle.std.specs.Prelude.{[], Some, length, map, slice_get, vec_len, vec_capacity};
ghost use Rattle.std.specs.List.{AllByRecursion};
ghost use Rattle.hall_rule.specs.declared.held.Held.TheVariants.{Table};
ghost use Rattle.session_hall.specs.declared.caller.Caller.{Caller as CallerOf};
ghost use Rattle.session_hall.specs.Closings.{HasLeft, IsDone, IsNotedBy, IsTable, Leaves};
ghost use Rattle.session_hall.specs.Names.{script_of};

use crate::caller::{Caller, Callers};
use crate::closed::Closed;
use crate::hall::{Hall, Spare};
use hall_rule::{HallRule, Held};
use session_journal::Tickets;
use session_values::Listed;
use shard_tables::Part;
use turn_board::{Seat, Seats};

// The seats of callers that leave.
fn seats_of<S: Tickets + Drop>(
    callers: Vec<Caller<S>>,
    list: Vec<Seat<Held<S>, HallRule<S>>>,
) -> Vec<Seat<Held<S>, HallRule<S>>>
    requires room { (list.items ≡ []) × (vec_len callers ≤ vec_capacity list) }
    ensures { result.items ≡ map (λ c. c.seat) callers.items }
{
    let mut left = callers;
    let mut seats = list;
    for done in 0..left.len() {
        let Caller {
            seat,
            number: _,
            stage: _,
            hands: _,
        } = left.remove(0);
        seats.push_reserved(seat);
    }
    seats
}

/// The shards behind the book.
pub(crate) fn parts_of<S: Tickets + Drop>(values: Vec<Held<S>>, list: Vec<Part>) -> Vec<Part>
    requires tables { AllByRecursion IsTable values.items }
    requires room { (list.items ≡ []) × (vec_len values ≤ vec_capacity list) }
    ensures { map Table result.items ≡ values.items }
{
    let mut left = values;
    let mut parts = list;
    for done in 0..left.len() {
        match left.remove(0) {
            Held::Table(part) => parts.push_reserved(part),
            Held::Register(_) => unreachable!(),
        }
    }
    parts
}

// The values of the turns in the order of their turns, and how many shards each table has.
fn values_of<S: Tickets + Drop>(hall: Hall<S>, callers: Callers<S>) -> (Vec<Held<S>>, Vec<Part>)
    requires all { length callers ≡ hall.sizes.callers }
    requires callers { (i : ℕ) (c : CallerOf S) → slice_get callers i ≡ Some c
        → Leaves S.meaning hall i c }
    ensures values { HasLeft S.meaning hall callers result.0.items }
    ensures room { (result.1.items ≡ []) × (vec_len result.0 ≤ vec_capacity result.1) }
{
    let Hall {
        ends: _,
        wanted: _,
        delayed: _,
        board,
        script: _,
        sizes: _,
        kept,
    } = hall;
    let Spare { seats, parts } = kept.into_inner();
    let seats = seats_of(callers.into_vec(), seats);
    let values = board.close(Seats::from_vec(seats));
    (values.into_vec(), parts)
}

impl<S: Tickets + Drop> Hall<S> {
    /// What was done, when all callers are out: the journal, the replies of all tickets, and the
    /// shards. It can't be refused.
    pub fn close(self, callers: Callers<S>) -> Closed
        requires all { length callers ≡ self.sizes.callers }
        requires callers { (i : ℕ) (c : CallerOf S) → slice_get callers i ≡ Some c
            → Leaves S.meaning self i c }
        ensures done { IsDone (S.meaning (script_of self)) result }
        ensures noted { IsNotedBy callers result.journal }
        ensures shards { result.shards ≡ self.sizes.shards }
        ensures callers { result.callers ≡ self.sizes.callers }
    {
        let shards = self.sizes.shards;
        let caller_count = self.sizes.callers;
        let (mut values, list) = values_of(self, callers);
        let (journal, replies) = match values.remove(0) {
            Held::Register(book) => book.close(),
            Held::Table(_) => unreachable!(),
        };
        let parts = Listed::from_vec(parts_of(values, list));
        Closed {
            journal,
            replies,
            parts,
            shards,
            callers: caller_count,
        }
    }
}
