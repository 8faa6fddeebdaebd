// Closing a board.
ghost use Rattle.std.specs.Prelude.{◌≡◌, ℕ, ◌<◌, ◌++◌, List, Some, length, map, slice_get};
ghost use Rattle.turn_board.specs.declared.seat.Seat.{Seat as SeatOf};
ghost use Rattle.turn_board.specs.Closings.{all_notes};

use crate::board::{Board, Spare};
use crate::lists::{Seats, Values};
use crate::seat::Seat;
use turn_steps::TieRule;

impl<V, R: TieRule<V>> Board<V, R> {
    ghost use Rattle.turn_steps.specs.Passes.{IdleFirst, id_of};
    ghost use Rattle.turn_board.specs.Boards.{turn_count, note, AllEnd};

    // Takes in a seat with its callers.
    fn join(&self, seat: &mut Seat<V, R>, other: Seat<V, R>)
        requires seat { IdleFirst (id_of self.now.words) seat.old.pass.token }
        requires other { IdleFirst (id_of self.now.words) other.pass.token }
        requires caller_count { other.pass.token.me.0.caller_count
            ≡ seat.old.pass.token.me.0.caller_count }
        ensures seat { IdleFirst (id_of self.now.words) seat.new.pass.token
            × (seat.new.pass.token.me.0.caller_count ≡ seat.old.pass.token.me.0.caller_count) }
        ensures callers { seat.new.pass.token.me.0.speaks
            ≡ other.pass.token.me.0.speaks ++ seat.old.pass.token.me.0.speaks }
    {
        self.words.join(&mut seat.pass, other.into_pass());
    }

    // One seat takes in all others.
    fn gather(&self, seat: &mut Seat<V, R>, mut list: Vec<Seat<V, R>>)
        requires seat { IdleFirst (id_of self.now.words) seat.old.pass.token }
        requires others { (i : ℕ) (s : SeatOf V R R.Content) → slice_get list.items i ≡ Some s
            → IdleFirst (id_of self.now.words) s.pass.token
            × (s.pass.token.me.0.caller_count ≡ seat.old.pass.token.me.0.caller_count) }
        ensures seat { IdleFirst (id_of self.now.words) seat.new.pass.token }
        ensures caller_count { seat.new.pass.token.me.0.caller_count
            ≡ seat.old.pass.token.me.0.caller_count }
        ensures callers { seat.new.pass.token.me.0.speaks ≡ all_notes
            list.items ++ seat.old.pass.token.me.0.speaks }
    {
        while let Some(other) = list.pop() {
            self.join(seat, other);
        }
    }

    /// The values of a board, by turn, whose seats are all here, in the order of their callers, and
    /// hold no turn.
    pub fn close(self, seats: Seats<V, R>) -> Values<V>
        requires all { AllEnd self (length seats) seats }
        requires some { 0 < length seats }
        ensures turns { length result ≡ turn_count self }
        ensures rule { (notes : List R.Content) × (map Some notes ≡ map note seats)
            × R.holds (map R.content result) notes }
    {
        let mut list = seats.into_vec();
        let Some(mut seat) = list.pop() else {
            unreachable!()
        };
        self.gather(&mut seat, list);
        let (words, kept) = self.into_parts();
        let Spare { list: mut kept } = kept.into_inner();
        words.close(seat.into_pass(), &mut kept);
        Values::from_vec(kept)
    }
}
