// Taking one turn, and giving one back.
ghost use Rattle.std.specs.Prelude.{◌≡◌, ◌<◌, Some, None};

use crate::board::Board;
use crate::hands::Hands;
use crate::seat::Seat;
use crate::taken::Taken;
use std::marker::Brand;
use std::snapshot::Snapshot;
use turn_steps::TieRule;

impl<V, R: TieRule<V>> Board<V, R> {
    ghost use Rattle.turn_board.specs.Boards.{IsSeatOf, turn_count, held, caller, SameNote, Answered, Released, Booked, Changed};
    ghost use Rattle.turn_board.specs.Hands.{put_back};
    ghost use Rattle.turn_steps.specs.Maps.{SameTurns};

    /// Takes a turn and its value, if no other seat holds it. `lost` of the turn rises where one
    /// does.
    pub fn try_take(&self, seat: &mut Seat<V, R>, turn: u32) -> Taken<V>
        requires seat { IsSeatOf self.now seat.old }
        requires turn { turn < turn_count self.now }
        requires free { held seat.old turn ≡ None }
        ensures seat { IsSeatOf self.now seat.new × SameNote seat.old seat.new }
        ensures answer { Answered R.content R.holds (turn_count self.now) seat.old seat.new turn
            result }
    {
        let bit = 1u64 << turn;
        let found = self.words.ask(&mut seat.pass, bit);
        if found & bit != 0 {
            return Taken::Busy { turn };
        }
        Taken::Here(self.take_out(seat, turn))
    }

    /// Gives back a turn other than the book's, with a value that counts as before.
    pub fn give(&self, seat: &mut Seat<V, R>, turn: u32, value: V)
        requires seat { IsSeatOf self.now seat.old }
        requires turn { 0 < turn }
        requires same { held seat.old turn ≡ Some (R.content value) }
        ensures seat { IsSeatOf self.now seat.new × SameNote seat.old seat.new }
        ensures gave { Released seat.old seat.new turn }
    {
        self.lower(seat, turn, value);
        let bit = 1u64 << turn;
        self.words.give_back(&mut seat.pass, !bit);
    }

    /// Gives the book back. From this one step on the contents of the book and of what is in the
    /// hands count, and that of the book is the caller's note. The seat keeps its other turns.
    pub fn give_book(&self, seat: &mut Seat<V, R>, book: V, hands: &Hands<V>)
        requires seat { IsSeatOf self.now seat.old }
        requires held { SameTurns (held seat.old) (put_back R.content book hands.now.pairs) }
        requires moves { R.moves (turn_count self.now) (caller seat.old) (held seat.old)
            (put_back R.content book hands.now.pairs) }
        ensures seat { IsSeatOf self.now seat.new }
        ensures booked { Booked seat.old seat.new (put_back R.content book hands.now.pairs) }
        ensures changed { Changed seat.old seat.new (turn_count self.now)
            (put_back R.content book hands.now.pairs) }
    {
        let copy = Snapshot::of(&book);
        let list = Snapshot::of(hands);
        self.lower(seat, 0, book);
        self.settle::<Brand>(seat, &copy, &list, 1);
    }
}
