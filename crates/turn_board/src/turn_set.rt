// Taking a set of turns in one step, and giving the book back with all other turns in one.
ghost use Rattle.std.specs.Prelude.{◌≡◌, ℕ, ◌+◌, ◌<◌, ◌≤◌, [], Some, length};
ghost use Rattle.std.specs.Int.{bit_at};

use crate::board::Board;
use crate::hands::Hands;
use crate::seat::Seat;
use crate::taken::TookAll;
use std::marker::Brand;
use std::snapshot::Snapshot;
use turn_steps::TieRule;

impl<V, R: TieRule<V>> Board<V, R> {
    ghost use Rattle.turn_steps.specs.declared.view.Place.TheVariants.{Vacant, Lies};
    ghost use Rattle.turn_steps.specs.Tied.{place};
    ghost use Rattle.turn_steps.specs.Maps.{bits_of, SameTurns};
    ghost use Rattle.turn_board.specs.Hands.{in_hands, put_back, Once};
    ghost use Rattle.turn_steps.specs.Passes.{Placed, id_of};
    ghost use Rattle.turn_steps.specs.Passes as passes;
    ghost use Rattle.turn_board.specs.Moving.{Emptied, TakenOut, Filled};
    ghost use Rattle.turn_board.specs.Boards.{IsSeatOf, turn_count, held, caller, CanAsk, SameNote, AnsweredAll, BookedAll, Changed};

    /// Takes all turns of a set, or none: bit t of `turns` asks for turn t.
    pub fn try_take_all(&self, seat: &mut Seat<V, R>, turns: u64, hands: &mut Hands<V>) -> TookAll
        requires seat { IsSeatOf self.now seat.old }
        requires set { CanAsk self.now seat.old turns }
        requires some { 0 < turns }
        requires room { length hands.old.pairs + length (bits_of turns (turn_count self.now))
            ≤ hands.old.room }
        ensures seat { IsSeatOf self.now seat.new × SameNote seat.old seat.new }
        ensures answer { AnsweredAll R.content R.holds (turn_count self.now) seat.old seat.new turns
            hands.old.pairs hands.new.pairs result }
        ensures room { hands.new.room ≡ hands.old.room }
    {
        let found = self.words.ask(&mut seat.pass, turns);
        let taken = found & turns;
        if taken == 0 {
            self.take_out_all(seat, turns, hands);
            return TookAll::Here;
        }
        let turn = taken.trailing_zeros();
        let won = turns & !found;
        if won == 0 {
            return TookAll::Busy { turn };
        }
        self.words.give_back(&mut seat.pass, !won);
        TookAll::Busy { turn }
    }

    // Moves the values of a set of turns out of their slots.
    fn take_out_all(&self, seat: &mut Seat<V, R>, set: u64, hands: &mut Hands<V>)
        requires seat { Placed (id_of self.now.words) seat.old.pass.token }
        requires lies { (u : ℕ) → bit_at set u ≡ 1 → (c : R.Content) × (0 < u)
            × (passes.held seat.old.pass.token u ≡ Some c)
            × (place seat.old.pass.token.me.0 u ≡ Lies c) }
        requires room { length hands.old.pairs + length
            (bits_of set (turn_count self.now))
            ≤ hands.old.room }
        ensures seat { Emptied set (turn_count self.now) seat.old.pass.token
            seat.new.pass.token }
        ensures pairs { TakenOut R.content set (turn_count self.now)
            (passes.held seat.old.pass.token) hands.old.pairs hands.new.pairs }
        ensures room { hands.new.room ≡ hands.old.room }
    {
        let mut left = set;
        while left != 0 {
            let turn = left.trailing_zeros();
            let value = self.take_out(seat, turn);
            hands.push(turn, value);
            left &= !(1u64 << turn);
        }
    }

    /// Gives back the book and all other turns of the seat. From this one step on the contents of
    /// the book and of what was in the hands count, and that of the book is the caller's note.
    pub fn give_all(&self, seat: &mut Seat<V, R>, book: V, hands: &mut Hands<V>)
        requires seat { IsSeatOf self.now seat.old }
        requires once { Once R.content hands.old.pairs }
        requires held { SameTurns (held seat.old) (put_back R.content book hands.old.pairs) }
        requires moves { R.moves (turn_count self.now) (caller seat.old) (held seat.old)
            (put_back R.content book hands.old.pairs) }
        ensures seat { IsSeatOf self.now seat.new }
        ensures booked { BookedAll seat.old seat.new (R.content book) }
        ensures changed { Changed seat.old seat.new (turn_count self.now)
            (put_back R.content book hands.old.pairs) }
        ensures hands { (hands.new.pairs ≡ []) × (hands.new.room ≡ hands.old.room) }
    {
        let copy = Snapshot::of(&book);
        let list = Snapshot::of(&*hands);
        self.lower(seat, 0, book);
        let mask = self.lower_all(seat, hands);
        self.settle::<Brand>(seat, &copy, &list, mask | 1);
    }

    // Moves all values of the hands into their slots, and gives the set of their turns.
    fn lower_all(&self, seat: &mut Seat<V, R>, hands: &mut Hands<V>) -> u64
        requires seat { Placed (id_of self.now.words) seat.old.pass.token }
        requires once { Once R.content hands.old.pairs }
        requires held { (u : ℕ) (c : R.Content) → in_hands R.content hands.old.pairs u ≡ Some c
            → ((d : R.Content) × (passes.held seat.old.pass.token u ≡ Some d))
            × (place seat.old.pass.token.me.0 u ≡ Vacant) }
        ensures seat { Filled R.content hands.old.pairs result seat.old.pass.token
            seat.new.pass.token }
        ensures hands { (hands.new.pairs ≡ []) × (hands.new.room ≡ hands.old.room) }
    {
        let mut mask = 0u64;
        while let Some((turn, value)) = hands.take_last() {
            self.lower(seat, turn, value);
            mask |= 1u64 << turn;
        }
        mask
    }
}
