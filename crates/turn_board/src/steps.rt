// How a value leaves its slot, how it gets there, and the step that gives the book back.
ghost use Rattle.std.specs.Prelude.{◌≡◌, ℕ, ◌<◌, Some, []};

use crate::board::Board;
use crate::hands::Hands;
use crate::seat::Seat;
use std::snapshot::Snapshot;
use turn_steps::{Change, TieRule};

impl<V, R: TieRule<V>> Board<V, R> {
    ghost use Rattle.turn_steps.specs.declared.view.Place.TheVariants.{Vacant, Lies};
    ghost use Rattle.turn_steps.specs.Tied.{place};
    ghost use Rattle.std.specs.Int.{bit_at, bit_not, w64};
    ghost use Rattle.turn_steps.specs.Maps.{SameTurns};
    ghost use Rattle.turn_board.specs.Hands.{put_back};
    ghost use Rattle.turn_board.specs.Boards.{turn_count, held, caller};
    ghost use Rattle.turn_steps.specs.Steps.{put_place, booked};
    ghost use Rattle.turn_steps.specs.Passes.{Placed, id_of};
    ghost use Rattle.turn_steps.specs.Passes as passes;

    // Moves a value out of its slot.
    pub(crate) fn take_out(&self, seat: &mut Seat<V, R>, turn: u32) -> V
        requires seat { Placed (id_of self.now.words) seat.old.pass.token }
        requires turn { turn < turn_count self.now }
        requires lies { (c : R.Content) × (passes.held seat.old.pass.token turn ≡ Some c)
            × (place seat.old.pass.token.me.0 turn ≡ Lies c) }
        ensures seat { (seat.new.pass.token.table_id ≡ seat.old.pass.token.table_id)
            × (seat.new.pass.token.id ≡ seat.old.pass.token.id)
            × (seat.new.pass.token.me ≡ (put_place turn Vacant seat.old.pass.token.me.0, [])) }
        ensures value { passes.held seat.old.pass.token turn ≡ Some (R.content result) }
    {
        let value = self.words.exchange(&mut seat.pass, turn, None);
        value.unwrap()
    }

    // Moves a value into its slot.
    pub(crate) fn lower(&self, seat: &mut Seat<V, R>, turn: u32, value: V)
        requires seat { Placed (id_of self.now.words) seat.old.pass.token }
        requires turn { turn < turn_count self.now }
        requires held { (c : R.Content) × (passes.held seat.old.pass.token turn ≡ Some c) }
        requires vacant { place seat.old.pass.token.me.0 turn ≡ Vacant }
        ensures { (seat.new.pass.token.table_id ≡ seat.old.pass.token.table_id)
            × (seat.new.pass.token.id ≡ seat.old.pass.token.id)
            × (seat.new.pass.token.me ≡ (
              put_place turn (Lies (R.content value)) seat.old.pass.token.me.0,
              [],
            )) }
    {
        match self.words.exchange(&mut seat.pass, turn, Some(value)) {
            None => {}
            Some(_) => unreachable!(),
        }
    }

    // The one step that gives back the book, and with it all turns of the set.
    pub(crate) fn settle<K: Change<R::Content>>(
        &self,
        seat: &mut Seat<V, R>,
        book: &Snapshot<V>,
        hands: &Snapshot<Hands<V>>,
        set: u64,
    )
        requires new { K.new ≡ put_back R.content book.now.value hands.now.value.pairs }
        requires seat { Placed (id_of self.now.words) seat.old.pass.token }
        requires lies { (u : ℕ) → u < turn_count self.now → bit_at set u ≡ 1 → (c : R.Content)
            × (put_back R.content book.now.value hands.now.value.pairs u ≡ Some c)
            × (place seat.old.pass.token.me.0 u ≡ Lies c) }
        requires held { SameTurns (held seat.old)
            (put_back R.content book.now.value hands.now.value.pairs) }
        requires moves { R.moves (turn_count self.now) (caller seat.old) (held seat.old)
            (put_back R.content book.now.value hands.now.value.pairs) }
        ensures seat { (seat.new.pass.token.table_id ≡ seat.old.pass.token.table_id)
            × (seat.new.pass.token.id ≡ seat.old.pass.token.id) }
        ensures booked { booked (put_back R.content book.now.value hands.now.value.pairs)
            (turn_count self.now) (bit_not w64 set) seat.old.pass.token.me
            seat.new.pass.token.me }
    {
        self.words.book::<K>(&mut seat.pass, !set);
    }
}
