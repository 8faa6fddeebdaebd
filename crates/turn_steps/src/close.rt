// Closing the words.
ghost use Rattle.std.specs.Prelude.{◌≡◌, ℕ, ◌+◌, ◌-◌, ◌<◌, ◌≤◌, [], List, Some, None, false, length, map, slice_get, slice_index_or, vec_len, vec_capacity};
ghost use mathlib.Core.Option.{some};
ghost use lib.ListN.{get_elem?};
ghost use Rattle.std.specs.Mem.Slots.{slots_items, slots_filled, slots_len, IsFull};
ghost use Rattle.turn_steps.specs.Closings.{AllSome};
ghost use Rattle.turn_steps.specs.Limits.{max_board_turns};

use crate::pass::Pass;
use crate::tie_rule::TieRule;
use crate::words::Words;
use atomic_table::Closed;
use std::alloc::Global;

// Moves all values out of their slots.
fn empty_out<V>(closed: &mut Closed<Option<V>, Global>, kept: &mut Vec<V>)
    requires slots { IsFull closed.old.slots × AllSome (slots_items closed.old.slots)
        × (slots_len closed.old.slots ≡ length (slots_items closed.old.slots)) }
    requires room { (kept.old.items ≡ []) × (slots_len closed.old.slots ≤ vec_capacity kept.old) }
    ensures free { (k : ℕ) → k < slots_len closed.new.slots
        → slice_index_or (slots_filled closed.new.slots) k false ≡ false }
    ensures values { (vec_len kept.new ≡ slots_len closed.old.slots)
        × ((t : ℕ) → t < slots_len closed.old.slots
        → (x : V) × (get_elem? (slots_items closed.old.slots) t ≡ some (Some x))
        × (slice_get kept.new.items t ≡ Some x)) }
{
    let mut turn = 0;
    while turn < closed.slot_count() {
        match closed.take(turn) {
            Some(value) => kept.push_reserved(value),
            None => unreachable!(),
        }
        turn += 1;
    }
}

impl<V, R: TieRule<V>> Words<V, R> {
    ghost use Rattle.turn_steps.specs.Passes.{IdleFirst, id_of, turns_of};
    ghost use Rattle.turn_steps.specs.Closings.{SpeaksForAll};

    /// Moves the values, by turn, into the room that is given. The pass speaks for all callers, and
    /// holds no turn.
    pub fn close(self, pass: Pass<V, R::Content>, kept: &mut Vec<V>)
        requires pass { IdleFirst (id_of self) pass.token }
        requires all { SpeaksForAll pass.token.me.0 }
        requires room { (kept.old.items ≡ []) × (max_board_turns ≤ vec_capacity kept.old) }
        ensures turns { vec_len kept.new ≡ turns_of self }
        ensures rule { (notes : List R.Content)
            × (length notes ≡ pass.token.me.0.caller_count)
            × ((k : ℕ) (c : R.Content) → k < pass.token.me.0.caller_count
            → get_elem? pass.token.me.0.speaks k ≡ some (k, c) → slice_get notes k ≡ Some c)
            × R.holds (map R.content kept.new.items) notes }
    {
        let mut closed = self.into_table().close_with(pass.into_token());
        empty_out(&mut closed, kept);
        closed.free();
    }
}
