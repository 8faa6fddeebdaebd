// The rule of the table under a board: the board's own, over counted contents and notes.

use crate::tie_rule::TieRule;
use crate::view::{Opening, View};
use atomic_table::TableRule;
use std::marker::PhantomData;

/// The rule of the table under a board. No value of it is made.
pub struct Tie<R> {
    marker: PhantomData<R>,
}

impl<V, R: TieRule<V>> TableRule<Option<V>, View<R::Content>, Opening<V>> for Tie<R> {
    ghost use Rattle.std.specs.Prelude.{map};
    ghost use Rattle.turn_steps.specs.Tied.{Tied, first_view};

    ghost holds = { λ key. Tied R.content R.holds key.caller_count };

    ghost first = { λ key. first_view key.turns key.caller_count (R.content key.book.value)
        (map R.content key.values.value.items) };
}
