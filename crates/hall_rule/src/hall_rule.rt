// The rule of a hall.

use crate::held::{Counted, Held};
use session_journal::Tickets;
use std::marker::PhantomData;
use turn_board::TieRule;

/// The rule of a hall over a script: the book is lawful, every shard is its part of the tables
/// after the book's journal, and each caller's note is the book but for what others did since.
pub struct HallRule<S> {
    marker: PhantomData<S>,
}

impl<S: Tickets + Drop> TieRule<Held<S>> for HallRule<S> {
    ghost use Rattle.hall_rule.specs.Shards.{content_of};
    ghost use Rattle.hall_rule.specs.Tie.{Tied, Moves};
    ghost use Rattle.hall_rule.specs.Law.{tie_kept};

    type Content = Counted<S>;

    ghost content = { content_of };

    ghost holds = { Tied S.meaning };

    ghost moves = { Moves S.meaning };

    ghost kept = { tie_kept S.meaning };
}
