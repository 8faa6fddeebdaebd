// The board, and how many turns it has.
ghost use Rattle.std.specs.Prelude.{◌≡◌, ◌≤◌, [], vec_capacity};
ghost use Rattle.turn_board.specs.Limits.{max_board_turns};

use std::sync::Mutex;
use turn_steps::{TieRule, Words};

/// An empty list with room for the values of a board.
#[derive(Drop)]
pub(crate) struct Spare<V> {
    pub(crate) list: Vec<V>,
    ghost empty: { list.items ≡ [] },
    ghost roomy: { max_board_turns ≤ vec_capacity list },
}

/// Values, each behind a turn, for callers that take turns, use the values and give them back.
/// Turn 0 is the book's. Between any two atomic steps the rule `R` holds of the counted contents
/// of all values and of what each caller last gave back.
pub struct Board<V, R: TieRule<V>> {
    pub(crate) words: Words<V, R>,
    // The list that `close` fills. A lock lets threads share the board where V is only Send; no
    // thread takes it.
    pub(crate) kept: Mutex<Spare<V>>,
}

impl<V: Drop, R: TieRule<V>> Drop for Board<V, R> {
    fn drop(self) {
        let Board { words, kept } = self;
        drop(words);
        drop(kept);
    }
}

impl<V, R: TieRule<V>> Board<V, R> {
    ghost use Rattle.std.specs.Prelude.{◌≡◌, ◌<◌, ◌≤◌};
    ghost use Rattle.turn_board.specs.Boards.{turn_count};

    /// The number of turns.
    pub fn turns(&self) -> u32
        ensures turns { result ≡ turn_count self.now }
        ensures range { (0 < turn_count self.now) × (turn_count self.now ≤ max_board_turns) }
    {
        self.words.turns()
    }

    /// The word of all turns, read without a step: bit t is set where turn t was found taken. It
    /// may be old by the time it is read, and no seat knows more by it.
    pub fn look(&self) -> u64 {
        self.words.look()
    }

    pub(crate) fn into_parts(self) -> (Words<V, R>, Mutex<Spare<V>>)
        ensures { result.0 ≡ self.words }
    {
        let Board { words, kept } = self;
        (words, kept)
    }
}
