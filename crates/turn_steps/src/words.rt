// The table of words and slots, and how many turns it has.
ghost use Rattle.std.specs.Prelude.{◌≡◌, ◌<◌, ◌≤◌};
ghost use Rattle.turn_steps.specs.Limits.{max_board_turns};

use crate::tie::Tie;
use crate::tie_rule::TieRule;
use crate::view::{Opening, View};
use atomic_table::Table;
use std::alloc::Global;

/// The turns of a board: the book's, and one for each shard of each table.
pub const MAX_BOARD_TURNS: usize = 57;

/// The words of the table. All turns stand in the one in the middle, and the others are never
/// written, so that nothing else that changes lies in its cache line of 64 bytes.
pub(crate) const WORDS: [u64; 15] = [0; 15];

/// The place of the word in which all turns stand: bit t is set where turn t is taken.
pub(crate) const MASK: usize = 7;

/// The place of a word that is never written, the last one, which for most places of the table lies
/// in another cache line than the turns. What only tells the proofs where a value went is a load of
/// it, so that such a load needs no line that other callers write.
pub(crate) const IDLE: usize = 14;

/// The words with the turns, and a slot for the value of each turn. Between any two steps the rule
/// `R` holds of the counted contents of all values and of what each caller last gave back.
pub struct Words<V, R: TieRule<V>> {
    pub(crate) table: Table<Option<V>, View<R::Content>, Opening<V>, Tie<R>, Global>,
    ghost words: { table.shared.table_id.words ≡ 15 },
    ghost some: { 0 < table.shared.table_id.slots },
    ghost few: { table.shared.table_id.slots ≤ max_board_turns },
}

impl<V: Drop, R: TieRule<V>> Drop for Words<V, R> {
    fn drop(self) {
        let Words { table } = self;
        drop(table);
    }
}

impl<V, R: TieRule<V>> Words<V, R> {
    ghost use Rattle.std.specs.Prelude.{◌≡◌, ◌<◌, ◌≤◌};
    ghost use Rattle.turn_steps.specs.Passes.{turns_of};

    /// The number of turns.
    pub fn turns(&self) -> u32
        ensures turns { result ≡ turns_of self.now }
        ensures range { (0 < turns_of self.now) × (turns_of self.now ≤ max_board_turns) }
    {
        self.table.slot_count() as u32
    }

    /// The word of all turns, read without a step: bit t is set where turn t was found taken. It
    /// may be old by the time it is read, and no seat knows more by it.
    pub fn look(&self) -> u64 {
        self.table.shared.peek(MASK)
    }

    pub(crate) fn into_table(self) -> Table<Option<V>, View<R::Content>, Opening<V>, Tie<R>, Global>
        ensures { result ≡ self.table }
    {
        let Words { table } = self;
        table
    }
}
