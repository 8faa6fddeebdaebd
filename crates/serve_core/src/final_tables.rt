// The tables of a closed hall.

ghost use Rattle.std.specs.Prelude.{◌≡◌, ◌*◌, ◌<◌, ◌≤◌, ℕ, Some, length, slice_get};
ghost use Rattle.session_values.specs.Limits.{max_tables};
ghost use Rattle.session_hall.specs.Listings.{listed};
ghost use Rattle.serve_core.specs.Serving.{AreFinal};

use session_hall::Closed;
use session_values::{MAX_TABLES, Value};
use table_lines::TellsEntries;

/// The tables of a closed hall, as they are at its end.
#[derive(Clone, Copy)]
pub(crate) struct FinalTables<'a> {
    closed: &'a Closed,
    /// How many entries each table has.
    lengths: [u32; MAX_TABLES],
    /// How many tables there are.
    count: u32,
    ghost few: { count ≤ max_tables },
    ghost counted: { (t : ℕ) → t < count
        → slice_get lengths t ≡ Some (length (listed closed.now t)) },
    ghost parts: { length closed.now.parts ≡ count * closed.now.shards },
    ghost some: { 0 < closed.now.shards },
}

impl<'a> FinalTables<'a> {
    /// The tables of a closed hall, of which there are so many.
    pub(crate) fn of(closed: &'a Closed, count: u32) -> FinalTables<'a>
        requires few { count ≤ max_tables }
        requires parts { length closed.now.parts ≡ count * closed.now.shards }
        requires some { 0 < closed.now.shards }
        ensures closed { result.closed.now ≡ closed.now }
        ensures count { result.count ≡ count }
        ensures left { AreFinal closed.now count }
    {
        let mut lengths = [0; MAX_TABLES];
        for table in 0..count {
            lengths[table as usize] = closed.len(table);
        }
        FinalTables {
            closed,
            lengths,
            count,
        }
    }
}

impl<'a> TellsEntries for FinalTables<'a> {
    ghost use Rattle.serve_core.specs.Serving.{final_lists};

    ghost lists = { λ t. final_lists t.closed.now t.count };

    fn entry_count(&self, table: u32) -> u32 {
        self.lengths[table as usize]
    }

    fn entry_at(&self, table: u32, i: u32) -> (Value, Value) {
        self.closed.entry(table, i)
    }
}
