// What tables open with, as it is told.

use session_values::Value;

/// Tells what tables open with, and how many keys each may gain.
pub trait TellsOpening {
    ghost use Rattle.std.specs.Prelude.{◌≡◌, ◌<◌, Some, List, length, slice_get};
    ghost use Rattle.session_values.specs.declared.kind.TableKind.{TableKind};
    ghost use Rattle.session_values.specs.Opening.{Pair, entries_of};

    /// The kinds of the tables.
    ghost shape: { Self → List TableKind };

    /// The entries of each table, by the tables' numbers.
    ghost opened: { Self → List (List Pair) };

    /// For how many keys a table needs room beside those that it opens with. Where this is too few
    /// or too many, memory may run out; the tables are the same.
    fn room(&self, table: u32) -> u32;

    /// How many entries a table opens with.
    fn opening_len(&self, table: u32) -> u32
        requires { table < length (shape self.now) }
        ensures { result ≡ length (entries_of (opened self.now) table) };

    /// An entry that a table opens with: a key and its value, which is nil for a member.
    fn opening_entry(&self, table: u32, i: u32) -> (Value, Value)
        requires table { table < length (shape self.now) }
        requires entry { i < length (entries_of (opened self.now) table) }
        ensures { slice_get (entries_of (opened self.now) table) i ≡ Some result };
}
