// Writing: the text of tables.

ghost use Rattle.std.specs.Prelude.{◌≡◌, ◌<◌, ◌≤◌, Some, true, false, length, slice_get, vec_capacity};
ghost use Rattle.byte_ends.specs.Ends.{Counted, Appended, AppendedPrefix};
ghost use Rattle.session_values.specs.Opening.{entries_of};
ghost use Rattle.table_lines.specs.Dumped.{CanDumpAll, HaveRoom, dump_text};
ghost use Rattle.table_lines.specs.Lines.{head_text};

use crate::dumping::write_entries;
use byte_ends::{Sink, WriteBuffer, write_all};
use session_values::{Names, Opening, Value};
use syntax_trees::TableDecl;

/// Tables whose entries can be asked for, by their places.
pub trait TellsEntries {
    ghost use Rattle.std.specs.Prelude.{List};
    ghost use Rattle.session_values.specs.Opening.{Pair};

    /// The entries of each table, by the tables' numbers.
    ghost lists: { Self → List (List Pair) };

    /// How many entries a table has.
    fn entry_count(&self, table: u32) -> u32
        requires { table < length (lists self.now) }
        ensures { result ≡ length (entries_of (lists self.now) table) };

    /// An entry of a table: a key and its value, which is nil for a member.
    fn entry_at(&self, table: u32, i: u32) -> (Value, Value)
        requires table { table < length (lists self.now) }
        requires entry { i < length (entries_of (lists self.now) table) }
        ensures { slice_get (entries_of (lists self.now) table) i ≡ Some result };
}

impl TellsEntries for Opening {
    ghost lists = { λ o. o };

    fn entry_count(&self, table: u32) -> u32 {
        self.len(table)
    }

    fn entry_at(&self, table: u32, i: u32) -> (Value, Value) {
        self.entry(table, i)
    }
}

/// Writes the text of tables of these declarations. The entries of a table at a time stand in
/// `entries`, in place of what that held, and its lines are written by way of the buffer. It takes
/// no memory, and answers `false` after a fault.
pub fn write_tables<O: Sink, T: TellsEntries>(
    out: &mut O,
    decls: &[TableDecl],
    tables: &T,
    names: &Names,
    entries: &mut Vec<(Value, Value)>,
    buffer: &mut WriteBuffer,
) -> bool
    requires tables { CanDumpAll names.now decls.now (T.lists tables.now) }
    requires room { HaveRoom (vec_capacity entries.old) (T.lists tables.now) }
    ensures all { result ≡ true → Appended (O.held out.old) (O.held out.new)
        (dump_text names.now decls.now (T.lists tables.now)) }
    ensures faults { Counted result (O.faults out.old) (O.faults out.new) }
    ensures front { result ≡ false → AppendedPrefix (O.held out.old) (O.held out.new)
        (dump_text names.now decls.now (T.lists tables.now)) }
{
    if !write_head(out) {
        return false;
    }
    for (table, decl) in decls.iter().enumerate() {
        take_entries(tables, table as u32, entries);
        if !write_entries(
            out,
            decl.name,
            decl.kind,
            entries.as_mut_slice(),
            names,
            buffer,
        ) {
            return false;
        }
    }
    true
}

// Writes the line with which the text begins.
fn write_head<O: Sink>(out: &mut O) -> bool
    ensures all { result ≡ true → Appended (O.held out.old) (O.held out.new) head_text }
    ensures faults { Counted result (O.faults out.old) (O.faults out.new) }
    ensures front { result ≡ false → AppendedPrefix (O.held out.old) (O.held out.new) head_text }
{
    write_all(out, b"%% tables\n")
}

// Puts the entries of a table in place of what the list held.
fn take_entries<T: TellsEntries>(tables: &T, table: u32, entries: &mut Vec<(Value, Value)>)
    requires table { table < length (T.lists tables.now) }
    requires room { length (entries_of (T.lists tables.now) table) ≤ vec_capacity entries.old }
    ensures items { entries.new.items ≡ entries_of (T.lists tables.now) table }
    ensures capacity { vec_capacity entries.new ≡ vec_capacity entries.old }
{
    entries.clear();
    for i in 0..tables.entry_count(table) {
        entries.push_reserved(tables.entry_at(table, i));
    }
}
