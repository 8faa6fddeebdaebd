// Writing: the lines of a table.

ghost use Rattle.std.specs.Prelude.{◌≡◌, ℕ, List, true, false};
ghost use Rattle.byte_ends.specs.Ends.{Counted, Appended, AppendedPrefix};
ghost use Rattle.session_values.specs.Names.{IsNamed};
ghost use Rattle.session_values.specs.ReplyText.{IsPrintable};
ghost use Rattle.session_values.specs.declared.value.Value.{Value};
ghost use Rattle.table_lines.specs.TableText.{told};
ghost use Rattle.table_lines.specs.Written.{written};
ghost use Rattle.std.specs.List.{AllByRecursion};
ghost use Rattle.table_lines.specs.Dumped.{CanDump, IsPrintableEntry, part_text};
ghost use Rattle.table_lines.specs.Lines.{lines_of};

use crate::entry_line::push_table_line;
use crate::order::put_in_order;
use byte_ends::{Sink, WriteBuffer, write_all};
use session_values::{Names, TableKind, Value};

/// The most bytes of a line: of a name, a key and a value 64 each, with a space or a line feed
/// behind each.
const LONGEST: usize = 195;

/// Puts the entries of a table in order, and writes the table's lines, with the name at this place.
/// Whole lines are gathered in the buffer, in place of what it held, and written when the next one
/// may have no room. It answers `false` after a fault.
pub fn write_entries<O: Sink>(
    out: &mut O,
    table: u32,
    kind: TableKind,
    entries: &mut [(Value, Value)],
    names: &Names,
    buffer: &mut WriteBuffer,
) -> bool
    requires table { IsNamed names.now table }
    requires entries { CanDump names.now kind entries.old }
    ensures all { result ≡ true
        → Appended (O.held out.old) (O.held out.new) (part_text names.now table kind entries.old) }
    ensures faults { Counted result (O.faults out.old) (O.faults out.new) }
    ensures front { result ≡ false → AppendedPrefix (O.held out.old) (O.held out.new)
        (part_text names.now table kind entries.old) }
{
    put_in_order(entries, names);
    let _names = names.len();
    write_lines(out, table, kind, entries, names, buffer)
}

// Writes the lines of entries as they stand.
fn write_lines<O: Sink>(
    out: &mut O,
    table: u32,
    kind: TableKind,
    entries: &[(Value, Value)],
    names: &Names,
    buffer: &mut WriteBuffer,
) -> bool
    requires table { IsNamed names.now table }
    requires printable { AllByRecursion (IsPrintableEntry names.now kind) entries.now }
    ensures all { result ≡ true
        → Appended (O.held out.old) (O.held out.new) (lines_of names.now table kind entries.now) }
    ensures faults { Counted result (O.faults out.old) (O.faults out.new) }
    ensures front { result ≡ false → AppendedPrefix (O.held out.old) (O.held out.new)
        (lines_of names.now table kind entries.now) }
{
    buffer.clear();
    for i in 0..entries.len() {
        if !buffer.reserve(LONGEST) {
            if !write_all(out, buffer.bytes()) {
                return false;
            }
            buffer.clear();
        }
        let (key, value) = entries[i];
        push_table_line(table, kind, key, told_value(kind, value), names, buffer);
    }
    write_all(out, buffer.bytes())
}

// What a line tells of an entry's value; nil where it tells nothing.
fn told_value(kind: TableKind, value: Value) -> Value
    ensures same { (names : List (List ℕ))
        → told kind (written names result) ≡ told kind (written names value) }
    ensures printable { (names : List (List ℕ)) (key : Value) → IsPrintableEntry names kind
        (key, value) → IsPrintable names key × IsPrintable names result }
{
    match kind {
        TableKind::Map => value,
        TableKind::Set => Value::Nil,
    }
}
