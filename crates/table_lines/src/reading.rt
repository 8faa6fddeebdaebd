// The entries of a table part.

ghost use Rattle.std.specs.Prelude.{◌≡◌, ◌≢◌, ◌+◌, ◌≤◌, [], length, Some, IfOk};
ghost use Rattle.handler_check.specs.Resolved.{shape_of};
ghost use Rattle.session_values.specs.Opening.{IsOpening};
ghost use Rattle.session_values.specs.Names.{Begins};
ghost use Rattle.syntax_trees.specs.Mentions.{AreNamed, file_mentions};
ghost use Rattle.text_lines.specs.Text.{lines as lines_of};
ghost use Rattle.text_lines.specs.Rows.{rows as rows_of};
ghost use Rattle.table_lines.specs.TableRows as spec;

use crate::naming::seed;
use crate::refusal::TableRefusal;
use crate::table_row::push_row;
use handler_check::Checked;
use session_values::{Names, Opening};
use std::alloc::Global;
use text_lines::Lines;

/// The entries with which the tables of a checked file open, from the lines of a text whose first
/// line has the number `first`. The symbols among them are placed behind the names that are there,
/// which are those of the file; a table's name places none.
pub fn read_tables(
    alloc: Global,
    checked: &Checked,
    text: &str,
    first: u32,
    names: &mut Names,
) -> Result<Opening, TableRefusal>
    requires named { AreNamed names.old (file_mentions checked.now) }
    requires lines { first + length text.now ≤ 4294967295 }
    requires names { length names.old + length text.now ≤ 4294967295 }
    ensures ok { IfOk result (λ found. spec.AreTables names.old names.new checked.now.tables
        (rows_of first (lines_of text.now)) found) }
    ensures opening { IfOk result (λ found. IsOpening (shape_of checked.now) found) }
    ensures printable { IfOk result (λ found. spec.ArePrintable names.new found) }
    ensures refused { (e : _) → result ≡ Err e → e ≢ TableRefusal.NoMemory →
        spec.first_table_fault names.old checked.now.tables []
        (rows_of first (lines_of text.now)) ≡ Some e }
    ensures kept { Begins names.old names.new }
    // As many new names as bytes that were read, at most.
    ensures room { length names.new ≤ length names.old + length text.now }
{
    let tables = &checked.file().tables;
    let Ok(mut found) = Opening::with_seed(alloc, tables.len(), seed(text)) else {
        return Err(TableRefusal::NoMemory);
    };
    let mut lines = Lines::over(text, first);
    'lines: while let Some((number, line)) = lines.next() {
        let mut words = line;
        if let Some(name) = words.next() {
            match push_row(tables, number, name, words, names, &mut found) {
                Ok(()) => {}
                Err(e) => return Err(e),
            }
        }
    }
    let _count = found.tables();
    Ok(found)
}
