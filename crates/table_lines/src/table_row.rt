// The entry of a line.

ghost use Rattle.std.specs.Prelude.{◌≡◌, ◌≢◌, ◌+◌, ◌<◌, ◌≤◌, length, true, false, Some, OnOk};
ghost use Rattle.session_values.specs.Names.{Begins};
ghost use Rattle.text_lines.specs.Rows.{row_of};
ghost use Rattle.text_lines.specs.Text.{words as words_of};
ghost use Rattle.session_values.specs.OpeningLimits.{max_opening};
ghost use Rattle.session_values.specs.Opening.{count_all, entries_of, has_key, with_entry};
ghost use Rattle.table_lines.specs.declared.refusal.TableRefusal.TheVariants.{Twice};
ghost use Rattle.table_lines.specs.Accepting.{Accepts, row_fault};
ghost use Rattle.table_lines.specs.TableRows.{AreKnown};

use crate::naming::table;
use crate::refusal::TableRefusal;
use crate::words::entry;
use session_values::{MAX_TABLE_LINES, Names, Opening, Value};
use syntax_trees::TableDecls;
use text_lines::Line;

/// Appends the entry of a line to those of the lines before it.
pub(crate) fn push_row(
    tables: &TableDecls,
    line: u32,
    name: &str,
    words: Line<'_>,
    names: &mut Names,
    found: &mut Opening,
) -> Result<(), TableRefusal>
    requires known { AreKnown names.old tables.now }
    requires room { length names.old + length (words_of words.rest.now) ≤ 4294967295 }
    requires tables { length found.old ≡ length tables.now }
    ensures ok { OnOk result (Accepts names.old names.new tables.now found.old found.new
        (row_of line name.now (words_of words.entry.rest.now))) }
    ensures refused { (e : _) → result ≡ Err e → e ≢ TableRefusal.NoMemory →
        row_fault names.old tables.now found.old
        (row_of line name.now (words_of words.entry.rest.now)) ≡ Some e }
    ensures kept { Begins names.old names.new }
    ensures room { length names.new ≤ length names.old + length (words_of words.entry.rest.now) }
{
    if found.count() >= MAX_TABLE_LINES {
        return Err(TableRefusal::TooManyEntries { line });
    }
    let Some(number) = table(tables, names, name) else {
        return Err(TableRefusal::UnknownTable { line });
    };
    match entry(tables.get(number).kind, line, words, names) {
        Ok(pair) => push_entry(found, number, line, pair),
        Err(e) => Err(e),
    }
}

/// Appends an entry to those of its table, unless its key is there.
fn push_entry(
    found: &mut Opening,
    table: u32,
    line: u32,
    pair: (Value, Value),
) -> Result<(), TableRefusal>
    requires table { table < length found.old }
    requires few { count_all found.old < max_opening }
    ensures ok { OnOk result ((has_key (entries_of found.old table) pair.0 ≡ false)
        × (found.new ≡ with_entry found.old table pair)) }
    ensures refused { (e : _) → result ≡ Err e → e ≢ TableRefusal.NoMemory →
        (has_key (entries_of found.old table) pair.0 ≡ true) × (e ≡ Twice line) }
{
    let (key, value) = pair;
    if found.has(table, key) {
        return Err(TableRefusal::Twice { line });
    }
    match found.push(table, key, value) {
        Ok(()) => Ok(()),
        Err(_) => Err(TableRefusal::NoMemory),
    }
}
