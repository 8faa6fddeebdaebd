// The words behind a table's name.

ghost use Rattle.std.specs.Prelude.{◌≡◌, ◌≢◌, ◌+◌, ◌≤◌, length, Some, IfErr, IfOk};
ghost use Rattle.session_values.specs.Names.{Begins};
ghost use Rattle.session_values.specs.declared.kind.TableKind.TheVariants.{Map, Set};
ghost use Rattle.text_lines.specs.Steps.{TakesValue};
ghost use Rattle.text_lines.specs.Text.{words as words_of};
ghost use Rattle.table_lines.specs.TableRows.{word_fault};
ghost use Rattle.table_lines.specs.Accepting.{Reads};

use crate::refusal::TableRefusal;
use session_values::{Names, TableKind, Value};
use text_lines::Line;

/// Takes the next word of a line, if one is left, and says its value, if it is one. A symbol is
/// placed in the list of names.
fn take(words: &mut Line<'_>, names: &mut Names) -> Result<Option<Option<Value>>, TableRefusal>
    requires { length names.old + length (words_of words.old.rest.now) ≤ 4294967295 }
    ensures steps { TakesValue words.old names.old result words.new names.new }
    ensures memory { IfErr result (λ e. e ≡ TableRefusal.NoMemory) }
    ensures kept { Begins names.old names.new }
    ensures room { length names.new + length (words_of words.new.rest.now)
        ≤ length names.old + length (words_of words.old.rest.now) }
{
    match words.next_value(names) {
        Ok(found) => Ok(found),
        Err(_) => Err(TableRefusal::NoMemory),
    }
}

/// A key and the value that it is bound to.
fn map_entry(
    line: u32,
    mut words: Line<'_>,
    names: &mut Names,
) -> Result<(Value, Value), TableRefusal>
    requires { length names.old + length (words_of words.rest.now) ≤ 4294967295 }
    ensures ok { IfOk result (λ p. Reads names.old names.new Map
        (words_of words.entry.rest.now) p) }
    ensures refused { (e : _) → result ≡ Err e → e ≢ TableRefusal.NoMemory →
        word_fault Map line (words_of words.entry.rest.now) ≡ Some e }
    ensures kept { Begins names.old names.new }
    ensures room { length names.new ≤ length names.old + length (words_of words.entry.rest.now) }
{
    let Some(key) = take(&mut words, names)? else {
        return Err(TableRefusal::Arity { line });
    };
    let Some(value) = take(&mut words, names)? else {
        return Err(TableRefusal::Arity { line });
    };
    if let Some(_) = words.next() {
        return Err(TableRefusal::Arity { line });
    }
    match (key, value) {
        (Some(key), Some(value)) => Ok((key, value)),
        _ => Err(TableRefusal::BadWord { line }),
    }
}

/// A member.
fn set_entry(
    line: u32,
    mut words: Line<'_>,
    names: &mut Names,
) -> Result<(Value, Value), TableRefusal>
    requires { length names.old + length (words_of words.rest.now) ≤ 4294967295 }
    ensures ok { IfOk result (λ p. Reads names.old names.new Set
        (words_of words.entry.rest.now) p) }
    ensures refused { (e : _) → result ≡ Err e → e ≢ TableRefusal.NoMemory →
        word_fault Set line (words_of words.entry.rest.now) ≡ Some e }
    ensures kept { Begins names.old names.new }
    ensures room { length names.new ≤ length names.old + length (words_of words.entry.rest.now) }
{
    let Some(key) = take(&mut words, names)? else {
        return Err(TableRefusal::Arity { line });
    };
    if let Some(_) = words.next() {
        return Err(TableRefusal::Arity { line });
    }
    match key {
        Some(key) => Ok((key, Value::Nil)),
        None => Err(TableRefusal::BadWord { line }),
    }
}

/// A key and its value, which is nil for a member.
pub(crate) fn entry(
    kind: TableKind,
    line: u32,
    words: Line<'_>,
    names: &mut Names,
) -> Result<(Value, Value), TableRefusal>
    requires { length names.old + length (words_of words.rest.now) ≤ 4294967295 }
    ensures ok { IfOk result (λ p. Reads names.old names.new kind
        (words_of words.entry.rest.now) p) }
    ensures refused { (e : _) → result ≡ Err e → e ≢ TableRefusal.NoMemory →
        word_fault kind line (words_of words.entry.rest.now) ≡ Some e }
    ensures kept { Begins names.old names.new }
    ensures room { length names.new ≤ length names.old + length (words_of words.entry.rest.now) }
{
    match kind {
        TableKind::Map => map_entry(line, words, names),
        TableKind::Set => set_entry(line, words, names),
    }
}
