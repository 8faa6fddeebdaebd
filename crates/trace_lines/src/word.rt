// What a single word of an event says.

ghost use Rattle.std.specs.Prelude.{◌≡◌, ◌<◌, ◌≤◌, ◌==◌, ◌&&◌, nat_lt, IfSome, Some, length, slice_get, slice_index};
ghost use Rattle.session_values.specs.Names.{place_of};
ghost use Rattle.symbolic_ops.specs.Matching.{IsNoVar};
ghost use Rattle.text_lines.specs.ValueWords.{literal_value};
ghost use Rattle.trace_lines.specs.EventRows.{AreKnown};
ghost use Rattle.trace_lines.specs.EventWords as spec;
ghost use Rattle.trace_lines.specs.Fronts as fronts;
ghost use Rattle.trace_lines.specs.Placing.{IsPlaced};

use crate::words::Word;
use session_values::{Kind, Names, TableKind, Value};
use symbolic_ops::Arg;
use text_lines::{first_byte, number};

/// Whether a zero stands in front of other bytes.
fn has_front_zero(word: &str) -> bool
    ensures { result ≡ ((slice_index word.now 0 == 48) && nat_lt 1 (length word.now)) }
{
    first_byte(word) == b'0' && word.len() > 1
}

/// The number of 32 bits of which the word is the decimal text.
pub(crate) fn small_number(word: &str) -> Option<u32>
    ensures { result ≡ spec.small_number word.now }
{
    let first = first_byte(word);
    if !first.is_ascii_digit() {
        return None;
    }
    // `number` takes leading zeros, which these numbers don't have
    if has_front_zero(word) {
        return None;
    }
    match number(word) {
        Some(n) => u32::try_from(n).ok(),
        None => None,
    }
}

/// The kind of an operation whose word it is.
pub(crate) fn kind(word: &str) -> Option<Kind>
    ensures { result ≡ spec.kind_of word.now }
{
    match word.as_bytes() {
        b"get" => Some(Kind::Get),
        b"put" => Some(Kind::Put),
        b"swap" => Some(Kind::Swap),
        b"del" => Some(Kind::Del),
        b"size" => Some(Kind::Size),
        b"bump" => Some(Kind::Bump),
        b"has" => Some(Kind::Has),
        b"add" => Some(Kind::Add),
        b"mark" => Some(Kind::Mark),
        b"drop" => Some(Kind::Drop),
        b"count" => Some(Kind::Count),
        _ => None,
    }
}

/// The value of a literal, if the word is one.
pub(crate) fn literal(word: Word<'_>, names: &Names) -> Option<Value>
    requires { IsPlaced names.now word }
    ensures { result ≡ literal_value names.now word.entry.text.now }
{
    match word.place {
        Some(place) => Some(Value::Sym(place)),
        None => unplaced(word.text),
    }
}

/// The value of a word that is no literal of a symbol, if it is one.
fn unplaced(word: &str) -> Option<Value>
    ensures { result ≡ fronts.unplaced_value word.now }
{
    if first_byte(word) == b'\'' {
        None
    } else {
        plain(word)
    }
}

/// The value of a word without a quote, if it is one.
fn plain(word: &str) -> Option<Value>
    ensures { result ≡ fronts.plain_value word.now }
{
    if matches!(word.as_bytes(), b"nil") {
        return Some(Value::Nil);
    }
    match number(word) {
        Some(n) => Some(Value::Num(n)),
        None => None,
    }
}

/// An argument of a symbol, if the word is one.
pub(crate) fn arg(word: Word<'_>, names: &Names) -> Option<Arg>
    requires { IsPlaced names.now word }
    ensures value { result ≡ spec.arg_value names.now word.entry.text.now }
    ensures known { IfSome result IsNoVar }
{
    if matches!(word.text.as_bytes(), b"any") {
        return Some(Arg::Any);
    }
    match literal(word, names) {
        Some(value) => Some(Arg::Known(value)),
        None => None,
    }
}

/// Whether operations of the kind work on tables of this kind.
fn works_on_kind(kind: Kind, table: TableKind) -> bool
    ensures { result ≡ spec.works_on kind (Some table) }
{
    match table {
        TableKind::Map => kind.on_map(),
        TableKind::Set => !kind.on_map(),
    }
}

/// Whether operations of the kind work on the table of this number.
fn works_on(kind: Kind, shape: &[TableKind], number: usize) -> bool
    ensures { result ≡ spec.works_on kind (slice_get shape.now number) }
{
    match shape.get(number) {
        Some(table) => works_on_kind(kind, *table),
        None => false,
    }
}

/// The number of the first table with this name, or how many there are where none has it.
fn table_number(name: &str, tables: &[u32], names: &Names) -> usize
    requires { AreKnown names.now tables.now }
    ensures { result ≡ place_of (spec.table_names names.now tables.now) name.now }
{
    for i in 0..tables.len() {
        if name == names.text(tables[i]) {
            return i;
        }
    }
    tables.len()
}

/// The number of the table with this name, where operations of the kind work on it.
pub(crate) fn table(
    word: &str,
    kind: Kind,
    tables: &[u32],
    shape: &[TableKind],
    names: &Names,
) -> Option<u32>
    requires known { AreKnown names.now tables.now }
    requires few { length tables.now < 4294967296 }
    ensures { result ≡ spec.table_of (spec.table_names names.now tables.now) shape.now kind
        word.now }
{
    let number = table_number(word, tables, names);
    if works_on(kind, shape, number) {
        Some(number as u32)
    } else {
        None
    }
}
