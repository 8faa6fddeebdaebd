// The order in which entries are written.

ghost use Rattle.std.specs.Prelude.{◌≡◌, ◌<◌, ℕ, List};
ghost use Rattle.std.specs.List.Sorted.{IsPermutation};
ghost use Rattle.table_lines.specs.Written.{NilWord, NumberWord, SymbolWord, text_at, written, written_cmp};
ghost use Rattle.table_lines.specs.Dumped.{AreInOrder};

use session_values::{Names, Value};
use std::cmp::Ordering;

/// Puts entries in the order in which their keys are written: nil, numbers by size, symbols by the
/// bytes of their texts. It takes no memory.
pub fn put_in_order(entries: &mut [(Value, Value)], names: &Names)
    ensures permutation { IsPermutation entries.old entries.new }
    ensures order { AreInOrder names.now entries.new }
{
    entries.sort_unstable_by(|a, b| compare_keys(a.0, b.0, names));
}

// How two keys compare as they are written.
fn compare_keys(a: Value, b: Value, names: &Names) -> Ordering
    ensures { result ≡ written_cmp (written names.now a) (written names.now b) }
{
    match a {
        Value::Nil => compare_nil(b),
        Value::Num(x) => compare_number(x, b),
        Value::Sym(place) => compare_symbol(place, b, names),
    }
}

// How nil compares with a key.
fn compare_nil(b: Value) -> Ordering
    ensures { (names : List (List ℕ)) → result ≡ written_cmp NilWord (written names b) }
{
    match b {
        Value::Nil => Ordering::Equal,
        Value::Num(_) => Ordering::Less,
        Value::Sym(_) => Ordering::Less,
    }
}

// How a number compares with a key.
fn compare_number(x: i64, b: Value) -> Ordering
    ensures { (names : List (List ℕ)) → result ≡ written_cmp (NumberWord x) (written names b) }
{
    match b {
        Value::Nil => Ordering::Greater,
        Value::Num(y) => x.cmp(&y),
        Value::Sym(_) => Ordering::Less,
    }
}

// How a symbol compares with a key.
fn compare_symbol(place: u32, b: Value, names: &Names) -> Ordering
    ensures { result ≡ written_cmp (SymbolWord (text_at names.now place)) (written names.now b) }
{
    match b {
        Value::Nil => Ordering::Greater,
        Value::Num(_) => Ordering::Greater,
        Value::Sym(other) => text_of(place, names).cmp(text_of(other, names)),
    }
}

// The text at a place, which is empty where the place has none.
fn text_of(place: u32, names: &Names) -> &[u8]
    ensures { result.now ≡ text_at names.now place }
{
    if place < names.len() {
        names.text(place).as_bytes()
    } else {
        b""
    }
}
