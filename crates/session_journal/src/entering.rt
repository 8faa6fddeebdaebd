// How an entry enters a table.

ghost use Rattle.std.specs.Prelude.{◌≡◌, ◌∷◌, List};
ghost use Rattle.session_values.specs.Kinds.{home};
ghost use Rattle.session_values.specs.Tables.{after_on};
ghost use Rattle.session_values.specs.Opening.{Pair, container_of};

use session_values::{Kind, Op, TableKind, Value};

/// The operation that puts an entry into a table of this kind: of a map it binds the key, of a set
/// it makes the key a member.
pub fn opening_op(kind: TableKind, table: u32, key: Value, value: Value) -> Op
    ensures kind { home result.kind ≡ kind }
    ensures table { result.table ≡ table }
    ensures key { result.key ≡ key }
    // Entries that stand before it enter after it.
    ensures enters { (es : List Pair)
        → after_on (container_of kind es) result ≡ container_of kind ((key, value) ∷ es) }
{
    key.bounds();
    value.bounds();
    match kind {
        TableKind::Map => Op::new(Kind::Put, table, key, value),
        TableKind::Set => Op::new(Kind::Mark, table, key, Value::Nil),
    }
}
