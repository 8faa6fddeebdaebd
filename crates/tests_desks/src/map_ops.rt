// Operations on one map, which is table 0.

ghost use Rattle.std.specs.Prelude.{◌∷◌, []};
ghost use Rattle.session_values.specs.Tables.{Fits};

use session_values::{Kind, Op, TableKind, Value};

pub(crate) fn put(key: i64, value: i64) -> Op
    ensures { Fits (TableKind.Map ∷ []) result }
{
    Op::new(Kind::Put, 0, Value::Num(key), Value::Num(value))
}

pub(crate) fn get(key: i64) -> Op
    ensures { Fits (TableKind.Map ∷ []) result }
{
    Op::new(Kind::Get, 0, Value::Num(key), Value::Nil)
}
