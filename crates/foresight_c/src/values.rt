// Values and operations as C has them.

ghost use Rattle.std.specs.Prelude.{◌≡◌};
ghost use Rattle.session_values.specs.Kinds.{kind_place};
ghost use Rattle.foresight_c.specs.Values.{told_arg, told_symbol, told_value};

use session_values::{Kind, Value};
use symbolic_ops::{Arg, Symbol};

/// A value: nil where the sort is 0, the number where it is 1, the name of this number where it is
/// 2. In a symbol, an argument that may be any value has the sort 3.
#[repr(C)]
#[derive(Clone, Copy, Debug)]
pub struct CValue {
    pub sort: u8,
    pub name: u32,
    pub number: i64,
}

/// An operation, or the symbol of some: its kind by its number, the number of its table, its key
/// and its value.
#[repr(C)]
#[derive(Clone, Copy, Debug)]
pub struct COperation {
    pub kind: u8,
    pub table: u32,
    pub key: CValue,
    pub value: CValue,
}

/// A value as C has it.
pub(crate) fn told_value(value: Value) -> CValue
    ensures { result ≡ told_value value }
{
    let (sort, name, number) = match value {
        Value::Nil => (0, 0, 0),
        Value::Num(number) => (1, 0, number),
        Value::Sym(name) => (2, name, 0),
    };
    CValue { sort, name, number }
}

// An argument of a symbol as C has it.
fn told_arg(arg: Arg) -> CValue
    ensures { result ≡ told_arg arg }
{
    match arg {
        Arg::Known(value) => told_value(value),
        Arg::Var(_) | Arg::Any => CValue {
            sort: 3,
            name: 0,
            number: 0,
        },
    }
}

// The number of a kind.
fn kind_number(kind: Kind) -> u8
    ensures { result ≡ kind_place kind }
{
    match kind {
        Kind::Get => 0,
        Kind::Put => 1,
        Kind::Swap => 2,
        Kind::Del => 3,
        Kind::Size => 4,
        Kind::Bump => 5,
        Kind::Has => 6,
        Kind::Add => 7,
        Kind::Mark => 8,
        Kind::Drop => 9,
        Kind::Count => 10,
    }
}

/// A symbol as C has it.
pub(crate) fn told_symbol(symbol: &Symbol) -> COperation
    ensures { result ≡ told_symbol symbol.now }
{
    COperation {
        kind: kind_number(symbol.kind),
        table: symbol.table,
        key: told_arg(symbol.key()),
        value: told_arg(symbol.value()),
    }
}
