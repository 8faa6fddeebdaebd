// Two operations.

ghost use Rattle.std.specs.Prelude.{◌≡◌, ◌==◌};
ghost use Rattle.std.specs.Bool.{Decides, MatchBool};
ghost use Rattle.session_values.specs.Kinds.{is_on_map};
ghost use Rattle.range_tables.specs.Commuting.{RangeCommute, RangeDiffer};
ghost use Rattle.range_tables.specs.Ranges as ranges;
ghost use Rattle.range_tables.specs.Relation as relation;
ghost use Rattle.commute_tables.specs.Relation as plain;

use crate::range_op::RangeOp;
use commute_tables::commute;
use session_values::{Kind, Op, Value};

/// The key is a number of the range.
#[inline(always)]
pub(crate) fn is_between(low: i64, high: i64, key: Value) -> bool
    ensures { result ≡ ranges.is_between low high key }
{
    match key {
        Value::Num(x) => low <= x && x <= high,
        Value::Nil | Value::Sym(_) => false,
    }
}

#[inline(always)]
#[tactic(auto, using(commute_tables::proofs::OnMap::told_on_map))]
pub(crate) fn on_map(kind: Kind) -> bool
    ensures { result ≡ is_on_map kind }
{
    kind.on_map()
}

/// It is a number.
#[inline(always)]
pub(crate) fn is_number(v: Value) -> bool
    ensures { result ≡ plain.is_number v }
{
    matches!(v, Value::Num(_))
}

/// An operation of the kind, whose value is a number or isn't, changes nothing.
#[inline(always)]
pub(crate) fn changes_nothing(kind: Kind, number: bool) -> bool
    ensures { result ≡ relation.changes_nothing kind number }
{
    kind.reads() || kind == Kind::Bump && !number
}

/// An operation and a count of this table.
#[inline(always)]
pub(crate) fn commutes_count(op: &Op, table: u32, low: i64, high: i64) -> bool
    ensures { result ≡ relation.commutes_count op.now (op.now.table == table) low high }
{
    if op.table != table {
        return true;
    }
    if !on_map(op.kind) {
        return true;
    }
    if changes_nothing(op.kind, is_number(op.value())) {
        return true;
    }
    !is_between(low, high, op.key())
}

/// Two operations without a range.
#[inline(always)]
pub(crate) fn commutes_plain(a: &Op, b: &Op) -> bool
    ensures { result ≡ plain.commutes a.now b.now }
{
    a.bounds();
    b.bounds();
    commute(a, b)
}

/// What the relation says.
fn test(a: &RangeOp, b: &RangeOp) -> bool
    ensures { result ≡ relation.range_commutes a.now b.now }
{
    match (a, b) {
        (RangeOp::Plain(x), RangeOp::Plain(y)) => commutes_plain(x, y),
        (RangeOp::Plain(x), RangeOp::Between { table, low, high }) => {
            commutes_count(x, *table, *low, *high)
        }
        (RangeOp::Between { table, low, high }, RangeOp::Plain(y)) => {
            commutes_count(y, *table, *low, *high)
        }
        (RangeOp::Between { .. }, RangeOp::Between { .. }) => true,
    }
}

/// Whether both orders of the operations give the same tables and the same replies, from all
/// tables.
pub fn range_commute(a: &RangeOp, b: &RangeOp) -> bool
    ensures exact { Decides result (RangeCommute a.now b.now) }
    // Where they don't, these tables tell, whatever kinds they have.
    ensures told { MatchBool result (RangeCommute a.now b.now) (RangeDiffer a.now b.now) }
{
    a.bounds();
    b.bounds();
    test(a, b)
}
