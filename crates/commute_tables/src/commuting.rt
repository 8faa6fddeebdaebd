// Two operations.

ghost use Rattle.std.specs.Prelude.{◌≡◌, ◌==◌, ◌&&◌, ◌||◌, not};
ghost use Rattle.std.specs.Bool.{Decides, MatchBool};
ghost use Rattle.session_values.specs.Commuting.{Commute};
ghost use Rattle.session_values.specs.Values.{value_eq};
ghost use Rattle.session_values.specs.Kinds.{is_keyed, is_plain, kind_place};
ghost use Rattle.commute_tables.specs.Relation.{commutes, sums};
ghost use Rattle.commute_tables.specs.ToldApart.{Differ};

use crate::kinds::{both_read, one_home};
use crate::sums::{add_up, is_number, is_zero};
use session_values::{Kind, Op};

/// They are about different keys.
#[inline(always)]
fn keys_apart(a: &Op, b: &Op) -> bool
    ensures { result ≡ (is_keyed a.now.kind && is_keyed b.now.kind
        && not (value_eq a.now.key b.now.key)) }
{
    a.kind.is_keyed() && b.kind.is_keyed() && a.key() != b.key()
}

/// They are one plain change.
#[inline(always)]
fn same_change(a: &Op, b: &Op) -> bool
    ensures { result ≡ (is_plain a.now.kind && (kind_place a.now.kind == kind_place b.now.kind)
        && value_eq a.now.key b.now.key && (not (kind_place a.now.kind == 1)
        || value_eq a.now.value b.now.value)) }
{
    a.kind.is_plain()
        && a.kind == b.kind
        && a.key() == b.key()
        && (a.kind != Kind::Put || a.value() == b.value())
}

/// They add up.
#[inline(always)]
fn sums(a: &Op, b: &Op) -> bool
    ensures { result ≡ sums a.now b.now }
{
    add_up(
        a.kind,
        is_number(a.value()),
        is_zero(a.value()),
        b.kind,
        is_number(b.value()),
        is_zero(b.value()),
    )
}

/// What the relation says.
#[inline(always)]
fn test(a: &Op, b: &Op) -> bool
    ensures { result ≡ commutes a.now b.now }
{
    if a.table != b.table {
        return true;
    }
    if !one_home(a.kind, b.kind) {
        return true;
    }
    if both_read(a.kind, b.kind) {
        return true;
    }
    if keys_apart(a, b) {
        return true;
    }
    if same_change(a, b) {
        return true;
    }
    sums(a, b)
}

/// Whether both orders of the operations give the same tables and the same replies, from all
/// tables. Operations on containers of different kinds that name one table do, since no tables fit
/// both.
#[inline(always)]
pub fn commute(a: &Op, b: &Op) -> bool
    ensures exact { Decides result (Commute a.now b.now) }
    // Where they don't, these tables tell, whatever kinds they have.
    ensures told { MatchBool result (Commute a.now b.now) (Differ a.now b.now) }
{
    a.bounds();
    b.bounds();
    test(a, b)
}
