//! Laws of the orders: the comparisons that are derived are the written ones, which are total, and
//! which count nothing but a value itself as equal to it. And of the sums of bumps.

ghost use Rattle.std.specs.Prelude.{◌≡◌, ℤ, ◌+ℤ◌};
ghost use Rattle.std.specs.Cmp.{IsTotalOrder};
ghost use Rattle.std.specs.FinMap.{IsAntisymmetric};
ghost use Rattle.std.specs.Int.{w64};
ghost use Rattle.std.specs.Int.RustNames.{FitsSigned};
ghost use Rattle.session_values.specs.Bumps.{IsCongruent};
ghost use Rattle.session_values.specs.Kinds.{kind_cmp};
ghost use Rattle.session_values.specs.Tables.{sum_in_range};
ghost use Rattle.session_values.specs.Values.{value_cmp};

use crate::kind::Kind;
use crate::value::Value;
use std::cmp::Ordering;

/// Values are ordered as is written: nil, then numbers by size, then symbols by place.
pub fn order_of_values(a: Value, b: Value) -> Ordering
    ensures written { result ≡ value_cmp a b }
    ensures total { IsTotalOrder value_cmp }
    ensures exact { IsAntisymmetric value_cmp }
{
    a.cmp(&b)
}

/// Kinds are ordered by their places in the table of kinds.
pub fn order_of_kinds(kind: Kind, other: Kind) -> Ordering
    ensures written { result ≡ kind_cmp kind other }
    ensures total { IsTotalOrder kind_cmp }
    ensures exact { IsAntisymmetric kind_cmp }
{
    kind.cmp(&other)
}

/// A bump leaves the only number in the range of i64 that differs from the whole sum by a multiple
/// of 2^64.
pub fn sums_of_bumps()
    ensures range { (n d : ℤ) → FitsSigned w64 (sum_in_range n d) }
    ensures congruent { (n d : ℤ) → IsCongruent (n +ℤ d) (sum_in_range n d) }
    ensures only { (z s t : ℤ) → FitsSigned w64 s → FitsSigned w64 t → IsCongruent z s
        → IsCongruent z t → s ≡ t }
{}
