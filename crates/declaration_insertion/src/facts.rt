// What is known of the declarations of points beside their symbols, so that a walk over a handler
// looks at no list.

ghost use Rattle.std.specs.Prelude.{◌≡◌, ◌≢◌, ◌↔◌, ◌+◌, ◌-◌, ◌<◌, ◌≤◌, [], cond, IfOk, length, slice_index_or};
ghost use Rattle.std.specs.Bool.{OnFalse, OnTrue};
ghost use Rattle.std.specs.List.{AllByRecursion};
ghost use Rattle.std.specs.List.Sorted.{IsStrictlySortedBy};
ghost use Rattle.std.specs.Ordering.{eq_by_cmp};
ghost use Rattle.session_values.specs.Limits.{max_symbols};
ghost use Rattle.symbolic_ops.specs.Order.{symbol_cmp};
ghost use Rattle.may_use_analysis.specs.Later.{AreLater};
ghost use Rattle.declaration_insertion.specs.Facts.{AreAllFacts, AreFacts, AreInOrder, HasFacts, IsAlike, IsOther, NamesEachOnce, is_same_kind, kinds_in, looked_at};
ghost use Rattle.declaration_insertion.specs.Promises.{listed};

use handler_check::Checked;
use may_use_analysis::Later;
use session_values::{Listed, NoMemory};
use std::alloc::Global;
use symbolic_ops::Symbol;

/// In a longer list it isn't looked whether each kind is named once.
const LOOKED_AT: usize = 16;

/// What is known of a point's declaration.
#[derive(Clone, Copy, Debug)]
pub(crate) struct PointFacts {
    /// The first point from which on, up to this one, the same is declared at each.
    pub(crate) alike: u32,
    /// How many kinds of operations are declared, each on each of its tables.
    pub(crate) kinds: u32,
    /// No two symbols are of one kind on one table.
    pub(crate) once: bool,
}

/// Whether two symbols are of different kinds or on different tables.
fn is_other(s: &Symbol, t: &Symbol) -> bool
    ensures other { OnTrue result (IsOther s.now t.now) }
    ensures same { OnFalse result (IsOther s.now t.now → ⊥) }
{
    s.kind != t.kind || s.table != t.table
}

/// Whether all symbols of a list are of another kind or on another table than this one.
#[tactic(auto, using(crate::proofs::FactLemmas::same_among))]
fn are_others(list: &[Symbol], s: &Symbol) -> bool
    ensures other { OnTrue result (AllByRecursion (λ t. IsOther t s.now) list.now) }
    ensures same { OnFalse result (AllByRecursion (λ t. IsOther t s.now) list.now → ⊥) }
{
    for t in list {
        if !is_other(t, s) {
            return false;
        }
    }
    true
}

/// Whether no two symbols of a list are of one kind on one table; false where the list is long.
#[tactic(auto, using(crate::proofs::FactLemmas::named_twice))]
fn names_each_once(list: &[Symbol]) -> bool
    ensures once { OnTrue result (NamesEachOnce list.now) }
    ensures twice { OnFalse result (length list.now ≤ looked_at → NamesEachOnce list.now → ⊥) }
{
    if list.len() > LOOKED_AT {
        return false;
    }
    for i in 0..list.len() {
        if !are_others(&list[..i], &list[i]) {
            return false;
        }
    }
    true
}

/// A count, and one more where two symbols are of different kinds or on different tables.
#[tactic(auto, using(crate::proofs::KindCounts::one_more, crate::proofs::KindCounts::none_more))]
fn count_next(count: u32, last: &Symbol, next: &Symbol) -> u32
    requires { count < max_symbols }
    ensures counts { result ≡ count + cond (is_same_kind last.now next.now) 0 1 }
    ensures least { count ≤ result }
    ensures most { result ≤ count + 1 }
{
    if is_other(last, next) {
        count + 1
    } else {
        count
    }
}

/// How many kinds of operations a declaration names, each on each of its tables. It is in order, so
/// symbols of one kind on one table stand together.
#[tactic(auto, using(crate::proofs::KindCounts::kinds_none, crate::proofs::KindCounts::kinds_first, crate::proofs::KindCounts::kinds_next, crate::proofs::KindCounts::kinds_whole))]
fn kinds_named(list: &[Symbol]) -> u32
    requires order { IsStrictlySortedBy symbol_cmp list.now }
    requires few { length list.now ≤ max_symbols }
    ensures count { result ≡ kinds_in list.now }
    ensures nothing { (result ≡ 0) ↔ (list.now ≡ []) }
{
    if list.is_empty() {
        return 0;
    }
    let mut count = 1u32;
    for i in 1..list.len() {
        count = count_next(count, &list[i - 1], &list[i]);
    }
    count
}

fn is_same(a: &Symbol, b: &Symbol) -> bool
    ensures { result ≡ eq_by_cmp symbol_cmp a.now b.now }
{
    a.compare(b).is_eq()
}

#[tactic(auto, using(crate::proofs::FactLemmas::other_length, crate::proofs::FactLemmas::other_at))]
fn are_same(a: &[Symbol], b: &[Symbol]) -> bool
    ensures same { OnTrue result (a.now ≡ b.now) }
    ensures other { OnFalse result (a.now ≢ b.now) }
{
    if a.len() != b.len() {
        return false;
    }
    for i in 0..a.len() {
        if !is_same(&a[i], &b[i]) {
            return false;
        }
    }
    true
}

/// Whether the same is declared at a point as at the one before it, which there is.
fn is_as_before(later: &Later, h: u32, point: u32) -> bool
    requires handler { h < length later.now }
    requires point { point < length (slice_index_or later.now h []) }
    ensures same { OnTrue result ((0 < point) × (listed (slice_index_or later.now h []) (point - 1)
        ≡ listed (slice_index_or later.now h []) point)) }
    ensures other { OnFalse result (0 < point → listed (slice_index_or later.now h []) (point - 1)
        ≢ listed (slice_index_or later.now h []) point) }
{
    point > 0 && are_same(later.list(h, point - 1), later.list(h, point))
}

/// The first point from which on, up to this one, the same is declared at each, by that of the point
/// before.
#[tactic(auto, using(crate::proofs::FactLemmas::alike_itself, crate::proofs::FactLemmas::alike_next))]
fn alike_at(later: &Later, h: u32, point: u32, before: u32) -> u32
    requires handler { h < length later.now }
    requires point { point < length (slice_index_or later.now h []) }
    requires before { IsAlike (listed (slice_index_or later.now h [])) before (point - 1) }
    ensures { IsAlike (listed (slice_index_or later.now h [])) result point }
{
    if is_as_before(later, h, point) {
        before
    } else {
        point
    }
}

/// The facts of a point; the first of them is at hand.
fn facts_at(later: &Later, h: u32, point: u32, alike: u32) -> PointFacts
    requires handler { h < length later.now }
    requires point { point < length (slice_index_or later.now h []) }
    requires alike { IsAlike (listed (slice_index_or later.now h [])) alike point }
    requires order { IsStrictlySortedBy symbol_cmp (listed (slice_index_or later.now h []) point) }
    requires few { length (listed (slice_index_or later.now h []) point) ≤ max_symbols }
    ensures { HasFacts (listed (slice_index_or later.now h [])) point result }
{
    let list = later.list(h, point);
    let kinds = kinds_named(list);
    let once = names_each_once(list);
    PointFacts { alike, kinds, once }
}

/// The facts of so many points of a handler, which are all that it has.
fn facts_of_handler(
    alloc: Global,
    later: &Later,
    h: u32,
    points: u32,
) -> Result<Listed<PointFacts>, NoMemory>
    requires handler { h < length later.now }
    requires points { points ≡ length (slice_index_or later.now h []) }
    requires order { AreInOrder (slice_index_or later.now h []) }
    ensures { IfOk result (AreFacts (slice_index_or later.now h [])) }
{
    let mut facts = Vec::with_capacity(alloc, points as usize)?;
    let mut alike = 0;
    for point in 0..points {
        alike = alike_at(later, h, point, alike);
        let found = facts_at(later, h, point, alike);
        facts.push(found)?;
    }
    Ok(Listed::from_vec(facts))
}

/// The facts of each point of each handler.
#[tactic(auto, using(crate::proofs::KindCounts::lists_in_order))]
pub(crate) fn facts_of(
    alloc: Global,
    checked: &Checked,
    later: &Later,
) -> Result<Vec<Listed<PointFacts>>, NoMemory>
    requires { AreLater checked.now later.now }
    ensures { IfOk result (λ facts. AreAllFacts later.now facts.items) }
{
    let mut facts = Vec::with_capacity(alloc, checked.handlers() as usize)?;
    for h in 0..checked.handlers() {
        let of_handler = facts_of_handler(alloc, later, h, checked.handler(h).points)?;
        facts.push(of_handler)?;
    }
    Ok(facts)
}
