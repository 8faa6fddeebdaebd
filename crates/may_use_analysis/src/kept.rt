// What is kept of the lists of points.

ghost use Rattle.std.specs.Prelude.{◌≡◌, ℕ, ◌<◌, ◌++◌, ◌∷◌, [], length, slice_get, slice_index_or, take, IfOk, IfSome, OnOk, Some};
ghost use Rattle.std.specs.Bool.{OnTrue};
ghost use Rattle.may_use_analysis.specs.declared.kept.Kept.TheVariants.{Count};
ghost use Rattle.may_use_analysis.specs.PointList.{AllReferBack, AreKept, Counted, IsHeld, IsHeldAt, IsPointListOf, RefersBack, PointList, count_in, list_in, own_list, point_list_of};

use crate::ordered::is_same;
use crate::recent::Recent;
use session_values::{Listed, MAX_SYMBOLS, NoMemory};
use std::alloc::Global;
use std::marker::Model;
use symbolic_ops::Symbol;

/// What is kept of a list: it, where its point is the first one with it; the place of that point's
/// entry; that it is not too long; or its length, where it is.
#[derive(Drop)]
pub(crate) enum Kept {
    Own(Listed<Symbol>),
    Same(usize),
    Short,
    Count(u64),
}

fn are_same(a: &[Symbol], b: &[Symbol]) -> bool
    ensures { OnTrue result (a.now ≡ b.now) }
{
    if a.len() != b.len() {
        return false;
    }
    for i in 0..a.len() {
        if !is_same(&a[i], &b[i]) {
            return false;
        }
    }
    true
}

/// The list that the entry at a place holds itself.
fn own_list(entries: &[Kept], k: usize) -> &[Symbol]
    requires { k < length entries.now }
    ensures { (e : Kept) → slice_get entries.now k ≡ Some e → result.now ≡ own_list e }
{
    match &entries[k] {
        Kept::Own(list) => list.as_slice(),
        Kept::Same(_) => &[],
        Kept::Short => &[],
        Kept::Count(_) => &[],
    }
}

/// The list of the entry at a place.
fn kept_list(entries: &[Kept], i: usize) -> &[Symbol]
    requires at { i < length entries.now }
    requires back { AllReferBack entries.now }
    ensures { (e : Kept) → slice_get entries.now i ≡ Some e
        → result.now ≡ list_in (point_list_of entries.now e) }
{
    match &entries[i] {
        Kept::Own(list) => list.as_slice(),
        Kept::Same(k) => own_list(entries, *k),
        Kept::Short => &[],
        Kept::Count(_) => &[],
    }
}

/// The place of the entry that holds the list of the entry at a place.
fn owner_at(entries: &[Kept], i: usize) -> Option<usize>
    requires { AllReferBack entries.now }
    ensures { IfSome result (λ k. k < length entries.now) }
{
    match entries.get(i)? {
        Kept::Own(_) => Some(i),
        Kept::Same(k) => Some(*k),
        Kept::Short => None,
        Kept::Count(_) => None,
    }
}

/// The place of the entry that holds this list, where the list is that of the entry at a place.
fn owner_of(entries: &[Kept], i: usize, list: &[Symbol]) -> Option<usize>
    requires { AllReferBack entries.now }
    ensures { IfSome result (IsHeldAt entries.now list.now) }
{
    let k = owner_at(entries, i)?;
    if are_same(own_list(entries, k), list) {
        Some(k)
    } else {
        None
    }
}

/// The place of an entry that holds this list: that of the last entry, or one that is remembered.
/// The place behind the entries is remembered for it.
fn found_owner(entries: &[Kept], recent: &mut Recent, list: &[Symbol]) -> Option<usize>
    requires { AllReferBack entries.now }
    ensures { IfSome result (IsHeldAt entries.now list.now) }
{
    let end = entries.len();
    match owner_of(entries, end.saturating_sub(1), list) {
        Some(k) => Some(k),
        None => owner_of(entries, recent.exchange(list, end), list),
    }
}

/// What is kept of lists that aren't too long.
#[derive(Clone, Copy, PartialEq, Eq)]
pub(crate) enum Keeping {
    /// The lists themselves.
    Lists,
    /// That they are not too long.
    Counts,
}

fn are_held(entries: &[Kept]) -> bool
    ensures { OnTrue result ((k : ℕ) → k < length entries.now
        → IsHeld (slice_index_or entries.now k (Count 0))) }
{
    for entry in entries {
        if matches!(entry, Kept::Short) {
            return false;
        }
    }
    true
}

/// The entry of a list that comes behind these.
fn entry_of(
    alloc: Global,
    entries: &[Kept],
    recent: &mut Recent,
    keeping: Keeping,
    list: &[Symbol],
) -> Result<Kept, NoMemory>
    requires { AllReferBack entries.now }
    ensures back { IfOk result (RefersBack (length entries.now)) }
    ensures stored { IfOk result (λ e. IsPointListOf list.now (point_list_of entries.now e)) }
{
    if list.len() > MAX_SYMBOLS as usize {
        return Ok(Kept::Count(list.len() as u64));
    }
    if keeping == Keeping::Counts {
        return Ok(Kept::Short);
    }
    if let Some(k) = found_owner(entries, recent, list) {
        return Ok(Kept::Same(k));
    }
    let copy = Vec::from_slice(alloc, list)?;
    Ok(Kept::Own(Listed::from_vec(copy)))
}

/// The lists of points, one after another.
#[derive(Drop)]
pub(crate) struct PointLists {
    entries: Vec<Kept>,
    recent: Recent,
    keeping: Keeping,
}

impl Model for PointLists {
    ghost use Rattle.std.specs.Prelude.{List};
    ghost use Rattle.may_use_analysis.specs.PointList.{AllReferBack, PointList, point_lists};

    ghost Value = { List PointList };

    ghost view = { λ l. point_lists l.entries.items };

    ghost invariant = { λ l. AllReferBack l.entries.items };
}

impl PointLists {
    /// No list.
    pub(crate) fn new(alloc: Global, keeping: Keeping) -> Result<PointLists, NoMemory>
        ensures { IfOk result (λ lists. lists ≡ []) }
    {
        Ok(PointLists {
            entries: Vec::new(alloc),
            recent: Recent::new(alloc)?,
            keeping,
        })
    }

    /// Whether each list is kept, where it isn't too long.
    pub(crate) fn are_kept(&self) -> bool
        ensures { OnTrue result (AreKept self.now) }
    {
        are_held(self.entries.as_slice())
    }

    pub(crate) fn len(&self) -> usize
        ensures { result ≡ length self.now }
    {
        self.entries.len()
    }

    pub(crate) fn truncate(&mut self, n: usize)
        ensures { self.new ≡ take n self.old }
    {
        self.entries.truncate(n);
    }

    /// Keeps a list, or its length where it is too long, behind the others.
    pub(crate) fn keep(&mut self, alloc: Global, list: &[Symbol]) -> Result<(), NoMemory>
        ensures { OnOk result ((stored : PointList) × IsPointListOf list.now stored
            × (self.new ≡ self.old ++ stored ∷ [])) }
    {
        let entry = entry_of(
            alloc,
            self.entries.as_slice(),
            &mut self.recent,
            self.keeping,
            list,
        )?;
        self.entries.push(entry)?;
        Ok(())
    }

    /// The list at a place, from 0; an empty one where its length alone is kept.
    pub(crate) fn list(&self, i: usize) -> &[Symbol]
        requires { i < length self.now }
        ensures { result.now ≡ list_in (slice_index_or self.now i (Counted 0)) }
    {
        kept_list(self.entries.as_slice(), i)
    }

    /// The length of the list at a place, where that alone is kept.
    pub(crate) fn count(&self, i: usize) -> Option<u64>
        requires { i < length self.now }
        ensures { result ≡ count_in (slice_index_or self.now i (Counted 0)) }
    {
        match &self.entries[i] {
            Kept::Own(_) => None,
            Kept::Same(_) => None,
            Kept::Short => None,
            Kept::Count(n) => Some(*n),
        }
    }
}
