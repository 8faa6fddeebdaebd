// Renewing the names of a session: those that nobody holds any more go.

ghost use Rattle.std.specs.Prelude.{◌≡◌, ◌<◌, ◌≤◌, ℕ, IfOk, [], false, length, map, replicate};
ghost use Rattle.std.specs.List.{AllByRecursion};
ghost use Rattle.session_values.specs.Opening.{AreApart, IsPair, container_of, tables_of};
ghost use Rattle.session_values.specs.Tables.{kind_of};
ghost use Rattle.shard_tables.specs.Either.{entries_in, index_in};
ghost use Rattle.shard_tables.specs.Slots.{factor_of};
ghost use Rattle.shard_tables.specs.Whole.{container_in};
ghost use Rattle.live_session.specs.Held.{factors_in, held, lists_in};
ghost use Rattle.live_session.specs.Moving.{flag, kept, marked, marked_by, marked_by_all};
ghost use Rattle.live_session.specs.Moving.{marked_first, moved as moved_by, moved_entries};
ghost use Rattle.live_session.specs.Moving.{place_in, set_before};
ghost use Rattle.live_session.specs.Renewal.{IsRenewal};

use crate::growing::MOST_KEYS;
use crate::history::History;
use crate::opening::FIRST_ROOM;
use crate::session::LiveSession;
use crate::tables::LiveTables;
use session_values::{Names, NoMemory, TableKind, Value};
use shard_tables::Part;
use std::alloc::Global;
use thiserror::Error;

/// Why the names of a session aren't renewed. Nothing changes.
#[derive(Clone, Copy, Debug, PartialEq, Eq, Error)]
pub enum RenewError {
    /// A ticket is open.
    #[error("a ticket is open")]
    Open,
    /// All numbers of generations below 2^64 - 1 are used up.
    #[error("no generation left")]
    NoNumber,
    /// Memory ran out.
    #[error("no memory")]
    NoMemory,
}

/// The names that are kept, and for each name that there was the number that it has among them if
/// it is kept.
#[derive(Drop)]
pub(crate) struct Kept {
    pub(crate) names: Names,
    pub(crate) places: Vec<u32>,
}

/// What a renewal puts in place of what there was.
#[derive(Drop)]
pub(crate) struct Replacement {
    names: Names,
    tables: LiveTables,
    history: History,
}

// ---- which names are held

// Sets the flag of the name that a value is.
fn mark(flags: &mut Vec<bool>, value: Value)
    ensures { flags.new.items ≡ marked flags.old.items value }
{
    if let Value::Sym(place) = value {
        let place = place as usize;
        if place < flags.len() {
            flags[place] = true;
        }
    }
}

// Sets those of all names that a table holds.
fn mark_part(flags: &mut Vec<bool>, part: &Part)
    ensures marked { flags.new.items ≡ marked_by flags.old.items (entries_in part.now) }
    ensures apart { AreApart (entries_in part.now) }
{
    for i in 0..part.len() {
        let (key, value) = part.entry(i);
        mark(flags, key);
        mark(flags, value);
    }
}

// Sets those of all names that tables hold.
fn mark_parts(flags: &mut Vec<bool>, parts: &[Part])
    ensures marked { flags.new.items ≡ marked_by_all flags.old.items (lists_in parts.now) }
    ensures apart { AllByRecursion AreApart (lists_in parts.now) }
{
    for part in parts {
        mark_part(flags, part);
    }
}

// Which of so many names are held: the first ones, which are the handlers', and those of tables.
fn held_names(alloc: Global, count: u32, first: u32, parts: &[Part]) -> Result<Vec<bool>, NoMemory>
    ensures flags { IfOk result (λ fs. fs.items
        ≡ marked_by_all (marked_first (replicate count false) first) (lists_in parts.now)) }
    ensures apart { IfOk result (λ _. AllByRecursion AreApart (lists_in parts.now)) }
{
    let mut flags = vec![in alloc; false; count as usize]?;
    for place in 0..first {
        mark(&mut flags, Value::Sym(place));
    }
    mark_parts(&mut flags, parts);
    Ok(flags)
}

// ---- the names that are kept

// The names whose flags are set, in their order. Of the others no text is looked at.
fn kept_names(alloc: Global, names: &Names, flags: &[bool], seed: u64) -> Result<Kept, NoMemory>
    requires { length flags.now ≡ length names.now }
    ensures names { IfOk result (λ k. k.names ≡ kept flags.now names.now) }
    ensures places { IfOk result (λ k. (i : ℕ) → i < length names.now
        → place_in k.places.items i ≡ set_before i flags.now) }
{
    let mut new = Names::with_seed(alloc, seed);
    let mut places = Vec::with_capacity(alloc, names.len() as usize)?;
    for place in 0..names.len() {
        places.push_reserved(new.len());
        if flags[place as usize] {
            new.place(names.text(place))?;
        }
    }
    Ok(Kept { names: new, places })
}

// ---- the tables over them

// A value, whose name has the place that the list gives.
fn moved(places: &[u32], value: Value) -> Value
    ensures { result ≡ moved_by (place_in places.now) value }
{
    match value {
        Value::Nil => Value::Nil,
        Value::Num(number) => Value::Num(number),
        Value::Sym(place) => match places.get(place as usize) {
            Some(new) => Value::Sym(*new),
            None => Value::Sym(0),
        },
    }
}

// The kind of a table.
fn kind(part: &Part) -> TableKind
    ensures { result ≡ kind_of (container_in part.now) }
{
    match part {
        Part::Bindings(_) => TableKind::Map,
        Part::Members(_) => TableKind::Set,
    }
}

// A table with the same entries, whose names have the places that the list gives, with room for
// some more. The last entry enters first.
fn moved_part(alloc: Global, part: &Part, places: &[u32], seed: u64) -> Result<Part, NoMemory>
    ensures entered { IfOk result (λ p. container_in p ≡ container_of
        (kind_of (container_in part.now)) (moved_entries (place_in places.now)
        (entries_in part.now))) }
    ensures pairs { IfOk result (λ _. AllByRecursion IsPair
        (moved_entries (place_in places.now) (entries_in part.now))) }
    ensures factor { IfOk result (λ p. (index_in p).factor ≡ factor_of seed) }
{
    let len = part.len();
    let room = len.saturating_add(FIRST_ROOM).min(MOST_KEYS);
    let mut new = Part::with_seed(alloc, kind(part), room, seed)?;
    for done in 0..len {
        let (key, value) = part.entry(len - 1 - done);
        let key = moved(places, key);
        let value = moved(places, value);
        key.bounds();
        value.bounds();
        new.enter(key, value)?;
    }
    Ok(new)
}

// All tables.
fn moved_tables(
    alloc: Global,
    tables: &LiveTables,
    places: &[u32],
    seed: u64,
) -> Result<LiveTables, NoMemory>
    ensures held { IfOk result (λ ts. held ts.parts.items ≡ tables_of
        (map kind_of (held tables.now.parts.items))
        (map (moved_entries (place_in places.now)) (lists_in tables.now.parts.items))) }
    ensures pairs { IfOk result (λ _. AllByRecursion (AllByRecursion IsPair)
        (map (moved_entries (place_in places.now)) (lists_in tables.now.parts.items))) }
    ensures factors { IfOk result (λ ts. AllByRecursion (λ n. n ≡ factor_of seed)
        (factors_in ts.parts.items)) }
{
    let mut parts = Vec::with_capacity(alloc, tables.parts.len())?;
    for part in &tables.parts {
        let part = moved_part(alloc, part, places, seed)?;
        parts.push_reserved(part);
    }
    Ok(LiveTables { parts })
}

// ---- both

// What a renewal puts in place of these names, of which the first ones are the handlers', and these
// tables. It takes one pass over the numbers of the names, not over their texts.
fn renewed(
    alloc: Global,
    names: &Names,
    first: u32,
    tables: &LiveTables,
    seed: u64,
) -> Result<Replacement, NoMemory>
    ensures { IfOk result (IsRenewal names.now first seed tables.now.parts.items) }
{
    let flags = held_names(alloc, names.len(), first, tables.parts.as_slice())?;
    let kept = kept_names(alloc, names, flags.as_slice(), seed)?;
    let tables_now = moved_tables(alloc, tables, kept.places.as_slice(), seed)?;
    let history = History::renewed(&kept, tables);
    Ok(Replacement {
        names: kept.names,
        tables: tables_now,
        history,
    })
}

impl LiveSession {
    ghost use Rattle.live_session.specs.Renewing.{RenewAnswered};

    /// Renews the names: those of the handlers and those that tables hold stay, all others go, and
    /// the numbers of the names of tables change. Tables, and what requests are answered, stay as
    /// they are, by text. It takes time and room for what is kept, and one pass over the numbers of
    /// the names that there were.
    pub fn renew(&mut self) -> Result<(), RenewError>
        ensures { RenewAnswered self.old self.new result }
    {
        if self.tickets.open() > 0 {
            return Err(RenewError::Open);
        }
        if self.generation == u64::MAX {
            return Err(RenewError::NoNumber);
        }
        match renewed(
            self.alloc,
            &self.names,
            self.handler_names,
            &self.tables,
            self.seed,
        ) {
            Ok(new) => {
                self.names = new.names;
                self.tables = new.tables;
                self.tickets.forget();
                self.history = new.history;
                self.generation += 1;
                Ok(())
            }
            Err(_) => Err(RenewError::NoMemory),
        }
    }

    /// How often the names were renewed. A name's number is good as long as this stays the same.
    pub fn generation(&self) -> u64
        ensures { result ≡ self.now.generation }
    {
        self.generation
    }
}
