// The entries with which tables open.

ghost use Rattle.std.specs.Prelude.{◌≡◌, ◌<◌, [], IfOk, OnOk, OnErr, Some, false, length, replicate, slice_get};
ghost use Rattle.session_values.specs.OpeningLimits.{max_opening};
ghost use Rattle.session_values.specs.Opening.{AreKept, count_all, entries_of, has_key, with_entry};

use crate::entries::Entries;
use crate::{NoMemory, Value};
use std::alloc::Global;
use std::marker::Model;

/// The entries with which tables open, by the tables' numbers: in each table each key once, in the
/// order in which they came. A member of a set is an entry whose value is nil.
#[derive(Drop)]
pub struct Opening {
    tables: Vec<Entries>,
    // The entries of all tables.
    count: u32,
}

impl Model for Opening {
    ghost use Rattle.std.specs.Prelude.{◌≡◌, List};
    ghost use Rattle.session_values.specs.Opening.{Pair, AreKept, count_all};

    ghost Value = { List (List Pair) };

    ghost view = { λ o. o.tables.items };

    ghost invariant = { λ o. AreKept o.tables.items × (o.count ≡ count_all o.tables.items) };
}

impl Opening {
    /// No entries yet, for so many tables.
    pub fn new(alloc: Global, tables: u32) -> Result<Opening, NoMemory>
        ensures { IfOk result (λ opening. opening ≡ replicate tables []) }
    {
        Opening::with_seed(alloc, tables, 0)
    }

    /// No entries yet, for so many tables. Keys are looked up by hashes that begin from the seed:
    /// where that comes from all of an input, nobody can choose keys that collide without changing
    /// it.
    pub fn with_seed(alloc: Global, tables: u32, seed: u64) -> Result<Opening, NoMemory>
        ensures { IfOk result (λ opening. opening ≡ replicate tables []) }
    {
        let mut empty = Vec::new(alloc);
        for _table in 0..tables {
            empty.push(Entries::with_seed(alloc, seed))?;
        }
        Ok(Opening {
            tables: empty,
            count: 0,
        })
    }

    /// Appends an entry of a table, whose key isn't there.
    pub fn push(&mut self, table: u32, key: Value, value: Value) -> Result<(), NoMemory>
        requires table { table < length self.old }
        requires key { has_key (entries_of self.old table) key ≡ false }
        requires few { count_all self.old < max_opening }
        ensures pushed { OnOk result (self.new ≡ with_entry self.old table (key, value)) }
        ensures err { OnErr result (self.new ≡ self.old) }
    {
        key.bounds();
        value.bounds();
        self.tables[table as usize].push(key, value)?;
        self.count += 1;
        Ok(())
    }

    /// Whether a table has an entry with this key.
    pub fn has(&self, table: u32, key: Value) -> bool
        requires { table < length self.now }
        ensures { result ≡ has_key (entries_of self.now table) key }
    {
        self.tables[table as usize].has(key)
    }

    /// How many entries a table has.
    pub fn len(&self, table: u32) -> u32
        requires { table < length self.now }
        ensures { result ≡ length (entries_of self.now table) }
    {
        self.tables[table as usize].len() as u32
    }

    /// An entry of a table: a key and its value.
    pub fn entry(&self, table: u32, i: u32) -> (Value, Value)
        requires table { table < length self.now }
        requires entry { i < length (entries_of self.now table) }
        ensures { slice_get (entries_of self.now table) i ≡ Some result }
    {
        self.tables[table as usize].entry(i as usize)
    }

    /// How many entries all tables have.
    pub fn count(&self) -> u32
        ensures { result ≡ count_all self.now }
    {
        self.count
    }

    /// How many tables there are.
    pub fn tables(&self) -> u32
        ensures tables { result ≡ length self.now }
        ensures kept { AreKept self.now }
    {
        self.tables.len() as u32
    }
}
