// The entries of one table.

ghost use Rattle.std.specs.Prelude.{◌≡◌, ◌<◌, ◌++◌, ◌∷◌, [], OnOk, OnErr, Some, false, length, slice_get};
ghost use Rattle.session_values.specs.Opening.{has_key};

use crate::seeded::Seeded;
use crate::{NoMemory, Value};
use indexmap::IndexMap;
use std::alloc::Global;
use std::marker::Model;

/// The entries of one table in the order in which they came, each found by its key.
#[derive(Drop)]
pub struct Entries {
    pairs: IndexMap<Value, Value, Seeded>,
}

impl Model for Entries {
    ghost use Rattle.std.specs.Prelude.{List};
    ghost use Rattle.session_values.specs.Opening.{Pair};

    ghost Value = { List Pair };

    ghost view = { λ e. e.pairs.entries };
}

impl Entries {
    /// No entries yet. Keys are looked up by hashes that begin from the seed.
    pub fn with_seed(alloc: Global, seed: u64) -> Entries
        ensures { result ≡ [] }
    {
        Entries {
            pairs: IndexMap::with_hasher(alloc, Seeded::new(seed)),
        }
    }

    /// Appends an entry whose key isn't there.
    pub fn push(&mut self, key: Value, value: Value) -> Result<(), NoMemory>
        requires { has_key self.old key ≡ false }
        ensures pushed { OnOk result (self.new ≡ self.old ++ (key, value) ∷ []) }
        ensures err { OnErr result (self.new ≡ self.old) }
    {
        self.pairs.insert(key, value)?;
        Ok(())
    }

    /// Whether there is an entry with this key.
    pub fn has(&self, key: Value) -> bool
        ensures { result ≡ has_key self.now key }
    {
        self.pairs.contains_key(&key)
    }

    /// How many entries there are.
    pub fn len(&self) -> usize
        ensures { result ≡ length self.now }
    {
        self.pairs.len()
    }

    /// The entry at a place.
    pub fn entry(&self, i: usize) -> (Value, Value)
        requires { i < length self.now }
        ensures { slice_get self.now i ≡ Some result }
    {
        match self.pairs.get_index(i) {
            Some((key, value)) => (*key, *value),
            None => (Value::Nil, Value::Nil),
        }
    }
}
