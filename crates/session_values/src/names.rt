// The list of names.

ghost use Rattle.std.specs.Prelude.{◌≡◌, ◌<◌, [], IfOk, IfSome, IfNone, OnErr, length, take, Some, slice_get, Contains};
ghost use Rattle.std.specs.List.{position};
ghost use Rattle.std.specs.Str.{bytes_eq};
ghost use Rattle.session_values.specs.Names.{with_text, place_of, AreDistinct};

use crate::NoMemory;
use crate::seeded::Seeded;
use indexmap::IndexSet;
use std::alloc::Global;
use std::marker::Model;

/// A list of different texts. A text's place in it stands for the text.
#[derive(Drop)]
pub struct Names {
    // In order of their places.
    texts: IndexSet<String, Seeded>,
}

impl Model for Names {
    ghost use Rattle.std.specs.Prelude.{List, ℕ, length, map, string_bytes, ◌<◌, ◌^◌};
    ghost use Rattle.session_values.specs.Names.{AreDistinct};

    ghost Value = { List (List ℕ) };

    ghost view = { λ n. map string_bytes n.texts.keys };

    ghost invariant = { λ n. AreDistinct (map string_bytes n.texts.keys)
        × (length (map string_bytes n.texts.keys) < 2 ^ 32) };
}

impl Names {
    /// No names yet.
    pub fn new(alloc: Global) -> Result<Names, NoMemory>
        ensures { IfOk result (λ names. names ≡ []) }
    {
        Ok(Names::with_seed(alloc, 0))
    }

    /// No names yet. Texts are looked up by hashes that begin from the seed: where that comes from
    /// all of an input, nobody can choose names that collide without changing it.
    pub fn with_seed(alloc: Global, seed: u64) -> Names
        ensures { result ≡ [] }
    {
        let texts = IndexSet::with_hasher(alloc, Seeded::new(seed));
        Names { texts }
    }

    /// The place of the text, which is appended where it is new.
    pub fn place(&mut self, text: &str) -> Result<u32, NoMemory>
        requires { length self.old < 4294967295 }
        ensures list { IfOk result (λ _. self.new ≡ with_text self.old text.now) }
        ensures at { IfOk result (λ place. slice_get self.new place ≡ Some text.now) }
        ensures place { IfOk result (λ place. place ≡ place_of self.new text.now) }
        ensures err { OnErr result (self.new ≡ self.old) }
    {
        match self.texts.get_index_of(text) {
            Some(place) => Ok(place as u32),
            None => {
                let alloc = *self.texts.allocator();
                let owned = String::from_str(alloc, text)?;
                let (place, _) = self.texts.insert_full(owned)?;
                Ok(place as u32)
            }
        }
    }

    /// The place of the text, if it is there.
    pub fn find(&self, text: &str) -> Option<u32>
        ensures found { IfSome result (λ place. slice_get self.now place ≡ Some text.now) }
        ensures none { IfNone result (Contains self.now text.now → ⊥) }
        ensures index { result ≡ position (bytes_eq text.now) self.now }
    {
        match self.texts.get_index_of(text) {
            Some(place) => Some(place as u32),
            None => None,
        }
    }

    /// The text at a place.
    pub fn text(&self, place: u32) -> &str
        requires { place < length self.now }
        ensures { slice_get self.now place ≡ Some result.now }
    {
        self.texts.as_slice()[place as usize].as_str()
    }

    /// Keeps so many of the first names, and takes the others back.
    pub fn truncate(&mut self, len: u32)
        ensures { self.new ≡ take len self.old }
    {
        self.texts.truncate(len as usize);
    }

    /// How many names there are.
    pub fn len(&self) -> u32
        ensures len { result ≡ length self.now }
        ensures distinct { AreDistinct self.now }
    {
        self.texts.len() as u32
    }
}
