// The index of a list, as contracts see it.

ghost use Rattle.std.specs.Prelude.{◌≡◌, ◌<◌, ◌≤◌, ◌+◌, [], ◌∷◌, ◌++◌, length, map, position, IfOk, IfSome, IfNone};
ghost use Rattle.std.specs.List.{swap_remove};
ghost use Rattle.session_values.specs.declared.value.Value.TheVariants.{Nil};
ghost use Rattle.shard_tables.specs.Keys.{is_under, AreDifferent};
ghost use Rattle.shard_tables.specs.Slots.{factor_of, slot_count, IsIndexOf, IsSearch, IsSizedFor};

use crate::keyed::Keyed;
use crate::slot_table::SlotTable;
use crate::start::seed_factor;
use session_values::{NoMemory, Value};
use std::alloc::Global;
use std::marker::Model;

/// The place of each element of a list, found by its key. It holds no key: each call is given the
/// list, with which the index goes from change to change. After `with_room` it takes no memory.
#[derive(Drop)]
pub struct PlaceIndex {
    table: SlotTable,
}

impl Model for PlaceIndex {
    ghost use Rattle.shard_tables.specs.Slots.{IndexView};

    ghost Value = { IndexView };

    ghost view = { λ i. record {
      factor = i.table.factor;
      bits = i.table.bits;
      slots = i.table.slots.items;
    } };
}

impl PlaceIndex {
    /// The index of an empty list that grows to at most so many elements: its number of slots is
    /// the least power of 2, from 2 on, that is at least twice as many.
    pub fn with_room(alloc: Global, room: u32) -> Result<PlaceIndex, NoMemory>
        requires { room ≤ 1073741824 }
        ensures empty { IfOk result (λ index. IsIndexOf [] index) }
        ensures sized { IfOk result (λ index. IsSizedFor room index.bits) }
        ensures factor { IfOk result (λ index. index.factor ≡ factor_of 0) }
    {
        PlaceIndex::with_seed(alloc, room, 0)
    }

    /// The same where searches begin as this seed has it, for keys that others choose; seed 0 is as
    /// none.
    pub fn with_seed(alloc: Global, room: u32, seed: u64) -> Result<PlaceIndex, NoMemory>
        requires { room ≤ 1073741824 }
        ensures empty { IfOk result (λ index. IsIndexOf [] index) }
        ensures sized { IfOk result (λ index. IsSizedFor room index.bits) }
        ensures factor { IfOk result (λ index. index.factor ≡ factor_of seed) }
    {
        let table = SlotTable::with_room(alloc, room, seed_factor(seed))?;
        Ok(PlaceIndex { table })
    }

    /// The index of a list with different keys that grows to at most so many elements; searches
    /// begin as in this one.
    pub fn grown<T: Keyed>(
        &self,
        alloc: Global,
        items: &[T],
        room: u32,
    ) -> Result<PlaceIndex, NoMemory>
        requires different { AreDifferent T.key_of items.now }
        requires within { length items.now ≤ room }
        requires few { room ≤ 1073741824 }
        ensures index { IfOk result (λ index. IsIndexOf (map T.key_of items.now) index) }
        ensures sized { IfOk result (λ index. IsSizedFor room index.bits) }
        ensures factor { IfOk result (λ index. index.factor ≡ self.now.factor) }
    {
        let table = SlotTable::with_room(alloc, room, self.table.factor())?;
        let mut index = PlaceIndex { table };
        index.enter_all(items);
        Ok(index)
    }

    // Takes in the keys of a list, each as that of the element past those before it.
    fn enter_all<T: Keyed>(&mut self, items: &[T])
        requires empty { IsIndexOf [] self.old }
        requires different { AreDifferent T.key_of items.now }
        requires free { length items.now ≤ slot_count self.old }
        ensures index { IsIndexOf (map T.key_of items.now) self.new }
        ensures bits { self.new.bits ≡ self.old.bits }
        ensures factor { self.new.factor ≡ self.old.factor }
    {
        for done in 0..items.len() {
            self.enter(&items[..done], items[done].key());
        }
    }

    /// How many slots there are.
    pub fn slots(&self) -> u32
        ensures { result ≡ slot_count self.now }
    {
        self.table.slots()
    }

    /// The place of the element with this key.
    pub fn place_of<T: Keyed>(&self, items: &[T], key: Value) -> Option<usize>
        requires index { IsIndexOf (map T.key_of items.now) self.now }
        requires different { AreDifferent T.key_of items.now }
        requires free { length items.now < slot_count self.now }
        ensures { result ≡ position (is_under T.key_of key) items.now }
    {
        self.table.place(self.table.seek(items, key))
    }

    /// The place of the element with this key; where there is none, the index takes the key in as
    /// that of the element that is pushed next.
    pub fn enter<T: Keyed>(&mut self, items: &[T], key: Value) -> Option<usize>
        requires index { IsIndexOf (map T.key_of items.now) self.old }
        requires different { AreDifferent T.key_of items.now }
        requires free { length items.now < slot_count self.old }
        ensures place { result ≡ position (is_under T.key_of key) items.now }
        ensures found { IfSome result (λ _. self.new ≡ self.old) }
        ensures entered { IfNone result (IsIndexOf (map T.key_of items.now ++ key ∷ []) self.new) }
        ensures bits { self.new.bits ≡ self.old.bits }
        ensures factor { self.new.factor ≡ self.old.factor }
        ensures slots { slot_count self.new ≡ slot_count self.old }
    {
        let slot = self.table.seek(items, key);
        let place = self.table.place(slot);
        if place.is_none() {
            self.table.enter(slot, items.len());
        }
        place
    }

    /// The place of the element with this key, which the index lets go: it is then that of the
    /// list once the last element has moved to this place.
    pub fn remove<T: Keyed>(&mut self, items: &[T], key: Value) -> Option<usize>
        requires index { IsIndexOf (map T.key_of items.now) self.old }
        requires different { AreDifferent T.key_of items.now }
        requires free { length items.now < slot_count self.old }
        ensures place { result ≡ position (is_under T.key_of key) items.now }
        ensures absent { IfNone result (self.new ≡ self.old) }
        ensures index { IfSome result (λ place.
            IsIndexOf (swap_remove (map T.key_of items.now) place Nil) self.new) }
        ensures bits { self.new.bits ≡ self.old.bits }
        ensures factor { self.new.factor ≡ self.old.factor }
        ensures slots { slot_count self.new ≡ slot_count self.old }
    {
        let slot = self.table.seek(items, key);
        let place = self.table.place(slot)?;
        let last = self.table.seek(items, items[items.len() - 1].key());
        self.table.rename(slot, last);
        self.table.free(items, place, slot);
        Some(place)
    }

    /// How many slots a search for this key looks at: those from its start slot to the key's own,
    /// or to the first free one.
    pub fn probes<T: Keyed>(&self, items: &[T], key: Value) -> u32
        requires index { IsIndexOf (map T.key_of items.now) self.now }
        requires different { AreDifferent T.key_of items.now }
        requires free { length items.now < slot_count self.now }
        ensures search { IsSearch self.now key (position (is_under T.key_of key) items.now) result }
        ensures some { 0 < result }
        ensures few { result ≤ length items.now + 1 }
    {
        let start = self.table.start(key);
        self.table.distance(start, self.table.seek(items, key)) as u32 + 1
    }
}
