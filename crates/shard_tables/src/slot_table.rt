// The slots of an index.

ghost use Rattle.std.specs.Prelude.{◌≡◌, ◌<◌, ◌≤◌, ◌+◌, ◌-◌, ◌*◌, ◌^◌, ℕ, List, [], ◌∷◌, ◌++◌, length, map, position, slice_index, slice_index_or, IfOk, vec_len};
ghost use Rattle.std.specs.List.{swap_remove};
ghost use Rattle.session_values.specs.declared.value.Value.{Value};
ghost use Rattle.session_values.specs.declared.value.Value.TheVariants.{Nil};
ghost use Rattle.session_values.specs.Values.{value_eq};
ghost use Rattle.shard_tables.specs.Keys.{is_under, AreDifferent};
ghost use Rattle.shard_tables.specs.Slots.{start_by, distance, after, place_in, IsReached, IsIndex, IsIndexBut};

use crate::keyed::Keyed;
use crate::start::start_slot_by;
use session_values::{NoMemory, Value};
use std::alloc::Global;

// Slots of which each is free or holds a place of a list: 0 where it is free, else the place and
// one more. Their number is a power of 2, whose exponent is `bits`. Keys are spread by `factor`.
#[derive(Drop)]
pub(crate) struct SlotTable {
    slots: Vec<u32>,
    factor: u64,
    bits: u32,
    ghost some: { 1 ≤ bits },
    ghost few: { bits ≤ 31 },
    ghost long: { vec_len slots ≡ 2 ^ bits },
}

impl SlotTable {
    // Free slots: the least number that is a power of 2, from 2 on, and at least twice the room.
    pub(crate) fn with_room(alloc: Global, room: u32, factor: u64) -> Result<SlotTable, NoMemory>
        requires { room ≤ 1073741824 }
        ensures empty { IfOk result (λ table.
            IsIndex table.factor table.bits [] table.slots.items) }
        ensures factor { IfOk result (λ table. table.factor ≡ factor) }
        ensures enough { IfOk result (λ table. 2 * room ≤ 2 ^ table.bits) }
        ensures some { IfOk result (λ table. 1 ≤ table.bits) }
        ensures least { IfOk result (λ table. 1 < table.bits → 2 ^ (table.bits - 1) < 2 * room) }
    {
        let mut bits = 1;
        while 1u64 << bits < 2 * u64::from(room) {
            bits += 1;
        }
        let slots = vec![in alloc; 0; 1 << bits]?;
        Ok(SlotTable {
            slots,
            factor,
            bits,
        })
    }

    pub(crate) fn factor(&self) -> u64
        ensures { result ≡ self.now.factor }
    {
        self.factor
    }

    pub(crate) fn slots(&self) -> u32
        ensures { result ≡ 2 ^ self.now.bits }
    {
        self.slots.len() as u32
    }

    // The slot at which the search for this key begins.
    pub(crate) fn start(&self, key: Value) -> usize
        ensures slot { result ≡ start_by self.now.factor key self.now.bits }
        ensures within { result < 2 ^ self.now.bits }
    {
        start_slot_by(self.factor, key, self.bits) as usize
    }

    // The slot of this key, or the free slot at which it may come in.
    pub(crate) fn seek<T: Keyed>(&self, items: &[T], key: Value) -> usize
        requires index { IsIndex self.now.factor self.now.bits (map T.key_of items.now)
            self.now.slots.items }
        requires different { AreDifferent T.key_of items.now }
        requires room { length items.now < 2 ^ self.now.bits }
        ensures within { result < 2 ^ self.now.bits }
        ensures place { place_in (slice_index self.now.slots.items result)
            ≡ position (is_under T.key_of key) items.now }
        ensures path { IsReached (2 ^ self.now.bits) (start_by self.now.factor key self.now.bits)
            self.now.slots.items result }
    {
        let mut slot = self.start(key);
        loop {
            let held = self.slots[slot];
            if held == 0 || is_same(key, items[held as usize - 1].key()) {
                return slot;
            }
            slot = self.after(slot);
        }
    }

    // The place that a slot holds, or None where it is free.
    pub(crate) fn place(&self, slot: usize) -> Option<usize>
        requires { slot < 2 ^ self.now.bits }
        ensures { result ≡ place_in (slice_index self.now.slots.items slot) }
    {
        match self.slots[slot] {
            0 => None,
            held => Some(held as usize - 1),
        }
    }

    // Takes a free slot, to which the search for a key comes, for the place past the last key's.
    pub(crate) fn enter(&mut self, slot: usize, place: usize)
        requires free { place_in (slice_index self.old.slots.items slot) ≡ None }
        requires within { slot < 2 ^ self.old.bits }
        requires fits { place < 4294967295 }
        ensures bits { self.new.bits ≡ self.old.bits }
        ensures factor { self.new.factor ≡ self.old.factor }
        ensures index { (keys : List Value) (key : Value) → length keys ≡ place
            → IsIndex self.old.factor self.old.bits keys self.old.slots.items
            → IsReached (2 ^ self.old.bits) (start_by self.old.factor key self.old.bits)
            self.old.slots.items slot
            → IsIndex self.old.factor self.old.bits (keys ++ key ∷ []) self.new.slots.items }
    {
        self.slots[slot] = place as u32 + 1;
    }

    // Lets the last key's slot hold the place that is given up, and the slot of this place the
    // last one.
    pub(crate) fn rename(&mut self, slot: usize, last: usize)
        requires slot_in { slot < 2 ^ self.old.bits }
        requires last_in { last < 2 ^ self.old.bits }
        ensures bits { self.new.bits ≡ self.old.bits }
        ensures factor { self.new.factor ≡ self.old.factor }
        ensures index { (keys : List Value) (place : ℕ) → place < length keys
            → IsIndex self.old.factor self.old.bits keys self.old.slots.items
            → slice_index self.old.slots.items slot ≡ place + 1
            → slice_index self.old.slots.items last ≡ length keys
            → IsIndexBut self.old.factor self.old.bits (swap_remove keys place Nil)
            self.new.slots.items slot }
    {
        self.slots.swap(slot, last);
    }

    // Frees the slot of an element that goes, so that no search stops at a free slot before its
    // key: what the slot holds changes places with later slots until that is so. The list is as it
    // was before the last element moved to this place.
    pub(crate) fn free<T: Keyed>(&mut self, items: &[T], place: usize, slot: usize)
        requires place { place < length items.now }
        requires index { IsIndexBut self.old.factor self.old.bits
            (swap_remove (map T.key_of items.now) place Nil) self.old.slots.items slot }
        requires room { length items.now < 2 ^ self.old.bits }
        ensures bits { self.new.bits ≡ self.old.bits }
        ensures factor { self.new.factor ≡ self.old.factor }
        ensures index { IsIndex self.old.factor self.old.bits
            (swap_remove (map T.key_of items.now) place Nil) self.new.slots.items }
    {
        let mut hole = slot;
        let mut next = self.after(slot);
        loop {
            let held = self.slots[next];
            if held == 0 {
                break;
            }
            let start = self.start(key_after(items, place, held as usize - 1));
            if self.distance(hole, next) <= self.distance(start, next) {
                self.slots.swap(hole, next);
                hole = next;
            }
            next = self.after(next);
        }
        self.slots[hole] = 0;
    }

    fn after(&self, slot: usize) -> usize
        requires { slot < 2 ^ self.now.bits }
        ensures next { result ≡ after (2 ^ self.now.bits) slot }
        ensures within { result < 2 ^ self.now.bits }
    {
        (slot + 1) & (self.slots.len() - 1)
    }

    // How far one slot is past another.
    pub(crate) fn distance(&self, from: usize, to: usize) -> usize
        requires from_in { from < 2 ^ self.now.bits }
        requires to_in { to < 2 ^ self.now.bits }
        ensures { result ≡ distance (2 ^ self.now.bits) from to }
    {
        (to + self.slots.len() - from) & (self.slots.len() - 1)
    }
}

fn is_same(key: Value, other: Value) -> bool
    ensures { result ≡ value_eq key other }
{
    key == other
}

// The key of an element once the last one has moved to the place that is given up.
fn key_after<T: Keyed>(items: &[T], gone: usize, place: usize) -> Value
    requires gone { gone < length items.now }
    requires place { place + 1 < length items.now }
    ensures { result ≡ slice_index_or (swap_remove (map T.key_of items.now) gone Nil) place Nil }
{
    if place == gone {
        items[items.len() - 1].key()
    } else {
        items[place].key()
    }
}
