// One shard of a set.

ghost use Rattle.std.specs.Prelude.{◌≡◌, ◌<◌, ◌≤◌, ◌+◌, IfOk, false, pos, not, length, position, slice_get, true};
ghost use Rattle.std.specs.FinSet as set;
ghost use Rattle.session_values.specs.declared.kind.TableKind.TheVariants.{Set};
ghost use Rattle.session_values.specs.Kinds.{home};
ghost use Rattle.session_values.specs.Tables.{Members, reply_on, size_of, empty_of, bit};
ghost use Rattle.shard_tables.specs.Keys.{AreDifferent, is_under};
ghost use Rattle.shard_tables.specs.Slots.{factor_of, IsSearch, IsSizedFor, slot_count};
ghost use Rattle.shard_tables.specs.Shards.{members, set_shard, HasRoomFor, shard_after, spare_of, grown_to};

use crate::PlaceIndex;
use session_values::{Kind, NoMemory, Op, Value};
use std::alloc::Global;
use std::marker::Model;

/// The members of a part of a set, in no order, each found by an index of places.
/// After `with_room` it takes no memory.
#[derive(Drop)]
pub struct SetShard {
    keys: Vec<Value>,
    index: PlaceIndex,
    room: u32,
}

impl Model for SetShard {
    ghost use Rattle.std.specs.Prelude.{vec_capacity};
    ghost use Rattle.shard_tables.specs.Shards.{SetView, FitsRoom, set_code};

    ghost Value = { SetView };

    ghost coded = { set_code };

    ghost view = { λ s. record { entries = s.keys.items; room = s.room; index = s.index } };

    ghost invariant = { λ s. FitsRoom (λ k. k) s.keys.items (vec_capacity s.keys) s.room s.index };
}

impl SetShard {
    /// An empty shard with room for so many keys.
    pub fn with_room(alloc: Global, room: u32) -> Result<SetShard, NoMemory>
        requires { room ≤ 1073741824 }
        ensures empty { IfOk result (λ shard. set_shard shard ≡ record {
          container = empty_of Set;
          room = room;
        }) }
        ensures slots { IfOk result (λ shard. IsSizedFor room shard.index.bits) }
        ensures factor { IfOk result (λ shard. shard.index.factor ≡ factor_of 0) }
    {
        SetShard::with_seed(alloc, room, 0)
    }

    /// The same where searches begin as this seed has it, for keys that others choose; seed 0 is as
    /// none.
    pub fn with_seed(alloc: Global, room: u32, seed: u64) -> Result<SetShard, NoMemory>
        requires { room ≤ 1073741824 }
        ensures empty { IfOk result (λ shard. set_shard shard ≡ record {
          container = empty_of Set;
          room = room;
        }) }
        ensures slots { IfOk result (λ shard. IsSizedFor room shard.index.bits) }
        ensures factor { IfOk result (λ shard. shard.index.factor ≡ factor_of seed) }
    {
        let keys = Vec::with_capacity(alloc, room as usize)?;
        let index = PlaceIndex::with_seed(alloc, room, seed)?;
        Ok(SetShard { keys, index, room })
    }

    /// The same keys in the same places, with room for so many keys, or for those that there are
    /// where they are more; searches begin as before.
    pub fn grown(&self, alloc: Global, room: u32) -> Result<SetShard, NoMemory>
        requires { room ≤ 1073741824 }
        ensures entries { IfOk result (λ shard. shard.entries ≡ self.now.entries) }
        ensures grown { IfOk result (λ shard. set_shard shard
            ≡ grown_to room (set_shard self.now)) }
        ensures slots { IfOk result (λ shard. IsSizedFor shard.room shard.index.bits) }
        ensures factor { IfOk result (λ shard. shard.index.factor ≡ self.now.index.factor) }
    {
        let room = room.max(self.len());
        let mut keys = Vec::with_capacity(alloc, room as usize)?;
        keys.extend_from_slice(&self.keys)?;
        let index = self.index.grown(alloc, &self.keys, room)?;
        Ok(SetShard { keys, index, room })
    }

    /// Does one operation on the part.
    pub fn apply(&mut self, op: Op) -> Value
        requires kind { home op.kind ≡ Set }
        requires room { HasRoomFor op (set_shard self.old) }
        ensures reply { result ≡ reply_on (set_shard self.old).container op }
        ensures after { set_shard self.new ≡ shard_after (set_shard self.old) op }
        ensures factor { self.new.index.factor ≡ self.old.index.factor }
    {
        match op.kind {
            Kind::Has => bit_of(self.has(op.key())),
            Kind::Add => bit_of(self.add(op.key())),
            Kind::Mark => {
                self.add(op.key());
                Value::Nil
            }
            Kind::Drop => {
                self.remove(op.key());
                Value::Nil
            }
            Kind::Count => Value::Num(i64::from(self.len())),
            Kind::Get | Kind::Put | Kind::Swap => Value::Nil,
            Kind::Del | Kind::Size | Kind::Bump => Value::Nil,
        }
    }

    /// For how many more keys there is room.
    pub fn spare(&self) -> u32
        ensures spare { result ≡ spare_of (set_shard self.now) }
        ensures within { size_of (set_shard self.now).container ≤ self.now.room }
        ensures limit { self.now.room ≤ 1073741824 }
    {
        self.room - self.len()
    }

    /// How many members there are.
    pub fn len(&self) -> u32
        ensures len { result ≡ length self.now.entries }
        ensures size { result ≡ size_of (set_shard self.now).container }
        ensures different { AreDifferent (λ k. k) self.now.entries }
    {
        self.keys.len() as u32
    }

    /// A member.
    pub fn entry(&self, i: u32) -> Value
        requires { i < length self.now.entries }
        ensures entry { slice_get self.now.entries i ≡ Some result }
        ensures member { set.contains (members self.now) result ≡ true }
    {
        self.keys[i as usize]
    }

    /// How many slots its index has: the least power of 2, from 2 on, that is at least twice the
    /// room.
    pub fn slots(&self) -> u32
        ensures slots { result ≡ slot_count self.now.index }
        ensures sized { IsSizedFor self.now.room self.now.index.bits }
    {
        self.index.slots()
    }

    /// How many slots a search for this key looks at: the measure of an operation on it, for tests
    /// and benchmarks.
    pub fn probes(&self, key: Value) -> u32
        ensures search { IsSearch self.now.index key
            (position (is_under (λ k. k) key) self.now.entries) result }
        ensures some { 0 < result }
        ensures few { result ≤ length self.now.entries + 1 }
    {
        self.index.probes(&self.keys, key)
    }

    fn has(&self, key: Value) -> bool
        ensures { result ≡ set.contains (members self.now) key }
    {
        self.index.place_of(&self.keys, key).is_some()
    }

    // Answers whether the key was none.
    fn add(&mut self, key: Value) -> bool
        requires { set.contains (members self.old) key ≡ false
            → set.len (members self.old) < self.old.room }
        ensures new { result ≡ not (set.contains (members self.old) key) }
        ensures after { set_shard self.new
            ≡ record {
              container = Members (set.insert (members self.old) key);
              room = self.old.room;
            } }
        ensures factor { self.new.index.factor ≡ self.old.index.factor }
    {
        match self.index.enter(&self.keys, key) {
            Some(_) => false,
            None => {
                self.keys.push_reserved(key);
                true
            }
        }
    }

    fn remove(&mut self, key: Value)
        ensures after { set_shard self.new
            ≡ record {
              container = Members (set.remove (members self.old) key);
              room = self.old.room;
            } }
        ensures factor { self.new.index.factor ≡ self.old.index.factor }
    {
        if let Some(place) = self.index.remove(&self.keys, key) {
            self.keys.swap_remove(place);
        }
    }
}

fn bit_of(holds: bool) -> Value
    ensures { result ≡ bit holds }
{
    Value::Num(if holds { 1 } else { 0 })
}
