// One shard of a map.

ghost use Rattle.std.specs.Prelude.{◌≡◌, ◌<◌, ◌≤◌, ◌+◌, IfOk, false, pos, unwrap_or, length, position, slice_get};
ghost use Rattle.std.specs.FinMap as map;
ghost use Rattle.session_values.specs.declared.kind.TableKind.TheVariants.{Map};
ghost use Rattle.session_values.specs.Kinds.{home};
ghost use Rattle.session_values.specs.Tables.{Bindings, bound_to, bumped, reply_on, size_of, empty_of};
ghost use Rattle.shard_tables.specs.Keys.{AreDifferent, is_under};
ghost use Rattle.shard_tables.specs.Slots.{factor_of, IsSearch, IsSizedFor, slot_count};
ghost use Rattle.shard_tables.specs.Shards.{bindings, map_shard, HasRoomFor, shard_after, spare_of, grown_to};

use crate::PlaceIndex;
use session_values::{Kind, NoMemory, Op, Value, bumped};
use std::alloc::Global;
use std::marker::Model;

/// The bindings of a part of a map, in no order, each found by an index of places.
/// After `with_room` it takes no memory.
#[derive(Drop)]
pub struct MapShard {
    pairs: Vec<(Value, Value)>,
    index: PlaceIndex,
    room: u32,
}

impl Model for MapShard {
    ghost use Rattle.std.specs.Prelude.{vec_capacity};
    ghost use Rattle.shard_tables.specs.Shards.{MapView, FitsRoom, map_code};

    ghost Value = { MapView };

    ghost coded = { map_code };

    ghost view = { λ s. record { entries = s.pairs.items; room = s.room; index = s.index } };

    ghost invariant = { λ s. FitsRoom (λ p. p.0) s.pairs.items (vec_capacity s.pairs) s.room
        s.index };
}

impl MapShard {
    /// An empty shard with room for so many keys.
    pub fn with_room(alloc: Global, room: u32) -> Result<MapShard, NoMemory>
        requires { room ≤ 1073741824 }
        ensures empty { IfOk result (λ shard. map_shard shard ≡ record {
          container = empty_of Map;
          room = room;
        }) }
        ensures slots { IfOk result (λ shard. IsSizedFor room shard.index.bits) }
        ensures factor { IfOk result (λ shard. shard.index.factor ≡ factor_of 0) }
    {
        MapShard::with_seed(alloc, room, 0)
    }

    /// The same where searches begin as this seed has it, for keys that others choose; seed 0 is as
    /// none.
    pub fn with_seed(alloc: Global, room: u32, seed: u64) -> Result<MapShard, NoMemory>
        requires { room ≤ 1073741824 }
        ensures empty { IfOk result (λ shard. map_shard shard ≡ record {
          container = empty_of Map;
          room = room;
        }) }
        ensures slots { IfOk result (λ shard. IsSizedFor room shard.index.bits) }
        ensures factor { IfOk result (λ shard. shard.index.factor ≡ factor_of seed) }
    {
        let pairs = Vec::with_capacity(alloc, room as usize)?;
        let index = PlaceIndex::with_seed(alloc, room, seed)?;
        Ok(MapShard { pairs, index, room })
    }

    /// The same pairs in the same places, with room for so many keys, or for those that there are
    /// where they are more; searches begin as before.
    pub fn grown(&self, alloc: Global, room: u32) -> Result<MapShard, NoMemory>
        requires { room ≤ 1073741824 }
        ensures entries { IfOk result (λ shard. shard.entries ≡ self.now.entries) }
        ensures grown { IfOk result (λ shard. map_shard shard
            ≡ grown_to room (map_shard self.now)) }
        ensures slots { IfOk result (λ shard. IsSizedFor shard.room shard.index.bits) }
        ensures factor { IfOk result (λ shard. shard.index.factor ≡ self.now.index.factor) }
    {
        let room = room.max(self.len());
        let mut pairs = Vec::with_capacity(alloc, room as usize)?;
        pairs.extend_from_slice(&self.pairs)?;
        let index = self.index.grown(alloc, &self.pairs, room)?;
        Ok(MapShard { pairs, index, room })
    }

    /// Does one operation on the part.
    pub fn apply(&mut self, op: Op) -> Value
        requires kind { home op.kind ≡ Map }
        requires room { HasRoomFor op (map_shard self.old) }
        ensures reply { result ≡ reply_on (map_shard self.old).container op }
        ensures after { map_shard self.new ≡ shard_after (map_shard self.old) op }
        ensures factor { self.new.index.factor ≡ self.old.index.factor }
    {
        match op.kind {
            Kind::Get => self.get(op.key()),
            Kind::Put => {
                self.bind(op.key(), op.value());
                Value::Nil
            }
            Kind::Swap => self.bind(op.key(), op.value()),
            Kind::Del => {
                self.unbind(op.key());
                Value::Nil
            }
            Kind::Size => Value::Num(i64::from(self.len())),
            Kind::Bump => {
                self.bump(op.key(), op.value());
                Value::Nil
            }
            Kind::Has | Kind::Add | Kind::Mark | Kind::Drop | Kind::Count => Value::Nil,
        }
    }

    /// For how many more keys there is room.
    pub fn spare(&self) -> u32
        ensures spare { result ≡ spare_of (map_shard self.now) }
        ensures within { size_of (map_shard self.now).container ≤ self.now.room }
        ensures limit { self.now.room ≤ 1073741824 }
    {
        self.room - self.len()
    }

    /// How many keys there are.
    pub fn len(&self) -> u32
        ensures len { result ≡ length self.now.entries }
        ensures size { result ≡ size_of (map_shard self.now).container }
        ensures different { AreDifferent (λ e. e.0) self.now.entries }
    {
        self.pairs.len() as u32
    }

    /// A key and what it is bound to.
    pub fn entry(&self, i: u32) -> (Value, Value)
        requires { i < length self.now.entries }
        ensures entry { slice_get self.now.entries i ≡ Some result }
        ensures bound { map.get (bindings self.now) result.0 ≡ Some result.1 }
    {
        self.pairs[i as usize]
    }

    /// How many slots its index has: the least power of 2, from 2 on, that is at least twice the
    /// room.
    pub fn slots(&self) -> u32
        ensures slots { result ≡ slot_count self.now.index }
        ensures sized { IsSizedFor self.now.room self.now.index.bits }
    {
        self.index.slots()
    }

    /// How many slots a search for this key looks at: the measure of an operation on it, for tests
    /// and benchmarks.
    pub fn probes(&self, key: Value) -> u32
        ensures search { IsSearch self.now.index key
            (position (is_under (λ e. e.0) key) self.now.entries) result }
        ensures some { 0 < result }
        ensures few { result ≤ length self.now.entries + 1 }
    {
        self.index.probes(&self.pairs, key)
    }

    fn value_of(&self, key: Value) -> Option<Value>
        ensures { result ≡ map.get (bindings self.now) key }
    {
        match self.index.place_of(&self.pairs, key) {
            Some(place) => Some(self.pairs[place].1),
            None => None,
        }
    }

    fn get(&self, key: Value) -> Value
        ensures { result ≡ unwrap_or (map.get (bindings self.now) key) Value.Nil }
    {
        self.value_of(key).unwrap_or(Value::Nil)
    }

    // Answers what the key was bound to before, or nil.
    fn bind(&mut self, key: Value, value: Value) -> Value
        requires { map.contains_key (bindings self.old) key ≡ false
            → map.len (bindings self.old) < self.old.room }
        ensures reply { result ≡ unwrap_or (map.get (bindings self.old) key) Value.Nil }
        ensures after { map_shard self.new
            ≡ record {
              container = Bindings (map.insert (bindings self.old) key value);
              room = self.old.room;
            } }
        ensures factor { self.new.index.factor ≡ self.old.index.factor }
    {
        match self.index.enter(&self.pairs, key) {
            Some(place) => {
                let old = self.pairs[place].1;
                self.pairs[place] = (key, value);
                old
            }
            None => {
                self.pairs.push_reserved((key, value));
                Value::Nil
            }
        }
    }

    #[tactic(auto, using(session_values::proofs::Bumps::bumped_nothing))]
    fn bump(&mut self, key: Value, by: Value)
        requires { map.contains_key (bindings self.old) key ≡ false
            → map.len (bindings self.old) < self.old.room }
        ensures after { map_shard self.new
            ≡ record {
              container = Bindings (bound_to (bindings self.old) key
                  (bumped by (map.get (bindings self.old) key)));
              room = self.old.room;
            } }
        ensures factor { self.new.index.factor ≡ self.old.index.factor }
    {
        if let Some(value) = bumped(by, self.value_of(key)) {
            self.bind(key, value);
        }
    }

    fn unbind(&mut self, key: Value)
        ensures after { map_shard self.new
            ≡ record {
              container = Bindings (map.remove (bindings self.old) key);
              room = self.old.room;
            } }
        ensures factor { self.new.index.factor ≡ self.old.index.factor }
    {
        if let Some(place) = self.index.remove(&self.pairs, key) {
            self.pairs.swap_remove(place);
        }
    }
}
