// A shard of either kind.

ghost use Rattle.std.specs.Prelude.{◌≡◌, ◌<◌, ◌≤◌, ◌||◌, IfOk, OnErr, OnOk, Some, length, nat_lt, not, slice_get, true};
ghost use Rattle.session_values.specs.Opening.{AreApart};
ghost use Rattle.shard_tables.specs.Slots.{factor_of, IsSizedFor};
ghost use Rattle.session_values.specs.declared.op.Op.{Op as DoneOp};
ghost use Rattle.session_values.specs.Kinds.{home, is_adding};
ghost use Rattle.session_values.specs.Tables.{empty_of, kind_of, reply_on, size_of};
ghost use Rattle.shard_tables.specs.Either.{entries_in, index_in, shard_view, with_entry};
ghost use Rattle.shard_tables.specs.Shards.{HasRoomFor, grown_to, shard_after, spare_of};

use crate::map_shard::MapShard;
use crate::set_shard::SetShard;
use session_values::{Kind, NoMemory, Op, TableKind, Value};
use std::alloc::Global;

/// A table, or the part of one that one turn holds, in a box, so that it moves in one word.
#[derive(Drop)]
pub enum Part {
    Bindings(Box<MapShard>),
    Members(Box<SetShard>),
}

impl Part {
    /// An empty shard of this kind with room for so many keys.
    pub fn with_room(alloc: Global, kind: TableKind, room: u32) -> Result<Part, NoMemory>
        requires { room ≤ 1073741824 }
        ensures empty { IfOk result (λ part. shard_view part ≡ record {
          container = empty_of kind;
          room = room;
        }) }
        ensures slots { IfOk result (λ part. IsSizedFor room (index_in part).bits) }
        ensures factor { IfOk result (λ part. (index_in part).factor ≡ factor_of 0) }
    {
        Part::with_seed(alloc, kind, room, 0)
    }

    /// The same where searches begin as this seed has it, for keys that others choose; seed 0 is as
    /// none.
    pub fn with_seed(alloc: Global, kind: TableKind, room: u32, seed: u64) -> Result<Part, NoMemory>
        requires { room ≤ 1073741824 }
        ensures empty { IfOk result (λ part. shard_view part ≡ record {
          container = empty_of kind;
          room = room;
        }) }
        ensures slots { IfOk result (λ part. IsSizedFor room (index_in part).bits) }
        ensures factor { IfOk result (λ part. (index_in part).factor ≡ factor_of seed) }
    {
        let part = match kind {
            TableKind::Map => {
                Part::Bindings(Box::new(alloc, MapShard::with_seed(alloc, room, seed)?)?)
            }
            TableKind::Set => {
                Part::Members(Box::new(alloc, SetShard::with_seed(alloc, room, seed)?)?)
            }
        };
        Ok(part)
    }

    /// The same entries in the same places, with room for so many keys, or for those that there are
    /// where they are more; searches begin as before.
    pub fn grown(&self, alloc: Global, room: u32) -> Result<Part, NoMemory>
        requires { room ≤ 1073741824 }
        ensures entries { IfOk result (λ part. entries_in part ≡ entries_in self.now) }
        ensures grown { IfOk result (λ part. shard_view part
            ≡ grown_to room (shard_view self.now)) }
        ensures slots { IfOk result (λ part. IsSizedFor (shard_view part).room
            (index_in part).bits) }
        ensures factor { IfOk result (λ part. (index_in part).factor
            ≡ (index_in self.now).factor) }
    {
        let part = match self {
            Part::Bindings(shard) => Part::Bindings(Box::new(alloc, shard.grown(alloc, room)?)?),
            Part::Members(shard) => Part::Members(Box::new(alloc, shard.grown(alloc, room)?)?),
        };
        Ok(part)
    }

    /// How many keys it has.
    pub fn len(&self) -> u32
        ensures size { result ≡ size_of (shard_view self.now).container }
        ensures entries { result ≡ length (entries_in self.now) }
        ensures apart { AreApart (entries_in self.now) }
    {
        match self {
            Part::Bindings(shard) => shard.len(),
            Part::Members(shard) => shard.len(),
        }
    }

    /// The entry at a place: a key and what it is bound to, or a member and nil.
    pub fn entry(&self, i: u32) -> (Value, Value)
        requires { i < length (entries_in self.now) }
        ensures { slice_get (entries_in self.now) i ≡ Some result }
    {
        match self {
            Part::Bindings(shard) => shard.entry(i),
            Part::Members(shard) => (shard.entry(i), Value::Nil),
        }
    }

    /// For how many more keys there is room.
    pub fn spare(&self) -> u32
        ensures spare { result ≡ spare_of (shard_view self.now) }
        ensures within { size_of (shard_view self.now).container ≤ (shard_view self.now).room }
        ensures limit { (shard_view self.now).room ≤ 1073741824 }
    {
        match self {
            Part::Bindings(shard) => shard.spare(),
            Part::Members(shard) => shard.spare(),
        }
    }

    /// Whether there is room for the key that an operation of this kind may add, whatever the key.
    pub fn has_room(&self, kind: Kind) -> bool
        ensures room { result ≡ (not (is_adding kind) || nat_lt 0 (spare_of (shard_view self.now))) }
        ensures fits { (op : DoneOp) → op.kind ≡ kind → result ≡ true
            → HasRoomFor op (shard_view self.now) }
    {
        !kind.adds() || self.spare() > 0
    }

    /// Does one operation on the part. The caller sees to the room.
    pub fn apply(&mut self, op: Op) -> Value
        requires kind { kind_of (shard_view self.old).container ≡ home op.kind }
        requires room { HasRoomFor op (shard_view self.old) }
        ensures reply { result ≡ reply_on (shard_view self.old).container op }
        ensures after { shard_view self.new ≡ shard_after (shard_view self.old) op }
        ensures factor { (index_in self.new).factor ≡ (index_in self.old).factor }
    {
        match self {
            Part::Bindings(shard) => shard.apply(op),
            Part::Members(shard) => shard.apply(op),
        }
    }

    /// Does one operation on the part. One that may add a key to a full part is out of memory,
    /// whatever the key.
    pub fn try_apply(&mut self, op: Op) -> Result<Value, NoMemory>
        requires kind { kind_of (shard_view self.old).container ≡ home op.kind }
        ensures reply { IfOk result (λ value. value ≡ reply_on (shard_view self.old).container op) }
        ensures after { OnOk result (shard_view self.new ≡ shard_after (shard_view self.old) op) }
        ensures err { OnErr result (self.new ≡ self.old) }
        ensures full { OnErr result ((is_adding op.kind ≡ true)
            × (spare_of (shard_view self.old) ≡ 0)) }
        ensures factor { (index_in self.new).factor ≡ (index_in self.old).factor }
    {
        if !self.has_room(op.kind) {
            return Err(NoMemory);
        }
        Ok(self.apply(op))
    }

    /// Puts an entry into it: of a map it binds the key, of a set it makes the key a member. A full
    /// part is out of memory, whatever the key.
    pub fn enter(&mut self, key: Value, value: Value) -> Result<(), NoMemory>
        ensures entered { OnOk result (shard_view self.new ≡ record {
          container = with_entry (key, value) (shard_view self.old).container;
          room = (shard_view self.old).room;
        }) }
        ensures err { OnErr result (self.new ≡ self.old) }
        ensures full { OnErr result (spare_of (shard_view self.old) ≡ 0) }
        ensures factor { (index_in self.new).factor ≡ (index_in self.old).factor }
    {
        if self.spare() == 0 {
            return Err(NoMemory);
        }
        match self {
            Part::Bindings(shard) => {
                shard.apply(Op::new(Kind::Put, 0, key, value));
            }
            Part::Members(shard) => {
                shard.apply(Op::new(Kind::Mark, 0, key, Value::Nil));
            }
        }
        Ok(())
    }
}
