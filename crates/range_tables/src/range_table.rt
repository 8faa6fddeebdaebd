// One map that counts ranges of its keys.

ghost use Rattle.std.specs.Prelude.{◌≡◌, ◌≤◌, [], ◌∷◌, IfOk};
ghost use Rattle.session_values.specs.declared.kind.TableKind.TheVariants.{Map};
ghost use Rattle.session_values.specs.Kinds.{home};
ghost use Rattle.session_values.specs.Tables.{empty_of, reply_on};
ghost use Rattle.shard_tables.specs.Shards.{HasRoomFor, map_shard, shard_after, spare_of};
ghost use Rattle.range_tables.specs.Ranges.{between_on, range_reply, range_step};
ghost use Rattle.range_tables.specs.Tables.{HasRoomForRange, IsOnFirst};

use crate::keys::{count_keys, enter, leave};
use crate::range_op::RangeOp;
use session_values::{NoMemory, Op, Value};
use shard_tables::MapShard;
use std::alloc::Global;
use std::marker::Model;

/// A map with its number keys in order beside it. After `with_room` it takes no memory. A count
/// takes two searches in the order, an operation as long as on a shard, and where it adds or takes
/// out a number also a move of the numbers behind it.
#[derive(Drop)]
pub struct RangeTable {
    shard: MapShard,
    /// The keys that are numbers, in order. An insertion moves at most the keys behind it.
    keys: Vec<i64>,
}

impl Model for RangeTable {
    ghost use Rattle.std.specs.Prelude.{◌≤◌, vec_capacity};
    ghost use Rattle.shard_tables.specs.Shards.{MapView, map_code, map_shard};
    ghost use Rattle.range_tables.specs.Tables.{AreKeysOf};

    ghost Value = { MapView };

    ghost coded = { map_code };

    ghost view = { λ t. t.shard };

    ghost invariant = { λ t. AreKeysOf (map_shard t.shard).container t.keys.items
        × (t.shard.room ≤ vec_capacity t.keys) };
}

impl RangeTable {
    /// An empty map with room for so many keys, at most 2 to the power of 30.
    pub fn with_room(alloc: Global, room: u32) -> Result<RangeTable, NoMemory>
        requires { room ≤ 1073741824 }
        ensures { IfOk result (λ t. map_shard t ≡ record {
          container = empty_of Map;
          room = room;
        }) }
    {
        let shard = MapShard::with_room(alloc, room)?;
        let keys = Vec::with_capacity(alloc, room as usize)?;
        Ok(RangeTable { shard, keys })
    }

    /// Does one operation. The map is table 0, and where the operation may add a key that is
    /// absent, `spare` is above 0.
    pub fn apply(&mut self, op: RangeOp) -> Value
        requires first { IsOnFirst op }
        requires room { HasRoomForRange op (map_shard self.old) }
        ensures reply { result ≡ range_reply ((map_shard self.old).container ∷ []) op }
        ensures after { (map_shard self.new).container ∷ []
            ≡ range_step ((map_shard self.old).container ∷ []) op }
        ensures room { self.new.room ≡ self.old.room }
    {
        match op {
            RangeOp::Plain(op) => self.apply_plain(op),
            RangeOp::Between {
                table: _,
                low,
                high,
            } => self.between(low, high),
        }
    }

    /// For how many more keys there is room.
    pub fn spare(&self) -> u32
        ensures { result ≡ spare_of (map_shard self.now) }
    {
        self.shard.spare()
    }

    fn between(&self, low: i64, high: i64) -> Value
        ensures { result ≡ between_on low high (map_shard self.now).container }
    {
        Value::Num(count_keys(&self.keys, low, high) as i64)
    }

    fn apply_plain(&mut self, op: Op) -> Value
        requires kind { home op.kind ≡ Map }
        requires room { HasRoomFor op (map_shard self.old) }
        ensures reply { result ≡ reply_on (map_shard self.old).container op }
        ensures after { map_shard self.new ≡ shard_after (map_shard self.old) op }
    {
        let before = self.shard.len();
        let reply = self.shard.apply(op);
        let after = self.shard.len();
        if let Value::Num(key) = op.key() {
            if before < after {
                enter(&mut self.keys, key);
            } else if after < before {
                leave(&mut self.keys, key);
            }
        }
        reply
    }
}
