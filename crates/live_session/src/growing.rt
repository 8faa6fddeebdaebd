// Room for keys, which is taken before a handler runs.

ghost use Rattle.std.specs.Prelude.{◌≡◌, ℕ, ◌+◌, ◌*◌, ◌<◌, ◌≤◌, ◌⊎◌, IsErr, IsOk, OnErr, OnOk, length};
ghost use Rattle.session_values.specs.Limits.{max_calls, max_handlers};
ghost use Rattle.session_values.specs.Tables.{size_of};
ghost use Rattle.shard_tables.specs.Shards.{spare_of};
ghost use Rattle.shard_tables.specs.Either.{index_in, shard_view};
ghost use Rattle.live_session.specs.Held.{HaveRoom, adds_in, factors_in, held};

use session_values::{MAX_HANDLERS, NoMemory};
use shard_tables::Part;
use std::alloc::Global;

/// The most keys of a table.
pub(crate) const MOST_KEYS: u32 = 1_073_741_824;

/// The room that a table gets that has so many keys and wants so many more: twice what it has, and
/// some more, so that it grows seldom.
fn next_room(len: u32, adds: u32) -> u32
    requires len { len ≤ 1073741824 }
    requires adds { adds ≤ max_calls }
    ensures few { result ≤ 1073741824 }
    ensures enough { len + adds ≤ 1073741824 → len + adds ≤ result }
    ensures doubles { (2 * len ≤ result) ⊎ (result ≡ 1073741824) }
{
    (2 * len + adds + 16).min(MOST_KEYS)
}

/// Makes room in a table for so many keys more. Where there is room nothing is done; where there
/// is none the room is at least doubled, so that a table of many keys is seldom copied. A table that
/// would have more than 1,073,741,824 keys is out of memory.
pub(crate) fn make_room(alloc: Global, part: &mut Part, adds: u32) -> Result<(), NoMemory>
    requires adds { adds ≤ max_calls }
    ensures same { (shard_view part.new).container ≡ (shard_view part.old).container }
    ensures room { OnOk result (size_of (shard_view part.new).container + adds
        ≤ (shard_view part.new).room) }
    ensures factor { (index_in part.new).factor ≡ (index_in part.old).factor }
    ensures doubles { OnOk result (((shard_view part.new).room ≡ (shard_view part.old).room)
        ⊎ (2 * size_of (shard_view part.old).container ≤ (shard_view part.new).room)
        ⊎ ((shard_view part.new).room ≡ 1073741824)) }
    ensures sure { size_of (shard_view part.old).container + adds ≤ (shard_view part.old).room
        → IsOk result }
    ensures past { 1073741824 < size_of (shard_view part.old).container + adds → IsErr result }
    ensures wanted { OnErr result (0 < adds) }
{
    let left = part.spare();
    if adds <= left {
        return Ok(());
    }
    let len = part.len();
    let room = next_room(len, adds);
    if room < len + adds {
        return Err(NoMemory);
    }
    *part = part.grown(alloc, room)?;
    Ok(())
}

/// Makes room in each table for the keys that the handler of this number may add. Where memory runs
/// out, the tables still hold what they held.
pub(crate) fn make_room_for(
    alloc: Global,
    adds: &[[u32; MAX_HANDLERS]],
    h: u32,
    parts: &mut Vec<Part>,
) -> Result<(), NoMemory>
    requires long { length adds.now ≡ length parts.old.items }
    requires handler { h < max_handlers }
    requires few { (t : ℕ) → t < length adds.now → adds_in adds.now t h ≤ max_calls }
    ensures same { held parts.new.items ≡ held parts.old.items }
    ensures factors { factors_in parts.new.items ≡ factors_in parts.old.items }
    ensures room { OnOk result (HaveRoom (λ t. adds_in adds.now t h) parts.new.items) }
    ensures wanted { OnErr result ((t : ℕ) × (t < length adds.now) × (0 < adds_in adds.now t h)) }
{
    for t in 0..parts.len() {
        let more = adds[t][h as usize];
        make_room(alloc, &mut parts[t], more)?;
    }
    Ok(())
}
