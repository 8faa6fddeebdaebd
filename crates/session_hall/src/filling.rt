// Shards with what their tables open with.

ghost use Rattle.std.specs.Prelude.{◌≡◌, ◌*◌, ◌<◌, ◌≤◌, ◌/◌, [], Some, IfOk, length, slice_get};
ghost use Rattle.session_values.specs.Limits.{max_shards, max_tables};
ghost use Rattle.session_journal.specs.Opening.{container_of, entries_of};
ghost use Rattle.session_journal.specs.Script.{IsScript};
ghost use Rattle.shard_tables.specs.Parts.{part as part_of};
ghost use Rattle.hall_rule.specs.Filling.{count_in};
ghost use Rattle.shard_tables.specs.Either.{shard_view};
ghost use Rattle.session_hall.specs.Openings.{IsNewPart, NewParts};

use hall_rule::Held;
use session_journal::{Script, opening_op};
use session_values::{NoMemory, TableKind};
use shard_tables::{Part, shard_of};
use std::alloc::Global;
use turn_board::MAX_BOARD_TURNS;

// How many entries of a table one of its shards opens with.
fn count_entries<S: Script>(script: &S, table: u32, shards: u32, shard: u32) -> u32
    requires table { table < length (S.meaning script.now).shape }
    requires some { 0 < shards }
    ensures { result ≡ count_in shards shard (entries_of (S.meaning script.now).opened table) }
{
    let mut count = 0;
    for i in 0..script.opening_len(table) {
        let (key, _) = script.opening_entry(table, i);
        if shard_of(key, shards) == shard {
            count += 1;
        }
    }
    count
}

// Puts the entries of a table that are of a shard into it, the last one first.
fn fill<S: Script>(
    script: &S,
    kind: TableKind,
    table: u32,
    shards: u32,
    shard: u32,
    part: &mut Part,
)
    requires table { table < length (S.meaning script.now).shape }
    requires some { 0 < shards }
    requires empty { (shard_view part.old).container ≡ container_of kind [] }
    requires room { count_in shards shard (entries_of (S.meaning script.now).opened table)
        ≤ (shard_view part.old).room }
    ensures { shard_view part.new ≡ record {
      container = part_of shards shard
          (container_of kind (entries_of (S.meaning script.now).opened table));
      room = (shard_view part.old).room;
    } }
{
    let len = script.opening_len(table);
    for done in 0..len {
        let (key, value) = script.opening_entry(table, len - 1 - done);
        if shard_of(key, shards) == shard {
            part.apply(opening_op(kind, table, key, value));
        }
    }
}

// The shard that stands behind turn `place + 1`, with the entries of its table that are its own, in
// room for these and for all keys that may be added to the table.
fn new_part<S: Script>(
    alloc: Global,
    script: &S,
    kind: TableKind,
    place: u32,
    shards: u32,
) -> Result<Part, NoMemory>
    requires script { IsScript (S.meaning script.now) }
    requires some { 0 < shards }
    requires kind { slice_get (S.meaning script.now).shape (place / shards) ≡ Some kind }
    ensures { IfOk result (λ p. IsNewPart (S.meaning script.now) shards place p) }
{
    let table = place / shards;
    let shard = place % shards;
    let room = script.room(table) + count_entries(script, table, shards, shard);
    let mut part = Part::with_room(alloc, kind, room)?;
    fill(script, kind, table, shards, shard, &mut part);
    Ok(part)
}

/// The shards of all tables as they open, by turn.
pub(crate) fn new_parts<S: Script + Drop>(
    alloc: Global,
    script: &S,
    shape: &[TableKind],
    shards: u32,
) -> Result<Vec<Held<S>>, NoMemory>
    requires script { IsScript (S.meaning script.now) }
    requires shape { shape.now ≡ (S.meaning script.now).shape }
    requires some { 0 < shards }
    requires sizes { (shards ≤ max_shards) × (length shape.now ≤ max_tables) }
    ensures { IfOk result (λ v. NewParts (S.meaning script.now) shards (length shape.now * shards)
        v.items) }
{
    let mut values = Vec::with_capacity(alloc, MAX_BOARD_TURNS)?;
    for place in 0..shape.len() as u32 * shards {
        let kind = shape[(place / shards) as usize];
        let part = new_part(alloc, script, kind, place, shards)?;
        values.push_reserved(Held::Table(part));
    }
    Ok(values)
}
