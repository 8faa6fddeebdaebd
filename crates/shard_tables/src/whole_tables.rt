// Tables that are whole, for whoever has them alone.

ghost use Rattle.std.specs.Prelude.{◌≡◌, ◌<◌, ◌++◌, ◌∷◌, [], IfOk, IsOk, OnErr, OnOk, Some, false, length, map, slice_get};
ghost use Rattle.session_values.specs.Opening.{container_of, entries_of, tables_of};
ghost use Rattle.session_values.specs.Kinds.{home, is_adding};
ghost use Rattle.session_values.specs.Tables.{kind_of, reply, step};
ghost use Rattle.shard_tables.specs.Whole.{container_in, held};

use crate::part::Part;
use crate::tells_opening::TellsOpening;
use session_values::{NoMemory, Op, TableKind, Value};
use std::alloc::Global;
use std::marker::Model;

/// The most keys for which a table is given room.
const MOST_ROOM: u32 = 1_073_741_824;

/// The maps and sets of a session, by the tables' numbers, each whole in one shard: a key is found
/// by its hash.
#[derive(Drop)]
pub struct WholeTables {
    parts: Vec<Part>,
}

impl Model for WholeTables {
    ghost use Rattle.session_values.specs.Tables.{Tables};
    ghost use Rattle.shard_tables.specs.Whole.{held, tables_code};

    ghost Value = { Tables };

    ghost coded = { tables_code };

    ghost view = { λ t. held t.parts.items };
}

/// A table as it opens, in room for its entries and for all keys that may be added.
fn opened_part<T: TellsOpening>(
    alloc: Global,
    told: &T,
    kind: TableKind,
    table: u32,
) -> Result<Part, NoMemory>
    requires { table < length (T.shape told.now) }
    ensures { IfOk result (λ p. container_in p
        ≡ container_of kind (entries_of (T.opened told.now) table)) }
{
    let len = told.opening_len(table);
    let room = told.room(table).saturating_add(len).min(MOST_ROOM);
    let mut part = Part::with_room(alloc, kind, room)?;
    for done in 0..len {
        let (key, value) = told.opening_entry(table, len - 1 - done);
        part.enter(key, value)?;
    }
    Ok(part)
}

impl WholeTables {
    /// No tables.
    pub fn new(alloc: Global) -> WholeTables
        ensures { result ≡ [] }
    {
        WholeTables {
            parts: Vec::new(alloc),
        }
    }

    /// Tables of these kinds with what they open with. More tables than numbers name are want of
    /// memory.
    pub fn opened<T: TellsOpening>(
        alloc: Global,
        told: &T,
        shape: &[TableKind],
    ) -> Result<WholeTables, NoMemory>
        requires { shape.now ≡ T.shape told.now }
        ensures { IfOk result (λ ts. ts ≡ tables_of (T.shape told.now) (T.opened told.now)) }
    {
        let Ok(count) = u32::try_from(shape.len()) else {
            return Err(NoMemory);
        };
        let mut tables = WholeTables::new(alloc);
        for table in 0..count {
            let part = opened_part(alloc, told, shape[table as usize], table)?;
            tables.push(part)?;
        }
        Ok(tables)
    }

    /// Adds a table behind the others.
    pub fn push(&mut self, part: Part) -> Result<(), NoMemory>
        ensures tables { OnOk result (self.new ≡ self.old ++ container_in part ∷ []) }
        ensures err { OnErr result (self.new ≡ self.old) }
    {
        self.parts.push(part)?;
        Ok(())
    }

    /// Does one operation, and answers its reply. One that may add a key to a full table is out of
    /// memory, whatever the key; no other one is.
    pub fn apply(&mut self, op: Op) -> Result<Value, NoMemory>
        // The table exists and has the operation's kind of container.
        requires fits { slice_get (map kind_of self.old) op.table ≡ Some (home op.kind) }
        ensures reply { IfOk result (λ value. value ≡ reply self.old op) }
        ensures tables { OnOk result (self.new ≡ step self.old op) }
        ensures err { OnErr result (self.new ≡ self.old) }
        ensures sure { is_adding op.kind ≡ false → IsOk result }
        ensures kinds { map kind_of self.new ≡ map kind_of self.old }
    {
        self.parts[op.table as usize].try_apply(op)
    }

    /// The tables' shards, in order: how many keys each has, and its entries.
    pub fn parts(&self) -> &[Part]
        ensures { held result.now ≡ self.now }
    {
        self.parts.as_slice()
    }
}
