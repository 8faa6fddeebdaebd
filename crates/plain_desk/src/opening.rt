// Tables filled with what they open with.

ghost use Rattle.std.specs.Prelude.{◌≡◌, ◌<◌, [], Some, OnOk, length, map, slice_get, slice_set};
ghost use Rattle.session_journal.specs.Opening.{container_of, entries_of};
ghost use Rattle.session_values.specs.Tables.{kind_of, start};
ghost use Rattle.session_journal.specs.Script.{IsScript};

use plain_tables::PlainTables;
use session_journal::{Script, opening_op};
use session_values::{NoMemory, TableKind};

/// Enters what a table opens with, the last entry first.
fn fill_table<S: Script>(
    script: &S,
    kind: TableKind,
    table: u32,
    tables: &mut PlainTables,
) -> Result<(), NoMemory>
    requires within { table < length (S.meaning script.now).shape }
    requires kind { slice_get (map kind_of tables.old) table ≡ Some kind }
    requires empty { slice_get tables.old table ≡ Some (container_of kind []) }
    ensures { OnOk result (tables.new ≡ slice_set tables.old table
        (container_of kind (entries_of (S.meaning script.now).opened table))) }
{
    let len = script.opening_len(table);
    for done in 0..len {
        let (key, value) = script.opening_entry(table, len - 1 - done);
        tables.apply(opening_op(kind, table, key, value))?;
    }
    Ok(())
}

/// Enters what each table opens with. More tables than numbers name count as out of memory.
pub(crate) fn fill_tables<S: Script>(
    script: &S,
    shape: &[TableKind],
    tables: &mut PlainTables,
) -> Result<(), NoMemory>
    requires script { IsScript (S.meaning script.now) }
    requires shape { shape.now ≡ (S.meaning script.now).shape }
    requires empty { tables.old ≡ start shape.now }
    ensures { OnOk result (tables.new ≡ (S.meaning script.now).opening) }
{
    let Ok(count) = u32::try_from(shape.len()) else {
        return Err(NoMemory);
    };
    for table in 0..count {
        fill_table(script, shape[table as usize], table, tables)?;
    }
    Ok(())
}
