// Tables by their names.

ghost use Rattle.std.specs.Prelude.{◌≡◌};
ghost use Rattle.table_lines.specs.TableRows.{AreKnown, IsTable};

use session_values::Names;
use std::hash::{DefaultHasher, Hasher};
use syntax_trees::TableDecls;

/// The number of the table with this name.
pub(crate) fn table(tables: &TableDecls, names: &Names, name: &str) -> Option<u32>
    requires { AreKnown names.now tables.now }
    ensures { IsTable names.now tables.now name.now result }
{
    for i in 0..tables.len() {
        if names.text(tables.get(i).name) == name {
            return Some(i);
        }
    }
    None
}

/// What the hashes of keys begin with: nobody can choose keys that collide without changing it.
pub(crate) fn seed(text: &str) -> u64 {
    let mut hasher = DefaultHasher::new();
    hasher.write(text.as_bytes());
    hasher.finish()
}
