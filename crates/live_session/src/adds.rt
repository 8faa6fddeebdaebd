// How many keys handlers may add.

ghost use Rattle.std.specs.Prelude.{◌≡◌, ◌<◌, ◌≤◌, ℕ, IfOk, length, slice_index_or};
ghost use Rattle.session_values.specs.Limits.{max_calls, max_handlers, max_tables};
ghost use Rattle.handler_check.specs.Bounds as bounds;
ghost use Rattle.handler_check.specs.Resolved.{code_at};
ghost use Rattle.live_session.specs.Held.{AreAdds};

use handler_check::Checked;
use session_values::{MAX_HANDLERS, NoMemory};
use std::alloc::Global;

/// The bound of each handler on the keys that it may add to a table.
fn adds_to(checked: &Checked, table: u32) -> [u32; MAX_HANDLERS]
    ensures each { (h : ℕ) → h < length checked.now.handlers
        → slice_index_or result h 0 ≡ bounds.adds_bound table (code_at checked.now h) }
    ensures few { (h : ℕ) → h < length checked.now.handlers
        → slice_index_or result h 0 ≤ max_calls }
    ensures count { length checked.now.handlers ≤ max_handlers }
{
    let mut adds = [0; MAX_HANDLERS];
    for h in 0..checked.handlers() {
        adds[h as usize] = checked.adds_bound(h, table);
    }
    adds
}

/// The same for each of so many tables. It is counted once, since a walk over each handler counts
/// it.
pub(crate) fn adds_by_table(
    alloc: Global,
    checked: &Checked,
    tables: u32,
) -> Result<Vec<[u32; MAX_HANDLERS]>, NoMemory>
    ensures { IfOk result (λ adds. AreAdds checked.now tables adds.items) }
{
    let mut all = Vec::new(alloc);
    for table in 0..tables {
        all.push(adds_to(checked, table))?;
    }
    Ok(all)
}
