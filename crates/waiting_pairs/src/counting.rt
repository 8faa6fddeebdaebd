// Counting delays.

ghost use Rattle.std.specs.Prelude.{◌≡◌, ◌<◌, IfOk, length, map};
ghost use Rattle.waiting_pairs.specs.Rows as spec;

use crate::cause::Cause;
use indexmap::IndexMap;
use session_values::NoMemory;
use std::alloc::Global;
use std::cmp::Reverse;

/// How many delays had a cause.
#[derive(Clone, Copy, Debug)]
pub struct Row {
    pub cause: Cause,
    /// The number of delays, at least 1.
    pub count: u32,
}

/// How many a cause has so far.
fn count_of(found: &IndexMap<Cause, u32>, cause: &Cause) -> u32
    ensures { result ≡ spec.count_in found.now.entries cause.now }
{
    match found.get(cause) {
        Some(count) => *count,
        None => 0,
    }
}

/// The causes, each once with how many of them there are, in the order in which they come first.
fn counted(alloc: Global, causes: &[Cause]) -> Result<IndexMap<Cause, u32>, NoMemory>
    requires { length causes.now < 4294967296 }
    ensures { IfOk result (λ found. found.entries ≡ spec.counted causes.now) }
{
    let mut found = IndexMap::new(alloc);
    for cause in causes {
        let count = count_of(&found, cause);
        found.insert(*cause, count + 1)?;
    }
    Ok(found)
}

/// The row of an entry.
fn row_at(found: &IndexMap<Cause, u32>, at: usize) -> Option<Row>
    ensures { result ≡ spec.row_at found.now.entries at }
{
    match found.get_index(at) {
        Some((cause, count)) => Some(Row {
            cause: *cause,
            count: *count,
        }),
        None => None,
    }
}

/// The rows of entries, in the same order.
fn rows_in(alloc: Global, found: &IndexMap<Cause, u32>) -> Result<Vec<Row>, NoMemory>
    ensures { IfOk result (λ rows. rows.items ≡ map spec.row_in found.now.entries) }
{
    let mut rows = Vec::new(alloc);
    for at in 0..found.len() {
        match row_at(found, at) {
            Some(row) => {
                rows.push(row)?;
            }
            None => {}
        }
    }
    Ok(rows)
}

/// A row for each of the causes, in the order in which they come first.
#[tactic(auto, using(crate::proofs::RowLists::rows_told))]
fn tally(alloc: Global, causes: &[Cause]) -> Result<Vec<Row>, NoMemory>
    requires { length causes.now < 4294967296 }
    ensures { IfOk result (λ rows. rows.items ≡ spec.tally causes.now) }
{
    let found = counted(alloc, causes)?;
    rows_in(alloc, &found)
}

/// A row for each of the causes, that with the largest count first, and of equal counts that whose
/// cause comes first.
pub(crate) fn rows_of(alloc: Global, causes: &[Cause]) -> Result<Vec<Row>, NoMemory>
    requires { length causes.now < 4294967296 }
    ensures { IfOk result (λ rows. spec.AreRows causes.now rows.items) }
{
    let mut rows = tally(alloc, causes)?;
    rows.sort_by_key(|row| Reverse(row.count))?;
    Ok(rows)
}
