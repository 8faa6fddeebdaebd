// The names of a session.

ghost use Rattle.std.specs.Prelude.{◌≡◌, ◌<◌, IfOk, length};

use session_values::{Names, NoMemory};
use std::alloc::Global;

/// The same names, looked up by hashes that begin from another seed, which whoever chooses the
/// names doesn't know.
pub(crate) fn reseeded(alloc: Global, names: &Names, seed: u64) -> Result<Names, NoMemory>
    ensures { IfOk result (λ new. new ≡ names.now) }
{
    let mut new = Names::with_seed(alloc, seed);
    for place in 0..names.len() {
        new.place(names.text(place))?;
    }
    Ok(new)
}
