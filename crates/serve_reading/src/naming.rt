// The list of names of an input.

ghost use Rattle.std.specs.Prelude.{◌≡◌, []};

use session_values::Names;
use std::alloc::Global;
use std::hash::{DefaultHasher, Hasher};

/// No names yet. Their hashes begin from a hash of all that is read, so whoever changes a name
/// changes all of them, and can't choose names that collide.
pub fn names_of_input(alloc: Global, handlers: &str, tables: &str, requests: &str) -> Names
    ensures { result ≡ [] }
{
    let mut hasher = DefaultHasher::new();
    hasher.write(handlers.as_bytes());
    hasher.write(tables.as_bytes());
    hasher.write(requests.as_bytes());
    Names::with_seed(alloc, hasher.finish())
}
