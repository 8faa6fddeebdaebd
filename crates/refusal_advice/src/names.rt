// The names of a text, before its words are read.

ghost use Rattle.std.specs.Prelude.{◌≡◌, []};

use session_values::Names;
use std::alloc::Global;
use std::hash::{DefaultHasher, Hasher};

/// No names yet. Their hashes begin from a hash of the whole text.
pub fn names_for(alloc: Global, source: &str) -> Names
    ensures { result ≡ [] }
{
    let mut hasher = DefaultHasher::new();
    hasher.write(source.as_bytes());
    Names::with_seed(alloc, hasher.finish())
}
