// Entries of several shards.

ghost use Rattle.std.specs.Prelude.{◌≡◌, ◌<◌, ◌^◌, Some, length, slice_get};
ghost use Rattle.std.specs.List.{AllByRecursion};
ghost use Rattle.session_journal.specs.Opening.{AreApart};
ghost use Rattle.shard_tables.specs.Either.{entries_in};
ghost use Rattle.hall_rule.specs.Listing.{all_entries, all_sizes};

use session_values::Value;
use shard_tables::Part;

/// How many entries these shards have together.
pub(crate) fn count_entries(parts: &[Part]) -> u32
    requires { all_sizes parts.now < 2 ^ 32 }
    ensures count { result ≡ length (all_entries parts.now) }
    ensures size { result ≡ all_sizes parts.now }
    ensures apart { AllByRecursion (λ p. AreApart (entries_in p)) parts.now }
{
    let mut count = 0;
    for part in parts {
        count += part.len();
    }
    count
}

/// The entry at a place of those of these shards, one shard after another.
pub(crate) fn entry_at(parts: &[Part], i: u32) -> (Value, Value)
    requires { i < length (all_entries parts.now) }
    ensures { slice_get (all_entries parts.now) i ≡ Some result }
{
    let mut left = i;
    for part in parts {
        let len = part.len();
        if left < len {
            return part.entry(left);
        }
        left -= len;
    }
    unreachable!()
}
