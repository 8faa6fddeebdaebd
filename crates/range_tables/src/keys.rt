// Number keys in order.

ghost use Rattle.std.specs.Prelude.{◌≡◌, ℤ, ◌≤ℤ◌, ◌<ℤ◌, ◌+◌, ◌<◌, ◌≤◌, Bool, length, vec_len, vec_capacity};
ghost use Rattle.std.specs.List.{AllWithin, count_by};
ghost use Rattle.range_tables.specs.Tables.{IsPlaceOf, Rising, count_in, one};

/// How many numbers are below the bound.
pub(crate) fn place_of(keys: &[i64], key: i64) -> usize
    requires { Rising keys.now }
    ensures { IsPlaceOf key keys.now result }
{
    keys.partition_point(|x| *x < key)
}

/// How many numbers are at most the bound.
fn place_after(keys: &[i64], key: i64) -> usize
    requires { Rising keys.now }
    ensures within { result ≤ length keys.now }
    ensures below { AllWithin (λ y. y ≤ℤ key) keys.now 0 result }
    ensures above { AllWithin (λ y. key <ℤ y) keys.now result (length keys.now) }
{
    keys.partition_point(|x| *x <= key)
}

/// How many numbers are from `low` to `high`.
pub(crate) fn count_keys(keys: &[i64], low: i64, high: i64) -> usize
    requires { Rising keys.now }
    ensures { result ≡ count_in low high keys.now }
{
    let from = place_of(keys, low);
    let to = place_after(keys, high);
    to.saturating_sub(from)
}

/// Puts a number at its place, in room that is reserved for it. An insertion moves at most the keys
/// behind it.
pub(crate) fn enter(keys: &mut Vec<i64>, key: i64)
    requires rising { Rising keys.old.items }
    requires room { vec_len keys.old < vec_capacity keys.old }
    ensures rising { Rising keys.new.items }
    ensures counts { (p : ℤ → Bool) → count_by p keys.new.items
        ≡ count_by p keys.old.items + one p key }
    ensures len { length keys.new.items ≡ length keys.old.items + 1 }
    ensures capacity { vec_capacity keys.old ≤ vec_capacity keys.new }
{
    let place = place_of(keys, key);
    let _entered = keys.insert(place, key);
}

/// Takes a number out.
pub(crate) fn leave(keys: &mut Vec<i64>, key: i64)
    requires rising { Rising keys.old.items }
    requires there { 0 < count_in key key keys.old.items }
    ensures rising { Rising keys.new.items }
    ensures counts { (p : ℤ → Bool) → count_by p keys.old.items
        ≡ count_by p keys.new.items + one p key }
    ensures len { length keys.new.items + 1 ≡ length keys.old.items }
    ensures capacity { vec_capacity keys.new ≡ vec_capacity keys.old }
{
    let place = place_of(keys, key);
    keys.remove(place);
}
