// Calls that are to fail, by their numbers.

ghost use Rattle.std.specs.Prelude.{◌≡◌};
ghost use Rattle.byte_ends.specs.Memory.{is_listed};

/// Whether the call with this number is to fail.
pub fn fails_at(fails: &[u32], call: u64) -> bool
    ensures { result ≡ is_listed fails.now call }
{
    fails.iter().any(|number| u64::from(*number) == call)
}
