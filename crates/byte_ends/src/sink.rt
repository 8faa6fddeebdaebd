// Where bytes go.

ghost use Rattle.std.specs.Prelude.{◌<◌, length};
ghost use Rattle.byte_ends.specs.Ends.{WriteTakes, WriteCounts};

/// What a write took: so many bytes from the front, or a fault.
#[derive(Clone, Copy, Debug, PartialEq, Eq)]
pub enum Put {
    Took(u32),
    Failed,
}

/// Where bytes go.
pub trait Sink {
    ghost use Rattle.std.specs.Prelude.{List, ℕ, Option};

    /// The bytes taken so far, where the sink tells them.
    ghost held: { Self → Option (List ℕ) };
    /// How often a write failed: a count that rises by one with each that does, and stands still at
    /// its type's end.
    ghost faults: { Self → ℕ };

    /// Takes bytes from the front of `bytes`, at least one of them.
    fn write(&mut self, bytes: &[u8]) -> Put
        requires { 0 < length bytes.now }
        ensures takes { WriteTakes (held self.old) (held self.new) bytes.now result }
        ensures counts { WriteCounts (faults self.old) (faults self.new) result };
}
