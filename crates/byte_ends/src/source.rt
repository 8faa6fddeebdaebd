// Where bytes come from.

ghost use Rattle.std.specs.Prelude.{◌<◌, length};
ghost use Rattle.byte_ends.specs.Ends.{ReadGives, ReadCounts};

/// What a read gave: so many bytes, or that no more will come, or a fault.
#[derive(Clone, Copy, Debug, PartialEq, Eq)]
pub enum Got {
    Bytes(u32),
    End,
    Failed,
}

/// Where bytes come from.
pub trait Source {
    ghost use Rattle.std.specs.Prelude.{List, ℕ, Option};

    /// The bytes still to come, where the source tells them.
    ghost left: { Self → Option (List ℕ) };
    /// How often a read failed: a count that rises by one with each that does, and stands still at
    /// its type's end.
    ghost faults: { Self → ℕ };

    /// Reads the next bytes into the front of `buf`. What stands behind them in `buf` is free.
    fn read(&mut self, buf: &mut [u8]) -> Got
        requires { 0 < length buf.old }
        ensures gives { ReadGives (left self.old) (left self.new) buf.new result }
        ensures counts { ReadCounts (faults self.old) (faults self.new) result };
}
