// Room that text is appended to.

ghost use Rattle.std.specs.Prelude.{◌≡◌, ◌+◌, ◌≤◌, ◌++◌, ℕ, List, length};

use byte_ends::WriteBuffer;

/// Room that text is appended to.
pub trait TextRoom {
    /// The bytes that stand in it.
    ghost held: { Self → List ℕ };

    /// How many bytes more it has room for.
    ghost spare: { Self → ℕ };

    /// Appends a text, which it has room for.
    fn push(&mut self, text: &[u8])
        requires { length text.now ≤ spare self.old }
        ensures held { held self.new ≡ held self.old ++ text.now }
        ensures spare { spare self.new + length text.now ≡ spare self.old };
}

impl TextRoom for WriteBuffer {
    ghost held = { λ b. b.held };

    ghost spare = { λ b. b.reserved };

    #[inline(always)]
    fn push(&mut self, text: &[u8]) {
        WriteBuffer::push(self, text);
    }
}
