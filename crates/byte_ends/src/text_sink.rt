// Texts, and where they go.

ghost use Rattle.std.specs.Prelude.{◌++◌};
ghost use Rattle.byte_ends.specs.Texts.{Adds, Ends};

/// Where a text is put, piece by piece. No piece is refused: what became of the text is asked at
/// its end, of the sink itself.
pub trait TextSink {
    ghost use Rattle.std.specs.Prelude.{List, ℕ};

    /// Of a whole text that was to be put from the first state on, these bytes are still to come at
    /// the second.
    ghost IsDue: { Self → List ℕ → Self → List ℕ → Type 0 };

    /// Takes a piece of the text.
    fn put(&mut self, text: &str)
        ensures { Adds IsDue (λ rest. text.now ++ rest) self.old self.new };
}

/// What has a text that can be put. That takes no memory.
pub trait PutsText {
    ghost use Rattle.std.specs.Prelude.{List, ℕ};

    /// Its text.
    ghost text: { Self → List ℕ };

    /// What it asks for.
    ghost CanPut: { Self → Type 0 };

    /// Puts the text.
    fn put_text<T: TextSink>(&self, out: &mut T)
        requires { CanPut self.now }
        ensures { Ends T.IsDue (text self.now) out.old out.new };
}
