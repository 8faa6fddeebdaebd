// The generator of numbers.

ghost use Rattle.std.specs.Prelude.{◌≡◌, ◌<◌};
ghost use Rattle.serve_words.specs.Draws as spec;

/// The state of a linear congruential generator modulo 2^32, whose draws are bits 16 to 30.
#[derive(Drop)]
pub(crate) struct Draws {
    pub state: u32,
}

impl Draws {
    /// The next draw, below 32,768.
    pub(crate) fn draw(&mut self) -> u32
        ensures state { self.new.state ≡ spec.next_state self.old.state }
        ensures drawn { result ≡ spec.drawn self.new.state }
        ensures bound { result < 32768 }
    {
        let next = (u64::from(self.state) * 1103515245 + 12345) % 4294967296;
        self.state = next as u32;
        self.state / 65536 % 32768
    }
}
