// Room for a line.

ghost use Rattle.std.specs.Prelude.{◌≡◌, ◌+◌, ◌≤◌, [], ◌++◌, length};

use crate::reply_line::LONGEST;
use crate::text_room::TextRoom;
use std::marker::Model;

/// A line's bytes, in room for 266 of them.
#[derive(Drop)]
pub struct LineBuf {
    room: [u8; LONGEST],
    len: usize,
}

impl Model for LineBuf {
    ghost use Rattle.std.specs.Prelude.{List, ℕ, take, ◌≤◌};

    ghost Value = { List ℕ };

    ghost view = { λ b. take b.len b.room };

    ghost invariant = { λ b. b.len ≤ 266 };
}

impl LineBuf {
    /// A buffer that holds nothing yet.
    pub fn new() -> LineBuf
        ensures { result ≡ [] }
    {
        LineBuf {
            room: [0; LONGEST],
            len: 0,
        }
    }

    /// The line that stands in it.
    pub fn bytes(&self) -> &[u8]
        ensures { result.now ≡ self.now }
    {
        &self.room[..self.len]
    }

    /// How many bytes the line has.
    pub fn len(&self) -> usize
        ensures len { result ≡ length self.now }
        ensures bound { result ≤ 266 }
    {
        self.len
    }

    pub(crate) fn clear(&mut self)
        ensures { self.new ≡ [] }
    {
        self.len = 0;
    }
}

impl TextRoom for LineBuf {
    ghost use Rattle.std.specs.Prelude.{◌-◌, length};

    ghost held = { λ b. b };

    ghost spare = { λ b. 266 - length b };

    #[inline(always)]
    fn push(&mut self, text: &[u8]) {
        let end = self.len + text.len();
        self.room[self.len..end].copy_from_slice(text);
        self.len = end;
    }
}
