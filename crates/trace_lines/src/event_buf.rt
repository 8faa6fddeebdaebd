// Room for an event's line.

ghost use Rattle.std.specs.Prelude.{◌≡◌, []};

use crate::event_lines::LONGEST;
use reply_sheet::TextRoom;
use std::marker::Model;

/// The bytes of an event's line, in room for the longest, of 434 bytes.
#[derive(Drop)]
pub struct EventBuf {
    room: [u8; LONGEST],
    len: usize,
}

impl Model for EventBuf {
    ghost use Rattle.std.specs.Prelude.{List, ℕ, take, ◌≤◌};

    ghost Value = { List ℕ };

    ghost view = { λ b. take b.len b.room };

    ghost invariant = { λ b. b.len ≤ 434 };
}

impl EventBuf {
    /// A buffer that holds nothing yet.
    pub fn new() -> EventBuf
        ensures { result ≡ [] }
    {
        EventBuf {
            room: [0; LONGEST],
            len: 0,
        }
    }

    /// The line that stands in it.
    pub fn bytes(&self) -> &[u8]
        ensures { result.now ≡ self.now }
    {
        &self.room[..self.len]
    }

    pub(crate) fn clear(&mut self)
        ensures { self.new ≡ [] }
    {
        self.len = 0;
    }
}

impl TextRoom for EventBuf {
    ghost use Rattle.std.specs.Prelude.{◌-◌, length};

    ghost held = { λ b. b };

    ghost spare = { λ b. 434 - length b };

    #[inline(always)]
    fn push(&mut self, text: &[u8]) {
        let end = self.len + text.len();
        self.room[self.len..end].copy_from_slice(text);
        self.len = end;
    }
}
