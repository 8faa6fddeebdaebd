// Texts that are put into a caller's room.

ghost use Rattle.std.specs.Prelude.{◌≡◌, ◌-◌, ◌≤◌, ◌^◌, MatchOption, length, min};
ghost use Rattle.foresight_c.specs.Fronts.{put_at_front};

use crate::fronts::put_front;
use byte_ends::{PutsText, TextSink};

/// Counts the bytes of a text, up to the largest count.
#[derive(Drop)]
struct TextCounter {
    count: usize,
}

impl TextSink for TextCounter {
    ghost use Rattle.foresight_c.specs.TextRooms.{IsCounted};

    ghost IsDue = { λ start whole now rest. IsCounted now.count whole rest };

    fn put(&mut self, text: &str) {
        self.count = self.count.saturating_add(text.len());
    }
}

/// How many bytes a text has, if that is below the largest number.
pub(crate) fn length_of<P: PutsText>(text: &P) -> Option<usize>
    requires { P.CanPut text.now }
    ensures { MatchOption result (2 ^ 64 - 1 ≤ length (P.text text.now))
        (λ count. count ≡ length (P.text text.now)) }
{
    let mut counter = TextCounter { count: 0 };
    text.put_text(&mut counter);
    if counter.count < usize::MAX {
        Some(counter.count)
    } else {
        None
    }
}

/// Takes as much of a text as its room has place for.
#[derive(Drop)]
struct RoomWriter<'a> {
    room: &'a mut [u8],
    at: usize,
}

impl<'a> TextSink for RoomWriter<'a> {
    ghost use Rattle.std.specs.Prelude.{◌≡◌};
    ghost use Rattle.foresight_c.specs.TextRooms.{IsPutFront};

    ghost IsDue = { λ start whole now rest. (now.room.ghost_name ≡ start.room.ghost_name)
        × IsPutFront start.room.now now.room.now now.at whole rest };

    fn put(&mut self, text: &str) {
        if self.at < self.room.len() {
            self.at += put_front(&mut self.room[self.at..], text.as_bytes());
        }
    }
}

/// Puts a text at the front of a room, as much of it as the room takes, and returns how many bytes.
pub(crate) fn put_text_front<P: PutsText>(room: &mut [u8], text: &P) -> usize
    requires { P.CanPut text.now }
    ensures count { result ≡ min (length room.old) (length (P.text text.now)) }
    ensures room { room.new ≡ put_at_front room.old (P.text text.now) }
{
    let mut writer = RoomWriter { room, at: 0 };
    text.put_text(&mut writer);
    let RoomWriter { room: written, at } = writer;
    // No effect at run time. The proof reads what the room has from this use of it.
    let _ = &*written;
    at
}
