// A text at the front of a room.

ghost use Rattle.std.specs.Prelude.{◌≡◌, min, length};
ghost use Rattle.foresight_c.specs.Fronts.{put_at_front};

/// Puts a text at the front of a room, as much of it as the room takes, and tells how many bytes.
pub(crate) fn put_front(room: &mut [u8], text: &[u8]) -> usize
    ensures count { result ≡ min (length room.old) (length text.now) }
    ensures room { room.new ≡ put_at_front room.old text.now }
{
    let count = room.len().min(text.len());
    room[..count].copy_from_slice(&text[..count]);
    count
}
