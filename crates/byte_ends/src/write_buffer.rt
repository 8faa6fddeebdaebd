// Bytes that wait to be written.

ghost use Rattle.std.specs.Prelude.{◌≡◌, ◌+◌, ◌≤◌, ◌<◌, true, false, [], ◌++◌, length, IfOk};

use session_values::NoMemory;
use std::alloc::Global;
use std::marker::Model;

/// How many bytes a buffer has room for.
const ROOM: usize = 65536;

/// For how many bytes room is reserved at a time, beside those that are asked for.
const STEP: usize = 4096;

/// Bytes that wait to be written, in room for 65,536 of them that is taken once. The room is filled
/// with zeros as far as it is used, so that a short text pays for a short part of it.
#[derive(Drop)]
pub struct WriteBuffer {
    room: Vec<u8>,
    len: usize,
}

impl Model for WriteBuffer {
    ghost use Rattle.std.specs.Prelude.{◌-◌, ◌≤◌, take, vec_len, vec_capacity};
    ghost use Rattle.byte_ends.specs.Waiting.{Waiting};

    ghost Value = { Waiting };

    ghost view = { λ b. record {
      held = take b.len b.room.items;
      reserved = vec_len b.room - b.len;
    } };

    ghost invariant = { λ b. (b.len ≤ vec_len b.room) × (vec_len b.room ≤ 65536)
        × (65536 ≤ vec_capacity b.room) };
}

impl WriteBuffer {
    /// An empty buffer. It takes no memory later.
    pub fn new(alloc: Global) -> Result<WriteBuffer, NoMemory>
        ensures { IfOk result (λ buffer. buffer ≡ record { held = []; reserved = 0 }) }
    {
        Ok(WriteBuffer {
            room: Vec::with_capacity(alloc, ROOM)?,
            len: 0,
        })
    }

    /// The bytes that wait.
    pub fn bytes(&self) -> &[u8]
        ensures { result.now ≡ self.now.held }
    {
        &self.room[..self.len]
    }

    /// Reserves room for so many bytes more. It answers `false` where the buffer hasn't it.
    #[inline(always)]
    pub fn reserve(&mut self, count: usize) -> bool
        ensures held { self.new.held ≡ self.old.held }
        ensures room { result ≡ true → count ≤ self.new.reserved }
        ensures full { result ≡ false → 65536 < length self.old.held + count }
        ensures bound { length self.new.held + self.new.reserved ≤ 65536 }
    {
        count <= self.room.len() - self.len || self.reserve_more(count)
    }

    // The same where no room is reserved for so many.
    fn reserve_more(&mut self, count: usize) -> bool
        requires { self.old.reserved < count }
        ensures held { self.new.held ≡ self.old.held }
        ensures room { result ≡ true → count ≤ self.new.reserved }
        ensures full { result ≡ false → 65536 < length self.old.held + count }
        ensures bound { length self.new.held + self.new.reserved ≤ 65536 }
    {
        if ROOM - self.len < count {
            return false;
        }
        self.room
            .resize((self.len + count + STEP).min(ROOM), 0)
            .unwrap();
        true
    }

    /// Lets go of the bytes that wait. Their room stays reserved.
    pub fn clear(&mut self)
        ensures held { self.new.held ≡ [] }
        ensures reserved { self.new.reserved ≡ length self.old.held + self.old.reserved }
    {
        self.len = 0;
    }

    /// Appends bytes, for which room is reserved.
    #[inline(always)]
    pub fn push(&mut self, more: &[u8])
        requires { length more.now ≤ self.old.reserved }
        ensures held { self.new.held ≡ self.old.held ++ more.now }
        ensures reserved { self.new.reserved + length more.now ≡ self.old.reserved }
    {
        let end = self.len + more.len();
        self.room[self.len..end].copy_from_slice(more);
        self.len = end;
    }
}
