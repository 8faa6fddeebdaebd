// A sink in memory.

ghost use Rattle.std.specs.Prelude.{◌≡◌, ◌≤◌, ◌<◌, [], length, IfOk, Some};
ghost use Rattle.byte_ends.specs.Ends.{WriteTakes, WriteCounts};
ghost use Rattle.byte_ends.specs.Memory.{write_answer, after_write};

use crate::calls::fails_at;
use crate::sink::{Put, Sink};
use session_values::NoMemory;
use std::alloc::Global;
use std::marker::Model;

/// Bytes kept in memory, taken in pieces up to a room. Calls are numbered from 0, and those in a
/// list fail. So does each call once the room is full.
#[derive(Drop)]
pub struct MemorySink {
    bytes: Vec<u8>,
    room: u32,
    piece: u32,
    fails: Vec<u32>,
    calls: u64,
    faults: u64,
}

impl Model for MemorySink {
    ghost use Rattle.std.specs.Prelude.{◌≤◌, ◌<◌, vec_len, vec_capacity};
    ghost use Rattle.byte_ends.specs.Memory.{SinkView};

    ghost Value = { SinkView };

    ghost view = { λ s. record {
      held = s.bytes.items;
      room = s.room;
      piece = s.piece;
      fails = s.fails.items;
      calls = s.calls;
      faults = s.faults;
    } };

    ghost invariant = { λ s. (vec_len s.bytes ≤ s.room) × (s.room ≤ vec_capacity s.bytes)
        × (0 < s.piece) };
}

impl MemorySink {
    /// An empty sink for `room` bytes, which takes at most `piece` of them a call, with the numbers
    /// of the calls that fail. It takes no memory later.
    pub fn with_room(
        alloc: Global,
        room: u32,
        piece: u32,
        fails: Vec<u32>,
    ) -> Result<MemorySink, NoMemory>
        requires { 0 < piece }
        ensures { IfOk result (λ sink. sink ≡ record {
          held = [];
          room = room;
          piece = piece;
          fails = fails.items;
          calls = 0;
          faults = 0;
        }) }
    {
        Ok(MemorySink {
            bytes: Vec::with_capacity(alloc, room as usize)?,
            room,
            piece,
            fails,
            calls: 0,
            faults: 0,
        })
    }

    /// The bytes taken so far.
    pub fn bytes(&self) -> &[u8]
        ensures { result.now ≡ self.now.held }
    {
        self.bytes.as_slice()
    }
}

impl Sink for MemorySink {
    ghost held = { λ s. Some s.held };

    ghost faults = { λ s. s.faults };

    fn write(&mut self, bytes: &[u8]) -> Put
        requires { 0 < length bytes.now }
        ensures takes { WriteTakes (Some self.old.held) (Some self.new.held) bytes.now result }
        ensures counts { WriteCounts self.old.faults self.new.faults result }
        ensures answer { result ≡ write_answer self.old (length bytes.now) }
        ensures state { self.new ≡ after_write self.old bytes.now result }
    {
        let call = self.calls;
        self.calls = call.saturating_add(1);
        let spare = self.room as usize - self.bytes.len();
        let count = (self.piece as usize).min(bytes.len().min(spare));
        if fails_at(&self.fails, call) || spare == 0 {
            self.faults = self.faults.saturating_add(1);
            return Put::Failed;
        }
        match self.bytes.extend_from_slice(&bytes[..count]) {
            Ok(()) => Put::Took(count as u32),
            Err(_) => {
                self.faults = self.faults.saturating_add(1);
                Put::Failed
            }
        }
    }
}
