// A source in memory.

ghost use Rattle.std.specs.Prelude.{◌≡◌, ◌≤◌, ◌<◌, length, drop, Some};
ghost use Rattle.byte_ends.specs.Ends.{ReadGives, ReadCounts};
ghost use Rattle.byte_ends.specs.Memory.{read_answer, after_read};

use crate::calls::fails_at;
use crate::source::{Got, Source};
use std::marker::Model;

/// Bytes in memory, given in pieces. Calls are numbered from 0, and those in a list fail.
#[derive(Drop)]
pub struct MemorySource {
    bytes: Vec<u8>,
    at: usize,
    piece: u32,
    fails: Vec<u32>,
    calls: u64,
    faults: u64,
}

impl Model for MemorySource {
    ghost use Rattle.std.specs.Prelude.{◌≤◌, ◌<◌, drop, vec_len};
    ghost use Rattle.byte_ends.specs.Memory.{SourceView};

    ghost Value = { SourceView };

    ghost view = { λ s. record {
      left = drop s.at s.bytes.items;
      piece = s.piece;
      fails = s.fails.items;
      calls = s.calls;
      faults = s.faults;
    } };

    ghost invariant = { λ s. (s.at ≤ vec_len s.bytes) × (0 < s.piece) };
}

impl MemorySource {
    /// These bytes, at most `piece` of them a call, with the numbers of the calls that fail.
    pub fn new(bytes: Vec<u8>, piece: u32, fails: Vec<u32>) -> MemorySource
        requires { 0 < piece }
        ensures { result ≡ record {
          left = bytes.items;
          piece = piece;
          fails = fails.items;
          calls = 0;
          faults = 0;
        } }
    {
        MemorySource {
            bytes,
            at: 0,
            piece,
            fails,
            calls: 0,
            faults: 0,
        }
    }
}

impl Source for MemorySource {
    ghost left = { λ s. Some s.left };

    ghost faults = { λ s. s.faults };

    fn read(&mut self, buf: &mut [u8]) -> Got
        requires { 0 < length buf.old }
        ensures gives { ReadGives (Some self.old.left) (Some self.new.left) buf.new result }
        ensures counts { ReadCounts self.old.faults self.new.faults result }
        ensures answer { result ≡ read_answer self.old (length buf.old) }
        ensures state { self.new ≡ after_read self.old result }
    {
        let call = self.calls;
        self.calls = call.saturating_add(1);
        if fails_at(&self.fails, call) {
            self.faults = self.faults.saturating_add(1);
            return Got::Failed;
        }
        let left = self.bytes.len() - self.at;
        if left == 0 {
            return Got::End;
        }
        let count = (self.piece as usize).min(buf.len().min(left));
        buf[..count].copy_from_slice(&self.bytes[self.at..self.at + count]);
        self.at += count;
        Got::Bytes(count as u32)
    }
}
