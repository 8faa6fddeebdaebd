// A source in memory that never fails.

ghost use Rattle.std.specs.Prelude.{◌≡◌, ◌≤◌, ◌<◌, length, drop, Some, ℕ};
ghost use Rattle.byte_ends.specs.Ends.{ReadGives};
ghost use Rattle.byte_ends.specs.Memory.{sure_answer};

use crate::source::{Got, Source};
use std::marker::Model;

/// Bytes in memory, of which each read gives all that fit. No read fails.
#[derive(Drop)]
pub struct SureSource {
    bytes: Vec<u8>,
    at: usize,
}

impl Model for SureSource {
    ghost use Rattle.std.specs.Prelude.{List, ℕ, ◌≤◌, drop, vec_len};

    ghost Value = { List ℕ };

    ghost view = { λ s. drop s.at s.bytes.items };

    ghost invariant = { λ s. s.at ≤ vec_len s.bytes };
}

impl SureSource {
    /// A source of these bytes.
    pub fn new(bytes: Vec<u8>) -> SureSource
        ensures { result ≡ bytes.items }
    {
        SureSource { bytes, at: 0 }
    }
}

impl Source for SureSource {
    ghost left = { λ s. Some s };

    ghost faults = { λ _. 0 };

    fn read(&mut self, buf: &mut [u8]) -> Got
        requires { 0 < length buf.old }
        ensures gives { ReadGives (Some self.old) (Some self.new) buf.new result }
        ensures answer { result ≡ sure_answer (length self.old) (length buf.old) }
    {
        let left = self.bytes.len() - self.at;
        if left == 0 {
            return Got::End;
        }
        let count = left.min(buf.len()).min(u32::MAX as usize);
        buf[..count].copy_from_slice(&self.bytes[self.at..self.at + count]);
        self.at += count;
        Got::Bytes(count as u32)
    }
}
