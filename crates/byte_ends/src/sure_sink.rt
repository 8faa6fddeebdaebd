// A sink that keeps nothing.

ghost use Rattle.std.specs.Prelude.{◌≡◌, ◌≤◌, ◌<◌, ◌-◌, ◌^◌, min, length, None};

use crate::sink::{Put, Sink};

/// Takes all bytes, keeps none, and tells none. No write fails.
#[derive(Clone, Copy, Debug, PartialEq, Eq)]
pub struct SureSink;

impl Sink for SureSink {
    ghost held = { λ _. None };

    ghost faults = { λ _. 0 };

    fn write(&mut self, bytes: &[u8]) -> Put
        requires { 0 < length bytes.now }
        ensures { result ≡ Put.Took (min (length bytes.now) (2 ^ 32 - 1)) }
    {
        Put::Took(bytes.len().min(u32::MAX as usize) as u32)
    }
}
