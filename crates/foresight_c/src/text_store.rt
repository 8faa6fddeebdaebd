// A sink that keeps a whole text.

ghost use Rattle.std.specs.Prelude.{◌≡◌, [], Some};

use byte_ends::{Put, Sink};
use std::alloc::Global;

/// All bytes that were written. A write fails only if memory runs out.
#[derive(Drop)]
pub(crate) struct TextStore {
    bytes: Vec<u8>,
    faults: u64,
}

impl TextStore {
    /// An empty one.
    pub(crate) fn new(alloc: Global) -> TextStore
        ensures bytes { result.bytes.items ≡ [] }
        ensures faults { result.faults ≡ 0 }
    {
        TextStore {
            bytes: Vec::new(alloc),
            faults: 0,
        }
    }

    /// The bytes written so far.
    pub(crate) fn bytes(&self) -> &[u8]
        ensures { result.now ≡ self.now.bytes.items }
    {
        self.bytes.as_slice()
    }
}

impl Sink for TextStore {
    ghost held = { λ s. Some s.bytes.items };

    ghost faults = { λ s. s.faults };

    fn write(&mut self, bytes: &[u8]) -> Put {
        let count = bytes.len().min(u32::MAX as usize);
        match self.bytes.extend_from_slice(&bytes[..count]) {
            Ok(()) => Put::Took(count as u32),
            Err(_) => {
                self.faults = self.faults.saturating_add(1);
                Put::Failed
            }
        }
    }
}
