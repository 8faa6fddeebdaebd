// A text in memory.

ghost use Rattle.std.specs.Prelude.{◌≡◌, ◌++◌, ℕ, List, [], IfOk, string_bytes};

use crate::text_sink::{PutsText, TextSink};
use session_values::NoMemory;
use std::alloc::Global;

/// A text that is kept in memory. Once that runs out, what is put is dropped.
#[derive(Drop)]
struct TextBuffer {
    text: String,
    short: bool,
}

impl TextSink for TextBuffer {
    ghost use Rattle.std.specs.Prelude.{◌≡◌, ◌++◌, false, string_bytes};

    // What it holds, with what is still to come, is the whole text, unless memory ran out.
    ghost IsDue = { λ start whole now rest. now.short ≡ false
        → string_bytes now.text ++ rest ≡ whole };

    fn put(&mut self, text: &str) {
        if self.short {
            return;
        }
        self.short = self.text.push_str(text).is_err();
    }
}

/// A text as a string, for which `room` bytes are reserved ahead; it may be longer.
pub fn text_in_memory<P: PutsText>(alloc: Global, room: usize, text: &P) -> Result<String, NoMemory>
    requires { P.CanPut text.now }
    ensures { IfOk result (λ made. string_bytes made ≡ P.text text.now) }
{
    let mut buffer = TextBuffer {
        text: String::with_capacity(alloc, room)?,
        short: false,
    };
    text.put_text(&mut buffer);
    let TextBuffer { text: made, short } = buffer;
    if short { Err(NoMemory) } else { Ok(made) }
}
