// A writer of std as a sink.

ghost use Rattle.std.specs.Prelude.{◌≡◌};
ghost use Rattle.std.specs.Io.{WritesAtMost};
ghost use Rattle.std.specs.Io.KnownBytes.{WriteAppends};

use crate::tries::TRIES;
use byte_ends::{Put, Sink};
use std::io;
use std::io::{ErrorKind, Write};

/// The most bytes that one write hands over.
const PIECE: usize = 65536;

/// A writer as a sink. What it holds is what the writer tells, which is nothing for a stream of
/// the program.
#[derive(Drop)]
pub struct Output<W> {
    inner: W,
    faults: u64,
}

impl<W> Output<W> {
    pub fn over(inner: W) -> Output<W>
        ensures { result ≡ record { inner = inner; faults = 0 } }
    {
        Output { inner, faults: 0 }
    }
}

impl<W: Write> Sink for Output<W> {
    ghost held = { λ s. W.contents s.inner };

    ghost faults = { λ s. s.faults };

    fn write(&mut self, bytes: &[u8]) -> Put {
        let most = bytes.len().min(PIECE);
        match write_again(&mut self.inner, &bytes[..most]) {
            Ok(n) if n > 0 => Put::Took(n as u32),
            _ => {
                self.faults = self.faults.saturating_add(1);
                Put::Failed
            }
        }
    }
}

/// One write, tried again where a signal interrupted it.
fn write_again<W: Write>(writer: &mut W, bytes: &[u8]) -> io::Result<usize>
    ensures bound { WritesAtMost result bytes.now }
    ensures bytes { WriteAppends (W.contents writer.old) (W.contents writer.new) result bytes.now }
{
    for _ in 1..TRIES {
        match writer.write(bytes) {
            Err(e) if e.kind() == ErrorKind::Interrupted => {}
            written => return written,
        }
    }
    writer.write(bytes)
}
