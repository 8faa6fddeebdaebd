// A reader of std as a source.

ghost use Rattle.std.specs.Prelude.{◌≡◌};
ghost use Rattle.std.specs.Io.{ReadsAtMost};
ghost use Rattle.std.specs.Io.KnownBytes.{ReadConsumes};

use crate::tries::TRIES;
use byte_ends::{Got, Source};
use std::io;
use std::io::{ErrorKind, Read};

/// The most bytes that one read asks for.
pub(crate) const PIECE: usize = 65536;

/// A reader as a source. What is left of it is what the reader tells, which is nothing for a
/// stream of the program.
#[derive(Drop)]
pub struct Input<R> {
    inner: R,
    faults: u64,
}

impl<R> Input<R> {
    pub fn over(inner: R) -> Input<R>
        ensures { result ≡ record { inner = inner; faults = 0 } }
    {
        Input { inner, faults: 0 }
    }
}

impl<R: Read> Source for Input<R> {
    ghost left = { λ s. R.remaining s.inner };

    ghost faults = { λ s. s.faults };

    fn read(&mut self, buf: &mut [u8]) -> Got {
        let most = buf.len().min(PIECE);
        match read_again(&mut self.inner, &mut buf[..most]) {
            Ok(0) => Got::End,
            Ok(n) => Got::Bytes(n as u32),
            Err(_) => {
                self.faults = self.faults.saturating_add(1);
                Got::Failed
            }
        }
    }
}

/// One read, tried again where a signal interrupted it.
pub(crate) fn read_again<R: Read>(reader: &mut R, buf: &mut [u8]) -> io::Result<usize>
    ensures bound { ReadsAtMost result buf.new }
    ensures bytes { ReadConsumes (R.remaining reader.old) (R.remaining reader.new) result buf.new }
{
    for _ in 1..TRIES {
        match reader.read(buf) {
            Err(e) if e.kind() == ErrorKind::Interrupted => {}
            read => return read,
        }
    }
    reader.read(buf)
}
