// All of some bytes, written to a sink.

ghost use Rattle.std.specs.Prelude.{◌≡◌, [], true, false};
ghost use Rattle.byte_ends.specs.Ends.{Counted, Appended, AppendedPrefix};

use crate::sink::{Put, Sink};

/// Writes all of the bytes, by as many writes as the sink needs. It answers `false` after a fault,
/// and writes nothing more.
pub fn write_all<O: Sink>(out: &mut O, bytes: &[u8]) -> bool
    ensures all { result ≡ true → Appended (O.held out.old) (O.held out.new) bytes.now }
    ensures faults { Counted result (O.faults out.old) (O.faults out.new) }
    ensures front { result ≡ false → AppendedPrefix (O.held out.old) (O.held out.new) bytes.now }
    ensures nothing { bytes.now ≡ [] → (result ≡ true) × (out.new ≡ out.old) }
{
    let mut at = 0;
    'pieces: while at < bytes.len() {
        match out.write(&bytes[at..]) {
            Put::Failed => return false,
            Put::Took(n) => at += n as usize,
        }
    }
    true
}
