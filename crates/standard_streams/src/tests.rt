// Reads and writes that signals interrupt, and texts of all bytes that go through whole: no clause
// can ask that a call fails only if std's did. They stand here since the adapters are the program's
// own.

ghost use Rattle.std.specs.Prelude.{◌≡◌, IfOk};

use crate::input::Input;
use crate::output::Output;
use byte_ends::{Got, Put, Sink, Source};
use std::alloc::Global;
use std::io::{Error, ErrorKind, Read, Result, Write};
use std::test::Fail;

// Interrupts so many calls. A read then gives one byte, and a write takes one.
#[derive(Drop)]
struct Interrupting(u32);

impl Interrupting {
    fn call(&mut self) -> Result<usize>
        ensures { IfOk result (λ n. n ≡ 1) }
    {
        if self.0 > 0 {
            self.0 -= 1;
            return Err(Error::from(ErrorKind::Interrupted));
        }
        Ok(1)
    }
}

impl Read for Interrupting {
    fn read(&mut self, buf: &mut [u8]) -> Result<usize> {
        if buf.is_empty() { Ok(0) } else { self.call() }
    }
}

impl Write for Interrupting {
    fn write(&mut self, buf: &[u8]) -> Result<usize> {
        if buf.is_empty() { Ok(0) } else { self.call() }
    }

    fn flush(&mut self) -> Result<()> {
        Ok(())
    }
}

#[test]
fn interrupted_calls_are_tried_again(rt: HostRuntime) {
    for (times, got, put) in [
        (0, Got::Bytes(1), Put::Took(1)),
        (3, Got::Bytes(1), Put::Took(1)),
        (999, Got::Bytes(1), Put::Took(1)),
        (1000, Got::Failed, Put::Failed),
    ] {
        let mut source = Input::over(Interrupting(times));
        assert_eq!(rt; source.read(&mut [0; 4]), got, "{times}");
        let mut sink = Output::over(Interrupting(times));
        assert_eq!(rt; sink.write(b"text"), put, "{times}");
    }
}

/// Lengths of a buffer: small ones, and those about the most that one call hands over.
const LENGTHS: [usize; 8] = [1, 2, 255, 4096, 16384, 65535, 65536, 65537];

// More bytes than one call hands over, each value among them.
fn all_bytes(alloc: Global) -> std::result::Result<Vec<u8>, Fail> {
    let mut text = Vec::new(alloc);
    for _ in 0..257 {
        for byte in 0..=255u8 {
            text.push(byte)?;
        }
    }
    Ok(text)
}

// All that a source gives into a buffer of this length, up to its end; nothing where a read fails.
fn read_through(alloc: Global, text: &[u8], length: usize) -> std::result::Result<Vec<u8>, Fail> {
    let mut source = Input::over(text);
    let mut buf = Vec::new(alloc);
    buf.resize(length.clamp(1, 65537), 0)?;
    let mut got = Vec::new(alloc);
    for _ in 0..=text.len() {
        match source.read(buf.as_mut_slice()) {
            Got::Bytes(n) => got.extend_from_slice(&buf.as_slice()[..n as usize])?,
            Got::End => return Ok(got),
            Got::Failed => return Ok(Vec::new(alloc)),
        }
    }
    Ok(Vec::new(alloc))
}

// All that a sink takes of a text that is handed over in pieces of this length, up to a write that
// fails.
fn write_through(alloc: Global, text: &[u8], length: usize) -> Vec<u8> {
    let mut held = Vec::new(alloc);
    let mut sink = Output::over(&mut held);
    let mut at = 0;
    for _ in 0..text.len() {
        let rest = text.get(at..).unwrap_or_default();
        let piece = &rest[..rest.len().min(length.max(1))];
        if piece.is_empty() {
            break;
        }
        match sink.write(piece) {
            Put::Took(n) => at = at.saturating_add(n as usize),
            Put::Failed => break,
        }
    }
    held
}

#[test]
fn all_bytes_go_through(rt: HostRuntime) -> std::result::Result<(), Fail> {
    let alloc = rt.alloc();
    let text = all_bytes(alloc)?;
    for length in LENGTHS {
        let read = read_through(alloc, text.as_slice(), length)?;
        assert_eq!(rt; read.as_slice() == text.as_slice(), true, "{length}");
        let written = write_through(alloc, text.as_slice(), length);
        assert_eq!(rt; written.as_slice() == text.as_slice(), true, "{length}");
    }
    Ok(())
}
