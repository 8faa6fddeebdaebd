// Whole runs over memory, some of whose calls fail.

ghost use Rattle.std.specs.Prelude.{◌≡◌, ◌<◌};

use crate::ending::Ending;
use crate::top::run;
use byte_ends::{Got, MemorySink, MemorySource, Source};
use standard_streams::{Opened, OpensFiles};
use std::alloc::{AllocError, Global};
use std::test::Fail;

/// One file in memory.
#[derive(Drop)]
struct OneFile {
    name: &'static str,
    bytes: MemorySource,
    faults: u64,
}

impl Source for OneFile {
    ghost use Rattle.std.specs.Prelude.{Some};

    ghost left = { λ s. Some s.bytes.left };

    ghost faults = { λ s. s.faults };

    fn read(&mut self, buf: &mut [u8]) -> Got {
        let got = self.bytes.read(buf);
        if got == Got::Failed {
            self.faults = self.faults.saturating_add(1);
        }
        got
    }
}

impl OpensFiles for OneFile {
    ghost use Rattle.std.specs.Prelude.{Some, None, if◌then◌else◌};
    ghost use Rattle.std.specs.Str.{bytes_eq};

    // It is opened once, before it is read.
    ghost bytes_of = { λ s name. if bytes_eq name s.name.now then (Some s.bytes.left) else None };

    fn open(&mut self, name: &str) -> Opened {
        if name == self.name {
            return Opened::Open;
        }
        self.faults = self.faults.saturating_add(1);
        Opened::Failed
    }
}

/// The calls that fail: of the input, of the file, of the output.
type Fails = (&'static [u32], &'static [u32], &'static [u32]);

/// A run on an input beside the file `small`, and the calls that fail.
#[derive(Clone, Copy)]
struct Row {
    words: &'static str,
    input: &'static str,
    fails: Fails,
}

const REFUSED: &str = "refused S2 at 51\n";

const SMALL: &str = "handler one() { reply 1; }\nhandler two() { reply 2 }\n";

const PLACE: &str = "small:2:25: a token with which no file goes on\nhandler two() { reply 2 }\n\
     \x20                       ^\n= unexpected `}`: `*`, `+`, `-`, `,` or `;` is wanted here\n\
     = a statement ends with `;`\n";

const JSON: &str = "{\"advice\":[\"unexpected `}`: `*`, `+`, `-`, `,` or `;` is wanted here\",\
     \"a statement ends with `;`\"],\"column\":25,\"file\":\"small\",\"line\":2,\"rule\":\"S2\",\
     \"sentence\":\"a token with which no file goes on\"}\n";

/// The words of a command line, which stand one space apart.
fn words_of(alloc: Global, command: &str) -> Result<Vec<String>, AllocError> {
    let mut words = Vec::new(alloc);
    for word in command.split(' ') {
        words.push(String::from_str(alloc, word)?)?;
    }
    Ok(words)
}

/// A source that gives so many bytes a call, of whose calls these fail.
fn source_of(alloc: Global, text: &str, fails: &[u32]) -> Result<MemorySource, Fail> {
    let bytes = String::from_str(alloc, text)?.into_bytes();
    Ok(MemorySource::new(bytes, 7, fails.to_vec(alloc)?))
}

/// How a run ends, and whether it wrote this, and the line of its ending.
fn end_of(alloc: Global, row: Row, out: &str) -> Result<(Ending, bool, bool), Fail> {
    let words = words_of(alloc, row.words)?;
    let mut source = source_of(alloc, row.input, row.fails.0)?;
    let mut files = OneFile {
        name: "small",
        bytes: source_of(alloc, SMALL, row.fails.1)?,
        faults: 0,
    };
    let mut sink = MemorySink::with_room(alloc, 10_000, 64, row.fails.2.to_vec(alloc)?)?;
    let mut told = MemorySink::with_room(alloc, 100, 100, Vec::new(alloc))?;
    let ending = run(
        alloc,
        words.as_slice(),
        &mut source,
        &mut files,
        &mut sink,
        &mut told,
    );
    let wrote = sink.bytes() == out.as_bytes();
    Ok((ending, wrote, told.bytes() == ending.line().as_bytes()))
}

#[test]
fn runs_without_faults(rt: HostRuntime) -> Result<(), Fail> {
    for (words, input, ending, out) in [
        ("small", REFUSED, Ending::Reported, PLACE),
        ("small", "hello\n", Ending::HandedOn, "hello\n"),
        // A file is opened only where a place is named.
        ("large", "hello\n", Ending::HandedOn, "hello\n"),
        ("large", REFUSED, Ending::ReadFault, ""),
        (
            "--version",
            REFUSED,
            Ending::Reported,
            "foresight_where 2.1\n",
        ),
        ("small large", REFUSED, Ending::Usage, ""),
        ("--json small", REFUSED, Ending::Reported, JSON),
        ("--json large", "hello\n", Ending::HandedOn, "null\n"),
        ("--json", REFUSED, Ending::Usage, ""),
    ] {
        let fails: Fails = (&[], &[], &[]);
        let found = end_of(
            rt.alloc(),
            Row {
                words,
                input,
                fails,
            },
            out,
        )?;
        assert_eq!(rt; found, (ending, true, true), "{words} {input}");
    }
    Ok(())
}

#[test]
fn runs_with_a_fault(rt: HostRuntime) -> Result<(), Fail> {
    // The second read of the input or of the file, or the second write.
    let none: &'static [u32] = &[];
    let second: &'static [u32] = &[1];
    for (fails, ending, out) in [
        ((second, none, none), Ending::ReadFault, ""),
        ((none, second, none), Ending::ReadFault, ""),
        ((none, none, second), Ending::WriteFault, &PLACE[..64]),
    ] {
        let row = Row {
            words: "small",
            input: REFUSED,
            fails,
        };
        let found = end_of(rt.alloc(), row, out)?;
        assert_eq!(rt; found, (ending, true, true), "{out}");
    }
    Ok(())
}

#[test]
fn a_refusal_among_other_lines(rt: HostRuntime) -> Result<(), Fail> {
    let mut out = String::from_str(rt.alloc(), "refused S2 at x\n")?;
    out.push_str(PLACE)?;
    out.push_str("refused S2 at 3\nand the end")?;
    let row = Row {
        words: "small",
        input: "refused S2 at x\nrefused S2 at 51\nrefused S2 at 3\nand the end",
        fails: (&[], &[], &[]),
    };
    let found = end_of(rt.alloc(), row, out.as_str())?;
    assert_eq!(rt; found, (Ending::Reported, true, true));
    Ok(())
}
