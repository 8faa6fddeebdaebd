// The sources and sinks in memory, and reading and writing over them.

use byte_ends::{
    Got, MemorySink, MemorySource, Put, Sink, Source, SureSink, SureSource, Unread, read_all,
    write_all,
};
use session_values::MAX_INPUT;
use std::alloc::Global;
use std::test::Fail;

// What six reads into four bytes give, of five bytes in pieces of three, where two reads fail; and
// what the four bytes are after each.
fn reads(alloc: Global) -> Result<[(Got, [u8; 4]); 6], Fail> {
    let fails = [1u32, 3].to_vec(alloc)?;
    let mut source = MemorySource::new(b"abcde".to_vec(alloc)?, 3, fails);
    let mut buf = *b"....";
    let mut given = [(Got::End, buf); 6];
    for read in &mut given {
        let got = source.read(&mut buf);
        *read = (got, buf);
    }
    Ok(given)
}

#[test]
fn memory_source_gives_pieces_and_fails(rt: HostRuntime) -> Result<(), Fail> {
    let given = reads(rt.alloc())?;
    let want = [
        (Got::Bytes(3), *b"abc."),
        (Got::Failed, *b"abc."),
        (Got::Bytes(2), *b"dec."),
        (Got::Failed, *b"dec."),
        (Got::End, *b"dec."),
        (Got::End, *b"dec."),
    ];
    assert_eq!(rt; given, want);
    Ok(())
}

// What four writes into room for six bytes take, in pieces of four, where one fails; and whether
// the six bytes are held.
fn writes(alloc: Global) -> Result<([Put; 4], bool), Fail> {
    let fails = [1u32].to_vec(alloc)?;
    let mut sink = MemorySink::with_room(alloc, 6, 4, fails)?;
    let taken = [
        sink.write(b"abcde"),
        sink.write(b"e"),
        sink.write(b"efg"),
        sink.write(b"g"),
    ];
    Ok((taken, sink.bytes() == b"abcdef".as_slice()))
}

#[test]
fn memory_sink_takes_pieces_up_to_its_room(rt: HostRuntime) -> Result<(), Fail> {
    let taken = writes(rt.alloc())?;
    let want = [Put::Took(4), Put::Failed, Put::Took(2), Put::Failed];
    assert_eq!(rt; taken, (want, true));
    Ok(())
}

// Three reads into three bytes of a source of five that never fails, and what the bytes are then.
fn sure_reads(alloc: Global) -> Result<([Got; 3], [u8; 3]), Fail> {
    let mut source = SureSource::new(b"abcde".to_vec(alloc)?);
    let mut buf = *b"...";
    let given = [
        source.read(&mut buf),
        source.read(&mut buf),
        source.read(&mut buf),
    ];
    Ok((given, buf))
}

#[test]
fn sure_ends_never_fail(rt: HostRuntime) -> Result<(), Fail> {
    let given = sure_reads(rt.alloc())?;
    let taken = (SureSink.write(b"abcde"), write_all(&mut SureSink, b"abcde"));
    let read = ([Got::Bytes(3), Got::Bytes(2), Got::End], *b"dec");
    assert_eq!(rt; (given, taken), (read, (Put::Took(5), true)));
    Ok(())
}

// Whether ten bytes are read in pieces of three.
fn reads_pieces(alloc: Global) -> Result<bool, Fail> {
    let text = b"ten bytes!";
    let mut source = MemorySource::new(text.to_vec(alloc)?, 3, Vec::new(alloc));
    let read = read_all(alloc, &mut source)?;
    Ok(read.as_slice() == text.as_slice())
}

// How reading ends where the third read fails, and what the next read gives.
fn breaks_off(alloc: Global) -> Result<(Option<Unread>, Got, [u8; 4]), Fail> {
    let fails = [2u32].to_vec(alloc)?;
    let mut source = MemorySource::new(b"ten bytes!".to_vec(alloc)?, 3, fails);
    let read = read_all(alloc, &mut source).err();
    let mut buf = *b"....";
    let got = source.read(&mut buf);
    Ok((read, got, buf))
}

#[test]
fn all_is_read_in_pieces(rt: HostRuntime) -> Result<(), Fail> {
    let is_read = reads_pieces(rt.alloc())?;
    let broken = breaks_off(rt.alloc())?;
    let want = (Some(Unread::Failed), Got::Bytes(3), *b"tes.");
    assert_eq!(rt; (is_read, broken), (true, want));
    Ok(())
}

// How many bytes are read of so many, and how reading ends; then how many are left, read into
// eight bytes.
fn reads_of(alloc: Global, count: usize) -> Result<(usize, Option<Unread>, Got), Fail> {
    let mut source = SureSource::new(vec![in alloc; 7u8; count]?);
    let (len, refused) = match read_all(alloc, &mut source) {
        Ok(bytes) => (bytes.len(), None),
        Err(unread) => (0, Some(unread)),
    };
    let mut buf = [0u8; 8];
    Ok((len, refused, source.read(&mut buf)))
}

#[test]
fn input_is_bounded(rt: HostRuntime) -> Result<(), Fail> {
    let most = reads_of(rt.alloc(), MAX_INPUT)?;
    let one_more = reads_of(rt.alloc(), MAX_INPUT + 1)?;
    let four_more = reads_of(rt.alloc(), MAX_INPUT + 4)?;
    let too_large = Some(Unread::TooLarge);
    assert_eq!(rt;
        [most, one_more, four_more],
        [
            (4_194_304, None, Got::End),
            (0, too_large, Got::End),
            (0, too_large, Got::Bytes(3)),
        ]
    );
    Ok(())
}

// Whether two lines are written, the first by a write that fails, and what is held after each.
fn fails_once(alloc: Global) -> Result<[bool; 4], Fail> {
    let fails = [1u32].to_vec(alloc)?;
    let mut sink = MemorySink::with_room(alloc, 100, 4, fails)?;
    let first = write_all(&mut sink, b"0 nil\n");
    let has_front = sink.bytes() == b"0 ni".as_slice();
    let second = write_all(&mut sink, b"l\n1 5\n");
    let has_all = sink.bytes() == b"0 nil\n1 5\n".as_slice();
    Ok([first, has_front, second, has_all])
}

#[test]
fn a_failed_write_leaves_a_front(rt: HostRuntime) -> Result<(), Fail> {
    let wrote = fails_once(rt.alloc())?;
    assert_eq!(rt; wrote, [false, true, true, true]);
    Ok(())
}
