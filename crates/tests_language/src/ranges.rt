// Range sessions: what lines write, and the first fault of each kind.

use range_tables::{RangeRefusal, ranges_text};
use session_values::MAX_INPUT;
use std::alloc::Global;
use std::process::Abort;

// Whether the lines write this text.
fn writes(alloc: Global, lines: &str, want: &str) -> bool {
    if lines.len() > MAX_INPUT {
        return false;
    }
    match ranges_text(alloc, lines) {
        Ok(text) => text.as_slice() == want.as_bytes(),
        Err(_) => false,
    }
}

// The first fault of the lines.
fn fault(alloc: Global, lines: &str) -> Option<RangeRefusal> {
    if lines.len() > MAX_INPUT {
        return None;
    }
    match ranges_text(alloc, lines) {
        Ok(_) => None,
        Err(e) => Some(e),
    }
}

// A text so many times.
fn repeated<R: Abort>(rt: &R, alloc: Global, text: &str, times: u32) -> String {
    let mut all = String::new(alloc);
    for _ in 0..times {
        all.push_str(text).expect(rt, "memory");
    }
    all
}

#[test]
fn lines_are_answered(rt: HostRuntime) {
    let alloc = rt.alloc();
    let worked = "hold between 0 9 ; get 100..200\ndo put 5 1\ndo put 50 1\ndo put 150 2\n\
do bump 5 nil\nfree 0\ndo put 5 1\ndo between 0 60\ndo size\n";
    let answer = "0 delayed 0 0\n1 nil\n2 delayed 0 1\n3 nil\n4 nil\n5 2\n6 2\n";
    assert!(&rt; writes(alloc, worked, answer));
    let symbols =
        "# names\nhold # none\nhold put any 7\n\ndo put a get\ndo swap a 7\nfree 1\ndo swap a 7";
    assert!(&rt; writes(alloc, symbols, "0 delayed 1 0\n1 delayed 1 0\n2 nil\n"));
}

#[test]
fn the_first_fault_is_named(rt: HostRuntime) {
    let alloc = rt.alloc();
    let unknown = Some(RangeRefusal::UnknownWord { line: 2 });
    assert!(&rt; fault(alloc, "\nhold get 1 ;\nfree 3") == unknown);
    assert!(&rt; fault(alloc, "do size\nhold get 1 2 ; put 1 any ; count") == unknown);
    let arity = Some(RangeRefusal::Arity { line: 1 });
    assert!(&rt; fault(alloc, "do") == arity);
    assert!(&rt; fault(alloc, "hold get 1..x ; between 1") == arity);
    let bad = Some(RangeRefusal::BadWord { line: 1 });
    assert!(&rt; fault(alloc, "do put any 1") == bad);
    assert!(&rt; fault(alloc, "do get 1..2") == bad);
    assert!(&rt; fault(alloc, "free x") == bad);
    let closed = Some(RangeRefusal::NotOpen { line: 3 });
    assert!(&rt; fault(alloc, "hold\nfree 0\nfree 0\ndo") == closed);
    assert!(&rt; fault(alloc, "hold\nhold\nfree -1") == closed);
}

#[test]
fn too_many_are_refused(rt: HostRuntime) {
    let alloc = rt.alloc();
    let holds = repeated(&rt, alloc, "hold\n", 65);
    assert!(&rt; fault(alloc, holds.as_str()) == Some(RangeRefusal::TooMany { line: 65 }));
    let mut symbols = repeated(&rt, alloc, "; ", 256);
    symbols.insert_str(0, "hold ").expect(&rt, "memory");
    assert!(&rt; fault(alloc, symbols.as_str()) == Some(RangeRefusal::TooMany { line: 1 }));
    let lines = repeated(&rt, alloc, "do size\n", 4001);
    assert!(&rt; fault(alloc, lines.as_str()) == Some(RangeRefusal::TooMany { line: 4001 }));
}
