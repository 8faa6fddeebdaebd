// Trace parts that are read, over the map `m` and with the name `x` there before.

ghost use Rattle.std.specs.Prelude.{◌≡◌, ◌≤◌, length};
ghost use Rattle.tests_traces.specs.Lines.{two_names};

use crate::event_lines::table_and_symbol;
use session_journal::Event;
use session_values::{Kind, Names, Op, Reply, TableKind, Value};
use std::alloc::Global;
use std::process::Abort;
use symbolic_ops::{Arg, Symbol};
use trace_audit::Trace;
use trace_lines::{TraceRefusal, read_trace};

/// Lines that are no event's.
const BAD_LINES: [&str; 22] = [
    "begun 0 0",
    "begin 0",
    "begin 0 1 2",
    "begin 00 1",
    "begin 0 01",
    "begin +1 1",
    "begin -0 1",
    "begin 4294967296 0",
    "begin 0 # 1",
    "done 0 put m 1 7",
    "done 0 put q 1 7 nil",
    "done 0 has m 1 1",
    "done 0 size m 1 0",
    "done 0 put m 1 +7 nil",
    "done 0 put m 1 9223372036854775808 nil",
    "done 0 put m any 1 nil",
    "done 0 put m x 1 nil",
    "delay 1 size m 0 put m any",
    "delay 1 size m 'x put m any any",
    "end 0",
    "end 0 1 2 3 4 5",
    "end 0 'nil",
];

/// The trace of a text whose first line is the seventh, or its fault.
fn read(alloc: Global, text: &str, names: &mut Names) -> Result<Trace, TraceRefusal>
    requires names { names.old ≡ two_names }
    requires text { length text.now ≤ 4000000 }
{
    read_trace(alloc, &[0], &[TableKind::Map], text, 7, names)
}

/// The fault of a text.
fn fault<R: Abort>(rt: &R, alloc: Global, text: &str) -> TraceRefusal {
    let mut names = table_and_symbol(alloc).expect(rt, "memory");
    if text.len() > 4_000_000 {
        rt.panic("a long text")
    }
    match read(alloc, text, &mut names) {
        Ok(_) => rt.panic("no fault"),
        Err(e) => e,
    }
}

/// The events of the first text below.
fn wanted() -> [Event; 4] {
    [
        Event::Begin {
            ticket: 0,
            caller: 31,
        },
        Event::Done {
            ticket: 0,
            op: Op::new(Kind::Put, 0, Value::Sym(2), Value::Num(-7)),
            reply: Value::Nil,
        },
        Event::Delay {
            ticket: 4294967295,
            op: Op::new(Kind::Size, 0, Value::Nil, Value::Nil),
            older: 0,
            symbol: Symbol::new(Kind::Put, 0, Arg::Any, Arg::Known(Value::Sym(1))),
        },
        Event::End {
            ticket: 0,
            reply: Reply::new(4, Value::Num(0), Value::Sym(1), Value::Nil, Value::Num(4)),
        },
    ]
}

/// Line ends of two bytes, comments, lines without words, blanks, leading zeros of values, and a new
/// name, whose place is behind the others.
#[test]
fn events_of_lines(rt: HostRuntime) {
    let alloc = rt.alloc();
    let mut names = table_and_symbol(alloc).expect(&rt, "memory");
    let text = "# a trace\r\n\nbegin 0 31\r\n  done 0 put m 'y -007\tnil # as it was\n \n\
        delay 4294967295 size m 0 put m any 'x\nend 0 -0 'x nil 04";
    assert!(rt; text.len() <= 4_000_000);
    let trace = read(alloc, text, &mut names).expect(&rt, "a trace");
    let wanted = wanted();
    assert!(rt; trace.events() == wanted.as_slice());
    assert!(rt; trace.line(0) == 9 && trace.line(1) == 10);
    assert!(rt; trace.line(2) == 12 && trace.line(3) == 13);
    assert!(rt; names.len() == 3);
}

#[test]
fn lines_that_are_no_events(rt: HostRuntime) {
    for line in BAD_LINES {
        let refusal = fault(&rt, rt.alloc(), line);
        assert!(rt; refusal == TraceRefusal::BadEvent { line: 7 });
    }
}
