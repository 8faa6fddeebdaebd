// The lines of some events, one of each kind.

ghost use Rattle.std.specs.Prelude.{◌≡◌, [], ◌∷◌, IfOk};
ghost use Rattle.tests_traces.specs.Lines.{two_names};
ghost use Rattle.trace_lines.specs.EventText.{CanWrite};

use byte_ends::WriteBuffer;
use session_journal::Event;
use session_values::{Kind, Names, NoMemory, Op, Reply, Value};
use std::alloc::Global;
use std::process::Abort;
use symbolic_ops::{Arg, Symbol};
use trace_lines::push_event_line;

/// The names of a table and of a symbol.
pub(crate) fn table_and_symbol(alloc: Global) -> Result<Names, NoMemory>
    ensures { IfOk result (λ names. names ≡ two_names) }
{
    let mut names = Names::new(alloc)?;
    names.place("m")?;
    names.place("x")?;
    Ok(names)
}

/// Appends the line of an event that tells of the table.
fn push<R: Abort>(rt: &R, e: Event, names: &Names, buffer: &mut WriteBuffer)
    requires { CanWrite names.now (0 ∷ []) e }
{
    if !buffer.reserve(434) {
        rt.panic("no room")
    }
    push_event_line(&e, &[0], names, buffer);
}

fn begin() -> Event
    ensures { CanWrite two_names (0 ∷ []) result }
{
    Event::Begin {
        ticket: 0,
        caller: 31,
    }
}

fn done() -> Event
    ensures { CanWrite two_names (0 ∷ []) result }
{
    Event::Done {
        ticket: 0,
        op: Op::new(Kind::Put, 0, Value::Sym(1), Value::Num(-5)),
        reply: Value::Nil,
    }
}

/// The key of the older ticket's symbol is a place without a name, and its value may be any.
fn delay() -> Event
    ensures { CanWrite two_names (0 ∷ []) result }
{
    Event::Delay {
        ticket: 1,
        op: Op::new(Kind::Size, 0, Value::Nil, Value::Nil),
        older: 0,
        symbol: Symbol::new(Kind::Put, 0, Arg::Known(Value::Sym(2)), Arg::Any),
    }
}

fn end() -> Event
    ensures { CanWrite two_names (0 ∷ []) result }
{
    Event::End {
        ticket: 0,
        reply: Reply::new(2, Value::Num(7), Value::Sym(1), Value::Nil, Value::Nil),
    }
}

#[test]
fn lines_of_events(rt: HostRuntime) {
    let names = table_and_symbol(rt.alloc()).expect(&rt, "memory");
    let mut buffer = WriteBuffer::new(rt.alloc()).expect(&rt, "memory");
    push(&rt, begin(), &names, &mut buffer);
    push(&rt, done(), &names, &mut buffer);
    push(&rt, delay(), &names, &mut buffer);
    push(&rt, end(), &names, &mut buffer);
    let wanted = "begin 0 31\ndone 0 put m 'x -5 nil\ndelay 1 size m 0 put m any any\nend 0 7 'x\n";
    assert!(rt; buffer.bytes() == wanted.as_bytes());
}
