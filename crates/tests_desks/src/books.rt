// A book over a list of tickets: the youngest of three waits until both others narrow, and all end.

ghost use Rattle.std.specs.Prelude.{◌≡◌, ◌<◌, ◌≤◌, None, IfOk, length};
ghost use Rattle.session_values.specs.Limits.{max_symbols};
ghost use Rattle.session_journal.specs.Journal.{begun};
ghost use Rattle.admission_book.specs.Book.{after_begin, record_of};
ghost use Rattle.admission_book.specs.Lawful.{Lawful};
ghost use Rattle.tests_desks.specs.BookRows.{IsAt, all_begun, all_ended, get_of, gets_and_put, has_put, list_entry, meaning_of, nil_reply, put_of};

use admission_book::{Admission, Book};
use session_journal::{Event, ListScript, Script};
use session_values::{Kind, NoMemory, Op, Reply, TableKind, Value};
use std::alloc::Global;
use std::process::Abort;
use symbolic_ops::{Foresight, Symbol};

pub(crate) fn nil() -> Reply
    ensures { result ≡ nil_reply }
{
    Reply::new(1, Value::Nil, Value::Nil, Value::Nil, Value::Nil)
}

pub(crate) fn put_2() -> Op
    ensures { result ≡ put_of 2 7 }
{
    Op::new(Kind::Put, 0, Value::Num(2), Value::Num(7))
}

pub(crate) fn put_1() -> Op
    ensures { result ≡ put_of 1 7 }
{
    Op::new(Kind::Put, 0, Value::Num(1), Value::Num(7))
}

pub(crate) fn get_1() -> Op
    ensures { result ≡ get_of 1 }
{
    Op::new(Kind::Get, 0, Value::Num(1), Value::Nil)
}

fn get_2() -> Op
    ensures { result ≡ get_of 2 }
{
    Op::new(Kind::Get, 0, Value::Num(2), Value::Nil)
}

/// Two tickets that may get two keys, and one that puts the second key.
fn three_tickets(alloc: Global) -> Result<ListScript, NoMemory>
    ensures { IfOk result (λ s. s ≡ gets_and_put) }
{
    let mut script = ListScript::with_room(alloc, &[TableKind::Map], 3, 1, 5)?;
    script.ticket(nil());
    script.allow(Symbol::exact(&get_1()));
    script.allow(Symbol::exact(&get_2()));
    script.ticket(nil());
    script.allow(Symbol::exact(&get_1()));
    script.allow(Symbol::exact(&get_2()));
    script.ticket(nil());
    script.call(put_2());
    Ok(script)
}

/// Begins the next ticket with what it declares.
pub(crate) fn begin_next<R: Abort>(
    rt: &R,
    book: &mut Book<ListScript>,
    caller: u32,
    scratch: &mut Foresight,
)
    requires lawful { Lawful (meaning_of book.old.script) book.old.book }
    requires caller { caller < length book.old.book.records }
    requires idle { record_of book.old.book caller ≡ None }
    requires room { max_symbols ≤ scratch.old.room }
    ensures script { book.new.script ≡ book.old.script }
    ensures begins { book.new.book ≡ after_begin book.old.book caller
        (list_entry book.old.script (begun book.old.book.journal)) }
    ensures lawful { Lawful (meaning_of book.new.script) book.new.book }
    ensures room { scratch.new.room ≡ scratch.old.room }
{
    let Some(t) = book.next_ticket() else {
        rt.panic("no ticket")
    };
    book.script().entry(t, scratch);
    book.begin(caller, scratch);
}

/// The book of three tickets for three callers, with all begun.
fn begin_all<R: Abort>(rt: &R, alloc: Global, scratch: &mut Foresight) -> Book<ListScript>
    requires { max_symbols ≤ scratch.old.room }
    ensures { IsAt gets_and_put all_begun result }
{
    let script = three_tickets(alloc).expect(rt, "memory");
    let mut book = Book::open(alloc, script, 3).expect(rt, "memory");
    begin_next(rt, &mut book, 0, scratch);
    begin_next(rt, &mut book, 1, scratch);
    begin_next(rt, &mut book, 2, scratch);
    book
}

/// The youngest ticket is told who delays its put; the others narrow to nothing, and it puts.
fn put_when_free<R: Abort>(
    rt: &R,
    book: &mut Book<ListScript>,
    scratch: &mut Foresight,
) -> (u32, Symbol)
    requires { IsAt gets_and_put all_begun book.old }
    ensures { IsAt gets_and_put (has_put result.0 result.1) book.new }
{
    let Admission::Delayed { older, symbol } = book.admit(2, put_2()) else {
        rt.panic("not delayed")
    };
    scratch.clear();
    book.narrow(0, scratch);
    book.narrow(1, scratch);
    let Admission::Admitted = book.admit(2, put_2()) else {
        rt.panic("delayed")
    };
    book.done(2, Value::Nil, scratch);
    (older, symbol)
}

/// All tickets end.
fn end_all(book: &mut Book<ListScript>, older: u32, symbol: Symbol)
    requires { IsAt gets_and_put (has_put older symbol) book.old }
    ensures { IsAt gets_and_put (all_ended older symbol) book.new }
{
    book.end(0, nil());
    book.end(1, nil());
    book.end(2, nil());
}

/// What the book says once the youngest ticket has put: the last event, the oldest open ticket, and
/// no reply of the ticket yet.
fn says_put<R: Abort>(rt: &R, book: &Book<ListScript>)
    requires { Lawful (meaning_of book.now.script) book.now.book }
{
    let done = Event::Done {
        ticket: 2,
        op: put_2(),
        reply: Value::Nil,
    };
    assert!(rt; book.journal().events().last().copied() == Some(done));
    assert!(rt; book.oldest_open() == Some(0) && book.reply(2) == None);
}

/// What the book says at the end: the reply of the youngest ticket, and that no ticket is open or
/// left to begin.
fn says_ended<R: Abort>(rt: &R, book: &Book<ListScript>)
    requires { Lawful (meaning_of book.now.script) book.now.book }
{
    assert!(rt; book.reply(2) == Some(nil()));
    assert!(rt; book.oldest_open() == None && book.next_ticket() == None);
}

/// So many replies, each of which is nil.
pub(crate) fn are_nil<R: Abort>(rt: &R, replies: &[Reply], count: usize) {
    assert!(rt; replies.len() == count);
    for reply in replies {
        assert!(rt; *reply == nil());
    }
}

#[test]
fn the_youngest_ticket_waits_until_the_others_narrow(rt: HostRuntime) {
    let alloc = rt.alloc();
    let mut scratch = Foresight::with_room(alloc, 256).expect(&rt, "memory");
    let mut book = begin_all(&rt, alloc, &mut scratch);
    let (older, symbol) = put_when_free(&rt, &mut book, &mut scratch);
    assert!(rt; older == 0 && symbol == Symbol::exact(&get_2()));
    says_put(&rt, &book);
    end_all(&mut book, older, symbol);
    says_ended(&rt, &book);
    let (journal, replies) = book.close();
    assert!(rt; journal.events().len() == 8 && journal.spare() == 0);
    are_nil(&rt, replies.as_slice(), 3);
}
