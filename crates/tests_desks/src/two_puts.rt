// A book over two tickets and three callers: the younger ticket puts twice and ends while the older
// one is still open, and its reply is told then. The third caller finds all tickets begun.

ghost use Rattle.std.specs.Prelude.{◌≡◌, ◌≤◌, IfOk};
ghost use Rattle.session_values.specs.Limits.{max_symbols};
ghost use Rattle.admission_book.specs.Lawful.{Lawful};
ghost use Rattle.tests_desks.specs.BookRows.{IsAt, meaning_of};
ghost use Rattle.tests_desks.specs.TwoPuts.{both_begun, both_ended, first_put, get_or_puts, second_put, younger_ended};

use crate::books::{are_nil, begin_next, get_1, nil, put_1, put_2};
use admission_book::{Admission, Book};
use session_journal::ListScript;
use session_values::{NoMemory, TableKind, Value};
use std::alloc::Global;
use std::process::Abort;
use symbolic_ops::{Foresight, Symbol};

/// A ticket that may get a key and calls nothing, and one that puts another key and then that one.
pub(crate) fn get_or_two_puts(alloc: Global) -> Result<ListScript, NoMemory>
    ensures { IfOk result (λ s. s ≡ get_or_puts) }
{
    let mut script = ListScript::with_room(alloc, &[TableKind::Map], 2, 2, 3)?;
    script.ticket(nil());
    script.allow(Symbol::exact(&get_1()));
    script.ticket(nil());
    script.call(put_2());
    script.call(put_1());
    Ok(script)
}

/// The book of both tickets for three callers, with both begun.
fn begin_both<R: Abort>(rt: &R, alloc: Global, scratch: &mut Foresight) -> Book<ListScript>
    requires { max_symbols ≤ scratch.old.room }
    ensures book { IsAt get_or_puts both_begun result }
    ensures room { scratch.new.room ≡ scratch.old.room }
{
    let script = get_or_two_puts(alloc).expect(rt, "memory");
    let mut book = Book::open(alloc, script, 3).expect(rt, "memory");
    begin_next(rt, &mut book, 0, scratch);
    begin_next(rt, &mut book, 1, scratch);
    book
}

/// The third caller is told that all tickets are begun, and the book is as before.
fn begin_none<R: Abort>(rt: &R, book: &mut Book<ListScript>, scratch: &Foresight)
    requires { IsAt get_or_puts both_begun book.old }
    ensures { IsAt get_or_puts both_begun book.new }
{
    assert!(rt; book.next_ticket() == None);
    let None = book.begin(2, scratch) else {
        rt.panic("a third ticket")
    };
}

/// The younger ticket puts, and may put once more.
fn put_first<R: Abort>(rt: &R, book: &mut Book<ListScript>, scratch: &mut Foresight)
    requires book { IsAt get_or_puts both_begun book.old }
    requires room { max_symbols ≤ scratch.old.room }
    ensures { IsAt get_or_puts first_put book.new }
{
    let Admission::Admitted = book.admit(1, put_2()) else {
        rt.panic("delayed")
    };
    scratch.clear();
    scratch.push(Symbol::exact(&put_1()));
    book.done(1, Value::Nil, scratch);
}

/// The younger ticket is told who delays its second put; the older one narrows to nothing, and the
/// younger one puts.
fn put_second<R: Abort>(
    rt: &R,
    book: &mut Book<ListScript>,
    scratch: &mut Foresight,
) -> (u32, Symbol)
    requires { IsAt get_or_puts first_put book.old }
    ensures { IsAt get_or_puts (second_put result.0 result.1) book.new }
{
    let Admission::Delayed { older, symbol } = book.admit(1, put_1()) else {
        rt.panic("not delayed")
    };
    scratch.clear();
    book.narrow(0, scratch);
    let Admission::Admitted = book.admit(1, put_1()) else {
        rt.panic("delayed")
    };
    book.done(1, Value::Nil, scratch);
    (older, symbol)
}

/// The younger ticket ends.
fn end_younger(book: &mut Book<ListScript>, older: u32, symbol: Symbol)
    requires { IsAt get_or_puts (second_put older symbol) book.old }
    ensures { IsAt get_or_puts (younger_ended older symbol) book.new }
{
    book.end(1, nil());
}

/// The older ticket ends.
fn end_older(book: &mut Book<ListScript>, older: u32, symbol: Symbol)
    requires { IsAt get_or_puts (younger_ended older symbol) book.old }
    ensures { IsAt get_or_puts (both_ended older symbol) book.new }
{
    book.end(0, nil());
}

/// What the book says while the older ticket alone is open: the reply of the younger one, and none
/// of its own.
fn says_younger<R: Abort>(rt: &R, book: &Book<ListScript>)
    requires { Lawful (meaning_of book.now.script) book.now.book }
{
    assert!(rt; book.oldest_open() == Some(0));
    assert!(rt; book.reply(1) == Some(nil()) && book.reply(0) == None);
}

#[test]
fn a_reply_is_told_while_an_older_ticket_is_open(rt: HostRuntime) {
    let alloc = rt.alloc();
    let mut scratch = Foresight::with_room(alloc, 256).expect(&rt, "memory");
    let mut book = begin_both(&rt, alloc, &mut scratch);
    begin_none(&rt, &mut book, &scratch);
    put_first(&rt, &mut book, &mut scratch);
    let (older, symbol) = put_second(&rt, &mut book, &mut scratch);
    assert!(rt; older == 0 && symbol == Symbol::exact(&get_1()));
    end_younger(&mut book, older, symbol);
    says_younger(&rt, &book);
    end_older(&mut book, older, symbol);
    let (journal, replies) = book.close();
    assert!(rt; journal.events().len() == 7);
    are_nil(&rt, replies.as_slice(), 2);
}
