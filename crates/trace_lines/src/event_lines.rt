// An event's line.

ghost use Rattle.std.specs.Prelude.{◌≡◌, ◌+◌, ◌≤◌, [], ◌∷◌, ◌++◌, codes, length, slice_get};
ghost use Rattle.std.specs.Fmt.{decimal};
ghost use Rattle.session_values.specs.ReplyText.{IsPrintable};
ghost use Rattle.session_values.specs.declared.value.Value.TheVariants.{Sym};
ghost use Rattle.symbolic_ops.specs.declared.arg.Arg.TheVariants.{Known};
ghost use Rattle.text_lines.specs.ValueWords.{literal_text};
ghost use Rattle.text_lines.specs.Words.{after_spaces, spaced};
ghost use Rattle.trace_lines.specs.EventText.{CanWrite, CanWriteArg, CanWriteOp, CanWriteReply, CanWriteSymbol, HasTable, arg_text, event_text, event_words, head_words, known_text, op_words, reply_words, symbol_text, symbol_words};

use crate::delay::Delay;
use crate::event_buf::EventBuf;
use itoa::Buffer;
use reply_sheet::TextRoom;
use session_journal::Event;
use session_values::{Kind, Names, Op, Reply, Value};
use symbolic_ops::{Arg, Symbol};

/// The longest line: that of a Delay of a call with two arguments, by a symbol with two.
pub(crate) const LONGEST: usize = 434;

/// Puts the line of an event, with its line feed, in place of what the buffer held. Tables are
/// written by their names, whose places in the list of names these are, in the order of their
/// numbers.
pub fn event_line(e: &Event, tables: &[u32], names: &Names, out: &mut EventBuf)
    requires { CanWrite names.now tables.now e.now }
    ensures { out.new ≡ event_text names.now tables.now e.now }
{
    out.clear();
    push_event_line(e, tables, names, out);
}

/// Appends the line of an event, with its line feed. Tables are written by their names, whose
/// places in the list of names these are, in the order of their numbers.
pub fn push_event_line<T: TextRoom>(e: &Event, tables: &[u32], names: &Names, out: &mut T)
    requires writable { CanWrite names.now tables.now e.now }
    requires room { 434 ≤ T.spare out.old }
    ensures text { T.held out.new ≡ T.held out.old ++ event_text names.now tables.now e.now }
    ensures len { T.spare out.old ≤ T.spare out.new + 434 }
{
    push_event(e, tables, names, out);
    out.push(b"\n");
}

/// Appends the words of an event, a space between two.
fn push_event<T: TextRoom>(e: &Event, tables: &[u32], names: &Names, out: &mut T)
    requires writable { CanWrite names.now tables.now e.now }
    requires room { 434 ≤ T.spare out.old }
    ensures text { T.held out.new ≡ T.held out.old
        ++ spaced (event_words names.now tables.now e.now) }
    ensures len { T.spare out.old ≤ T.spare out.new + 433 }
{
    match e {
        Event::Begin { ticket, caller } => push_begin(*ticket, *caller, out),
        Event::Done { ticket, op, reply } => push_done(*ticket, op, *reply, tables, names, out),
        Event::Delay {
            ticket,
            op,
            older,
            symbol,
        } => {
            let delay = Delay {
                ticket: *ticket,
                op,
                older: *older,
                symbol,
            };
            push_delay(delay, tables, names, out)
        }
        Event::End { ticket, reply } => push_end(*ticket, reply, names, out),
    }
}

fn push_begin<T: TextRoom>(ticket: u32, caller: u32, out: &mut T)
    requires room { 27 ≤ T.spare out.old }
    ensures text { T.held out.new ≡ T.held out.old
        ++ spaced (codes "begin" ∷ decimal ticket ∷ decimal caller ∷ []) }
    ensures len { T.spare out.old ≤ T.spare out.new + 27 }
{
    out.push(b"begin");
    push_number(ticket, out);
    push_number(caller, out);
}

#[tactic(auto, using(crate::proofs::Joined::joined))]
fn push_done<T: TextRoom>(
    ticket: u32,
    op: &Op,
    reply: Value,
    tables: &[u32],
    names: &Names,
    out: &mut T,
)
    requires op { CanWriteOp names.now tables.now op.now }
    requires reply { IsPrintable names.now reply }
    requires room { 284 ≤ T.spare out.old }
    ensures text { T.held out.new ≡ T.held out.old ++ spaced (codes "done" ∷ decimal ticket
        ∷ op_words names.now tables.now op.now ++ literal_text names.now reply ∷ []) }
    ensures len { T.spare out.old ≤ T.spare out.new + 284 }
{
    out.push(b"done");
    push_number(ticket, out);
    push_op(op, tables, names, out);
    push_literal(reply, names, out);
}

#[tactic(auto, using(crate::proofs::Joined::joined))]
fn push_delay<T: TextRoom>(delay: Delay<'_>, tables: &[u32], names: &Names, out: &mut T)
    requires op { CanWriteOp names.now tables.now delay.op.now }
    requires symbol { CanWriteSymbol names.now tables.now delay.symbol.now }
    requires room { 433 ≤ T.spare out.old }
    ensures text { T.held out.new ≡ T.held out.old
        ++ spaced (codes "delay" ∷ decimal delay.entry.ticket
        ∷ op_words names.now tables.now delay.entry.op.now ++ decimal delay.entry.older
        ∷ symbol_words names.now tables.now delay.entry.symbol.now) }
    ensures len { T.spare out.old ≤ T.spare out.new + 433 }
{
    out.push(b"delay");
    push_number(delay.ticket, out);
    push_op(delay.op, tables, names, out);
    push_number(delay.older, out);
    push_symbol(delay.symbol, tables, names, out);
}

fn push_end<T: TextRoom>(ticket: u32, reply: &Reply, names: &Names, out: &mut T)
    requires printable { CanWriteReply names.now reply.now }
    requires room { 278 ≤ T.spare out.old }
    ensures text { T.held out.new ≡ T.held out.old
        ++ spaced (codes "end" ∷ decimal ticket ∷ reply_words names.now reply.now) }
    ensures len { T.spare out.old ≤ T.spare out.new + 278 }
{
    out.push(b"end");
    push_number(ticket, out);
    push_reply(reply, names, out);
}

/// Appends a space and a number.
fn push_number<T: TextRoom>(n: u32, out: &mut T)
    requires room { 11 ≤ T.spare out.old }
    ensures text { T.held out.new ≡ T.held out.old ++ after_spaces (decimal n ∷ []) }
    ensures len { T.spare out.old ≤ T.spare out.new + 11 }
{
    let mut buffer = Buffer::new();
    out.push(b" ");
    out.push(buffer.format(n).as_bytes());
}

/// Appends a space and a symbol's text, with its quote.
fn push_quoted<T: TextRoom>(text: &str, out: &mut T)
    requires short { length text.now ≤ 64 }
    requires room { 66 ≤ T.spare out.old }
    ensures text { T.held out.new ≡ T.held out.old ++ after_spaces ((39 ∷ text.now) ∷ []) }
    ensures len { T.spare out.old ≤ T.spare out.new + 66 }
{
    out.push(b" '");
    out.push(text.as_bytes());
}

/// Appends a space and a value as a literal.
fn push_literal<T: TextRoom>(value: Value, names: &Names, out: &mut T)
    requires printable { IsPrintable names.now value }
    requires room { 66 ≤ T.spare out.old }
    ensures text { T.held out.new ≡ T.held out.old
        ++ after_spaces (literal_text names.now value ∷ []) }
    ensures len { T.spare out.old ≤ T.spare out.new + 66 }
{
    match value {
        Value::Nil => out.push(b" nil"),
        Value::Num(n) => {
            let mut buffer = Buffer::new();
            out.push(b" ");
            out.push(buffer.format(n).as_bytes());
        }
        Value::Sym(place) => push_quoted(names.text(place), out),
    }
}

/// Appends a space and the literal of a known symbol, or `any` where its place isn't in the list.
fn push_place<T: TextRoom>(place: u32, names: &Names, out: &mut T)
    requires short { CanWriteArg names.now (Known (Sym place)) }
    requires room { 66 ≤ T.spare out.old }
    ensures text { T.held out.new ≡ T.held out.old
        ++ after_spaces (symbol_text (slice_get names.now place) ∷ []) }
    ensures len { T.spare out.old ≤ T.spare out.new + 66 }
{
    if place < names.len() {
        push_quoted(names.text(place), out);
    } else {
        out.push(b" any");
    }
}

/// Appends a space and what a symbol knows.
fn push_known<T: TextRoom>(value: Value, names: &Names, out: &mut T)
    requires short { CanWriteArg names.now (Known value) }
    requires room { 66 ≤ T.spare out.old }
    ensures text { T.held out.new ≡ T.held out.old
        ++ after_spaces (known_text names.now value ∷ []) }
    ensures len { T.spare out.old ≤ T.spare out.new + 66 }
{
    match value {
        Value::Nil => push_literal(Value::Nil, names, out),
        Value::Num(n) => push_literal(Value::Num(n), names, out),
        Value::Sym(place) => push_place(place, names, out),
    }
}

/// Appends a space and an argument of a symbol.
fn push_arg<T: TextRoom>(arg: Arg, names: &Names, out: &mut T)
    requires writable { CanWriteArg names.now arg }
    requires room { 66 ≤ T.spare out.old }
    ensures text { T.held out.new ≡ T.held out.old ++ after_spaces (arg_text names.now arg ∷ []) }
    ensures len { T.spare out.old ≤ T.spare out.new + 66 }
{
    match arg {
        Arg::Known(value) => push_known(value, names, out),
        Arg::Var(_) | Arg::Any => out.push(b" any"),
    }
}

/// Appends a space and the word of a kind, and a space and the name of a table.
fn push_head<T: TextRoom>(kind: Kind, table: u32, tables: &[u32], names: &Names, out: &mut T)
    requires table { HasTable names.now tables.now table }
    requires room { 71 ≤ T.spare out.old }
    ensures text { T.held out.new ≡ T.held out.old
        ++ after_spaces (head_words names.now tables.now kind table) }
    ensures len { T.spare out.old ≤ T.spare out.new + 71 }
{
    out.push(b" ");
    out.push(kind.word().as_bytes());
    out.push(b" ");
    out.push(names.text(tables[table as usize]).as_bytes());
}

/// Appends the words of an operation, a space before each.
fn push_op<T: TextRoom>(op: &Op, tables: &[u32], names: &Names, out: &mut T)
    requires writable { CanWriteOp names.now tables.now op.now }
    requires room { 203 ≤ T.spare out.old }
    ensures text { T.held out.new ≡ T.held out.old
        ++ after_spaces (op_words names.now tables.now op.now) }
    ensures len { T.spare out.old ≤ T.spare out.new + 203 }
{
    let count = op.kind.arguments();
    push_head(op.kind, op.table, tables, names, out);
    if count > 0 {
        push_literal(op.key(), names, out);
    }
    if count > 1 {
        push_literal(op.value(), names, out);
    }
}

/// Appends the words of a symbol, a space before each.
fn push_symbol<T: TextRoom>(symbol: &Symbol, tables: &[u32], names: &Names, out: &mut T)
    requires writable { CanWriteSymbol names.now tables.now symbol.now }
    requires room { 203 ≤ T.spare out.old }
    ensures text { T.held out.new ≡ T.held out.old
        ++ after_spaces (symbol_words names.now tables.now symbol.now) }
    ensures len { T.spare out.old ≤ T.spare out.new + 203 }
{
    let count = symbol.kind.arguments();
    push_head(symbol.kind, symbol.table, tables, names, out);
    if count > 0 {
        push_arg(symbol.key(), names, out);
    }
    if count > 1 {
        push_arg(symbol.value(), names, out);
    }
}

/// Appends the values of a reply as literals, a space before each.
fn push_reply<T: TextRoom>(reply: &Reply, names: &Names, out: &mut T)
    requires printable { CanWriteReply names.now reply.now }
    requires room { 264 ≤ T.spare out.old }
    ensures text { T.held out.new ≡ T.held out.old
        ++ after_spaces (reply_words names.now reply.now) }
    ensures len { T.spare out.old ≤ T.spare out.new + 264 }
{
    reply.bounds();
    push_literal(reply.a(), names, out);
    if reply.count > 1 {
        push_literal(reply.b(), names, out);
    }
    if reply.count > 2 {
        push_literal(reply.c(), names, out);
    }
    if reply.count > 3 {
        push_literal(reply.d(), names, out);
    }
}
