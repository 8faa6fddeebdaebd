// Tickets that a program drives on the tables of a session.

ghost use Rattle.std.specs.Prelude.{◌≡◌, IfOk, OnErr, OnOk, map, true};
ghost use Rattle.std.specs.Bool.{Decides};
ghost use Rattle.session_values.specs.Kinds.{home, is_adding};
ghost use Rattle.session_values.specs.Names.{IsNamed};
ghost use Rattle.session_values.specs.ReplyText.{IsPrintable};
ghost use Rattle.session_values.specs.Tables.{Fits, kind_of, reply, step};
ghost use Rattle.live_session.specs.Driven.{IsOperationOf};
ghost use Rattle.live_session.specs.Held.{container_in, factors_in, held};

use crate::growing::make_room;
use crate::session::LiveSession;
use crate::tables::LiveTables;
use driven_tickets::{BeginError, Called, NarrowError, NoTicket};
use handler_machine::Answerer;
use session_values::{Kind, MAX_NAME, Names, NoMemory, Op, Value};
use shard_tables::Part;
use std::alloc::Global;
use symbolic_ops::Foresight;

/// Whether a value can be printed: where it is a symbol, it is a name of at most 64 bytes.
fn is_printable(names: &Names, value: Value) -> bool
    ensures { Decides result (IsPrintable names.now value) }
{
    match value {
        Value::Nil | Value::Num(_) => true,
        Value::Sym(place) => is_named(names, place),
    }
}

/// Whether a place has a name of at most 64 bytes.
fn is_named(names: &Names, place: u32) -> bool
    ensures { Decides result (IsNamed names.now place) }
{
    place < names.len() && names.text(place).len() <= MAX_NAME
}

/// Whether operations of a kind are done on a table.
fn suits(part: &Part, kind: Kind) -> bool
    ensures { Decides result (kind_of (container_in part.now) ≡ home kind) }
{
    match part {
        Part::Bindings(_) => kind.on_map(),
        Part::Members(_) => !kind.on_map(),
    }
}

/// Whether an operation is one of these tables'.
fn is_of(parts: &[Part], op: &Op) -> bool
    ensures { Decides result (Fits (map kind_of (held parts.now)) op.now) }
{
    // A program holds it.
    op.bounds();
    let table = op.table as usize;
    if table >= parts.len() {
        return false;
    }
    suits(&parts[table], op.kind)
}

/// Whether an operation is one of these tables', and its symbols are among the names.
fn is_operation(names: &Names, parts: &[Part], op: &Op) -> bool
    ensures { Decides result (IsOperationOf names.now (held parts.now) op.now) }
{
    if !is_of(parts, op) {
        return false;
    }
    is_printable(names, op.key()) && is_printable(names, op.value())
}

/// Does an operation on tables of which its own gets room for one key more. Where memory runs out,
/// the tables still hold what they held.
fn perform_with_room(alloc: Global, tables: &mut LiveTables, op: Op) -> Result<Value, NoMemory>
    requires { Fits (map kind_of (held tables.old.parts.items)) op }
    ensures reply { IfOk result (λ v. v ≡ reply (held tables.old.parts.items) op) }
    ensures done { OnOk result (held tables.new.parts.items
        ≡ step (held tables.old.parts.items) op) }
    ensures err { OnErr result (held tables.new.parts.items ≡ held tables.old.parts.items) }
    ensures factors { factors_in tables.new.parts.items ≡ factors_in tables.old.parts.items }
{
    make_room(alloc, &mut tables.parts[op.table as usize], 1)?;
    tables.answer(op)
}

/// Does an operation on tables, which get room for a key that it may add. Where memory runs out,
/// the tables still hold what they held.
fn perform(alloc: Global, tables: &mut LiveTables, op: Op) -> Result<Value, NoMemory>
    requires { Fits (map kind_of (held tables.old.parts.items)) op }
    ensures reply { IfOk result (λ v. v ≡ reply (held tables.old.parts.items) op) }
    ensures done { OnOk result (held tables.new.parts.items
        ≡ step (held tables.old.parts.items) op) }
    ensures err { OnErr result (held tables.new.parts.items ≡ held tables.old.parts.items) }
    ensures factors { factors_in tables.new.parts.items ≡ factors_in tables.old.parts.items }
    ensures sure { OnErr result (is_adding op.kind ≡ true) }
{
    if op.kind.adds() {
        return perform_with_room(alloc, tables, op);
    }
    tables.answer(op)
}

impl LiveSession {
    ghost use Rattle.live_session.specs.Driven.{BeginAnswered, CallAnswered, EndAnswered};
    ghost use Rattle.live_session.specs.Driven.{NarrowAnswered};

    /// Begins the next ticket, which declares this list, and answers its number. Its operations are
    /// done on the tables of the session, and requests are delayed by what it has declared until it
    /// narrows or ends.
    pub fn begin(&mut self, declared: Foresight) -> Result<u64, BeginError>
        ensures { BeginAnswered self.old self.new declared.symbols result }
    {
        match self.tickets.begin(declared) {
            Ok(ticket) => {
                self.history = self.history.drove();
                Ok(ticket)
            }
            Err(why) => Err(why),
        }
    }

    /// Does an operation of an open ticket, which has declared it, unless an older ticket is in the
    /// way. Its symbols are names of the session by their numbers.
    pub fn call(&mut self, ticket: u64, op: Op) -> Called
        ensures { CallAnswered self.old self.new ticket op result }
    {
        let fits = is_operation(&self.names, self.tables.parts.as_slice(), &op);
        if let Some(why) = self.tickets.refusal(ticket, fits, &op) {
            return why;
        }
        match perform(self.alloc, &mut self.tables, op) {
            Ok(reply) => {
                self.tickets.called(&ticket, &op, &reply);
                self.history = self.history.drove();
                Called::Done(reply)
            }
            Err(_) => Called::NoMemory,
        }
    }

    /// An open ticket declares this list in place of its own, which covers it. No memory is taken.
    pub fn narrow(&mut self, ticket: u64, declared: Foresight) -> Result<(), NarrowError>
        ensures { NarrowAnswered self.old self.new ticket declared.symbols result }
    {
        match self.tickets.narrow(ticket, declared) {
            Ok(()) => {
                self.history = self.history.drove();
                Ok(())
            }
            Err(why) => Err(why),
        }
    }

    /// Ends an open ticket. What it did stays, and it is in nobody's way any more.
    pub fn end(&mut self, ticket: u64) -> Result<(), NoTicket>
        ensures { EndAnswered self.old self.new ticket result }
    {
        match self.tickets.end(ticket) {
            Ok(()) => {
                self.history = self.history.drove();
                Ok(())
            }
            Err(why) => Err(why),
        }
    }
}
