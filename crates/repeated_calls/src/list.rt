// Tickets that repeat an operation.

ghost use Rattle.std.specs.Prelude.{◌≡◌, ◌*◌, ◌-◌, ◌<◌, ◌≤◌, ◌++◌, ◌∷◌, [], length, IfOk};
ghost use Rattle.session_values.specs.Limits.{max_requests, max_session_calls, max_symbols};
ghost use Rattle.session_values.specs.Op.{IsHeld};
ghost use Rattle.session_values.specs.Tables.{Fits};
ghost use Rattle.session_journal.specs.Lists.{answers_only, last_ticket, ticket_at, with_last};
ghost use Rattle.repeated_calls.specs.Repeated.{IsEmpty, no_value, repeated, with_repeated};

use session_journal::ListScript;
use session_values::{NoMemory, Op, Reply, TableKind, Value};
use std::alloc::Global;
use std::marker::Model;

/// What each ticket answers.
pub(crate) fn nil() -> Reply
    ensures { result ≡ no_value }
{
    Reply::new(1, Value::Nil, Value::Nil, Value::Nil, Value::Nil)
}

/// A list of tickets, each of which calls an operation of its own so many times, and then answers
/// nil.
#[derive(Drop)]
pub struct RepeatedCalls {
    pub(crate) list: ListScript,
    /// The operation of each ticket.
    pub(crate) ops: Vec<Op>,
    /// How often each ticket calls its operation.
    pub(crate) times: u32,
}

impl Model for RepeatedCalls {
    ghost use Rattle.std.specs.Prelude.{vec_capacity};
    ghost use Rattle.repeated_calls.specs.Repeated.{RepeatedView, Keeps};

    ghost Value = { RepeatedView };

    ghost view = { λ l. record { list = l.list; ops = l.ops.items; times = l.times } };

    ghost invariant = { λ l. Keeps l.list l.ops.items l.times (vec_capacity l.ops) };
}

// Adds the operation to the last ticket, which calls nothing yet, so many times.
fn call_times(list: &mut ListScript, op: Op, times: u32)
    requires fits { Fits list.old.shape op }
    requires some { 0 < length list.old.tickets }
    requires last { last_ticket list.old.tickets ≡ answers_only no_value }
    requires few { times ≤ max_symbols }
    requires room { (times ≤ list.old.calls_left) × (times ≤ list.old.symbols_left) }
    ensures { list.new ≡ record {
      shape = list.old.shape;
      tickets = with_last list.old.tickets (repeated times op);
      tickets_left = list.old.tickets_left;
      calls_left = list.old.calls_left - times;
      symbols_left = list.old.symbols_left - times;
    } }
{
    for done in 0..times {
        list.call(op);
    }
}

impl RepeatedCalls {
    /// No tickets yet, with room for so many, each of which calls its operation so many times.
    pub fn with_room(
        alloc: Global,
        shape: &[TableKind],
        tickets: u32,
        times: u32,
    ) -> Result<RepeatedCalls, NoMemory>
        requires tickets { tickets ≤ max_requests }
        requires times { times ≤ max_symbols }
        requires calls { tickets * times ≤ max_session_calls }
        ensures { IfOk result (IsEmpty shape.now tickets times) }
    {
        let calls = tickets * times;
        let list = ListScript::with_room(alloc, shape, tickets, calls, calls)?;
        let ops = Vec::with_capacity(alloc, tickets as usize)?;
        Ok(RepeatedCalls { list, ops, times })
    }

    /// Adds a ticket.
    pub fn add(&mut self, op: Op)
        requires fits { Fits self.old.list.shape op }
        requires left { 0 < self.old.list.tickets_left }
        ensures { self.new ≡ with_repeated self.old op }
    {
        self.list.ticket(nil());
        call_times(&mut self.list, op, self.times);
        self.ops.push_reserved(op);
    }

    // The same as a list of tickets.
    pub(crate) fn script(&self) -> &ListScript
        ensures { result.now ≡ self.now.list }
    {
        &self.list
    }

    // How often each ticket calls its operation.
    pub(crate) fn times(&self) -> u32
        ensures times { result ≡ self.now.times }
        ensures few { result ≤ max_symbols }
    {
        self.times
    }

    // The operation of a ticket.
    pub(crate) fn op_of(&self, ticket: u32) -> Op
        requires { ticket < length self.now.list.tickets }
        ensures op { ticket_at self.now.list.tickets ticket ≡ repeated self.now.times result }
        ensures held { IsHeld result }
    {
        let op = self.ops[ticket as usize];
        op.bounds();
        op
    }
}
