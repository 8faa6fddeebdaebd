// One ticket's replay.

ghost use Rattle.std.specs.Prelude.{◌≡◌, ◌++◌, ◌∷◌, [], IfOk, MatchOption, OnErr, Some, slice_get};
ghost use Rattle.std.specs.Bool.{Decides};
ghost use Rattle.trace_audit.specs.Desk.{HasOther, IsAnswered, fresh, next_call, with_answer};
ghost use Rattle.trace_audit.specs.Noted.{entries_of, entry_of};

use session_values::{NoMemory, Op, Reply, Value};
use std::alloc::Global;
use std::marker::Model;

/// An operation of a trace with its reply.
#[derive(Clone, Copy, Debug)]
pub(crate) struct Noted {
    pub(crate) op: Op,
    pub(crate) reply: Value,
}

/// The first call at which the trace has another operation, or none.
#[derive(Clone, Copy, Debug)]
pub(crate) struct Gap {
    pub(crate) place: u64,
    pub(crate) op: Op,
}

/// A ticket's entries in a trace, and what is kept of its handler's run on them.
#[derive(Drop)]
pub(crate) struct TicketReplay {
    entries: Vec<Noted>,
    calls: u64,
    broken: Option<Gap>,
    answer: Option<Reply>,
}

impl Model for TicketReplay {
    ghost use Rattle.trace_audit.specs.Desk.{ReplayView};
    ghost use Rattle.trace_audit.specs.Noted.{entries_of, gap_of};

    ghost Value = { ReplayView };

    ghost view = { λ r. record {
      entries = entries_of r.entries.items;
      kept = record { calls = r.calls; broken = gap_of r.broken };
      answer = r.answer;
    } };
}

impl TicketReplay {
    /// The replay of a ticket without entries.
    pub(crate) fn new(alloc: Global) -> TicketReplay
        ensures { result ≡ fresh [] }
    {
        TicketReplay {
            entries: Vec::new(alloc),
            calls: 0,
            broken: None,
            answer: None,
        }
    }

    /// The entries, the earliest first.
    pub(crate) fn entries(&self) -> &[Noted]
        ensures { entries_of result.now ≡ self.now.entries }
    {
        self.entries.as_slice()
    }

    /// Adds an entry behind the others.
    pub(crate) fn push(&mut self, noted: Noted) -> Result<(), NoMemory>
        ensures pushed { IfOk result (λ _. self.new ≡ record {
          entries = self.old.entries ++ entry_of noted ∷ [];
          kept = self.old.kept;
          answer = self.old.answer;
        }) }
        ensures err { OnErr result (self.new ≡ self.old) }
    {
        self.entries.push(noted)?;
        Ok(())
    }

    /// The reply of a call: that of the trace where the trace has this operation there and no call
    /// before broke with it, else nil.
    pub(crate) fn reply_to(&mut self, op: Op) -> Value
        ensures entries { self.new.entries ≡ self.old.entries }
        ensures kept { IsAnswered self.old.entries self.old.kept op result self.new.kept }
        ensures answer { self.new.answer ≡ self.old.answer }
    {
        let at = self.calls;
        self.calls = at.saturating_add(1);
        if self.broken.is_some() {
            return Value::Nil;
        }
        match reply_at(self.entries.as_slice(), at, op) {
            Some(reply) => reply,
            None => {
                self.broken = Some(Gap { place: at, op });
                Value::Nil
            }
        }
    }

    /// The operation that the ticket calls after its first n entries, if it has answered; None
    /// where it answers then.
    pub(crate) fn next_call(&self, n: u64) -> Option<Op>
        ensures { result ≡ next_call self.now.entries self.now.kept n }
    {
        let given = match self.broken {
            Some(gap) => gap.place,
            None => self.calls,
        };
        if n < given {
            return self.entries.get(n as usize).map(|noted| noted.op);
        }
        self.broken.map(|gap| gap.op)
    }

    /// Whether this is the Reply that is kept.
    pub(crate) fn has_answered(&self, reply: Reply) -> bool
        ensures { Decides result (self.now.answer ≡ Some reply) }
    {
        match self.answer {
            Some(kept) => same_reply(kept, reply),
            None => false,
        }
    }

    /// Keeps the Reply of the ticket.
    pub(crate) fn answered(&mut self, reply: Reply)
        ensures { self.new ≡ with_answer self.old reply }
    {
        self.answer = Some(reply);
    }
}

/// The reply at a place where this operation stands.
fn reply_at(entries: &[Noted], at: u64, op: Op) -> Option<Value>
    ensures { MatchOption result (HasOther (entries_of entries.now) at op)
        (λ v. slice_get (entries_of entries.now) at ≡ Some (record { op = op; reply = v })) }
{
    let Some(noted) = entries.get(at as usize) else {
        return None;
    };
    if has_same_parts(noted.op, op) {
        return Some(noted.reply);
    }
    None
}

/// Whether two operations have the same parts.
fn has_same_parts(a: Op, b: Op) -> bool
    ensures { Decides result ((a.kind ≡ b.kind) × (a.table ≡ b.table) × (a.key ≡ b.key)
        × (a.value ≡ b.value)) }
{
    a.kind == b.kind && a.table == b.table && a.key() == b.key() && a.value() == b.value()
}

/// Whether two operations are the same.
pub(crate) fn same_op(a: Op, b: Op) -> bool
    ensures { Decides result (a ≡ b) }
{
    has_same_parts(a, b)
}

/// Whether two Replies have as many values, and the first two are the same.
fn begins_same(a: Reply, b: Reply) -> bool
    ensures { Decides result ((a.count ≡ b.count) × (a.a ≡ b.a) × (a.b ≡ b.b)) }
{
    a.count == b.count && a.a() == b.a() && a.b() == b.b()
}

/// Whether the third and fourth values of two Replies are the same.
fn ends_same(a: Reply, b: Reply) -> bool
    ensures { Decides result ((a.c ≡ b.c) × (a.d ≡ b.d)) }
{
    a.c() == b.c() && a.d() == b.d()
}

/// Whether two Replies have the same parts.
fn has_same_values(a: Reply, b: Reply) -> bool
    ensures { Decides result (((a.count ≡ b.count) × (a.a ≡ b.a) × (a.b ≡ b.b))
        × ((a.c ≡ b.c) × (a.d ≡ b.d))) }
{
    begins_same(a, b) && ends_same(a, b)
}

/// Whether two Replies are the same.
pub(crate) fn same_reply(a: Reply, b: Reply) -> bool
    ensures { Decides result (a ≡ b) }
{
    has_same_values(a, b)
}

/// Whether two values are the same.
pub(crate) fn same_value(a: Value, b: Value) -> bool
    ensures { Decides result (a ≡ b) }
{
    a == b
}
