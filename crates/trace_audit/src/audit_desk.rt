// A desk that answers the handlers of a session by a trace.

ghost use Rattle.std.specs.Prelude.{◌≡◌, ◌<◌, IfOk, None, Some};
ghost use Rattle.session_journal.specs.Journal.{entries};
ghost use Rattle.trace_audit.specs.Desk.{AreAnswered, AreGathered, AuditStep, MayAnswer, fresh, replay_at, tickets_answered};
ghost use Rattle.session_journal.specs.Verdicts.{IsVerdict};

use crate::gathering::gather;
use crate::judge::judge_trace;
use crate::opening::opened_tables;
use crate::ticket_replay::TicketReplay;
use handler_machine::Answerer;
use session_journal::{Script, Trace, Verdict};
use session_values::{NoMemory, Op, Reply, TableKind, Value};
use std::alloc::Global;
use std::marker::Model;

/// Answers each ticket's operations by its entries in a trace, and keeps what the trace is judged
/// by.
#[derive(Drop)]
pub struct AuditDesk<'a, S: Script> {
    script: &'a S,
    trace: &'a Trace,
    /// For each ticket of the script its entries, and what is kept of it.
    tickets: Vec<TicketReplay>,
    /// The ticket whose operations are answered.
    turn: Option<u32>,
}

impl<'a, S: Script> Model for AuditDesk<'a, S> {
    ghost use Rattle.trace_audit.specs.Desk.{AuditView};
    ghost use Rattle.trace_audit.specs.Keeping.{KeepsAudit};

    ghost Value = { AuditView S };

    ghost view = { λ d. record {
      script = d.script.now;
      events = d.trace.now.events;
      turn = d.turn;
      tickets = d.tickets.items;
    } };

    ghost invariant = { λ d. KeepsAudit (S.meaning d.script.now) d.trace.now.events d.turn
        d.tickets.items };
}

impl<'a, S: Script> AuditDesk<'a, S> {
    /// A desk over a trace, at which no ticket is set and none was run.
    pub fn over(
        alloc: Global,
        script: &'a S,
        trace: &'a Trace,
    ) -> Result<AuditDesk<'a, S>, NoMemory>
        ensures script { IfOk result (λ d. d.script ≡ script.now) }
        ensures events { IfOk result (λ d. d.events ≡ trace.now.events) }
        ensures turn { IfOk result (λ d. d.turn ≡ None) }
        ensures tickets { IfOk result (λ d. AreGathered (S.meaning script.now).requests
            trace.now.events d.tickets) }
    {
        let tickets = gather(alloc, script.requests(), trace.events())?;
        Ok(AuditDesk {
            script,
            trace,
            tickets,
            turn: None,
        })
    }

    /// Sets the desk to a ticket that wasn't run.
    pub fn turn(&mut self, t: u32)
        requires exists { t < (S.meaning self.old.script).requests }
        requires untouched { replay_at self.old.tickets t ≡ fresh (entries self.old.events t) }
        ensures { self.new ≡ record {
          script = self.old.script;
          events = self.old.events;
          turn = Some t;
          tickets = self.old.tickets;
        } }
    {
        self.turn = Some(t);
    }

    /// Keeps what the ticket that is set answered; then none is set.
    pub fn answered(&mut self, reply: Reply)
        requires { MayAnswer (S.meaning self.old.script) self.old reply }
        ensures { self.new ≡ record {
          script = self.old.script;
          events = self.old.events;
          turn = None;
          tickets = tickets_answered self.old.tickets self.old.turn reply;
        } }
    {
        let Some(t) = self.turn else {
            return;
        };
        self.tickets[t as usize].answered(reply);
        self.turn = None;
    }

    /// Judges the trace, once each ticket has answered: it is accepted, or this is its first fault.
    pub fn judge(self, alloc: Global, shape: &[TableKind]) -> Result<Verdict, NoMemory>
        requires shape { shape.now ≡ (S.meaning self.script).shape }
        requires answered { AreAnswered (S.meaning self.script).requests self.tickets }
        ensures { IfOk result (λ v. IsVerdict (S.meaning self.entry.script) self.entry.events v) }
    {
        let tables = opened_tables(alloc, self.script, shape)?;
        let mut again = opened_tables(alloc, self.script, shape)?;
        let tickets = self.tickets.as_slice();
        judge_trace(alloc, tables, &mut again, tickets, self.trace.events())
    }

    /// The reply of an operation of the ticket that is set, or nil where none is.
    fn reply_to(&mut self, op: Op) -> Value
        ensures { AuditStep self.old op result self.new }
    {
        let Some(t) = self.turn else {
            return Value::Nil;
        };
        self.tickets[t as usize].reply_to(op)
    }
}

impl<'a, S: Script> Answerer for AuditDesk<'a, S> {
    ghost use Rattle.std.specs.Prelude.{true};
    ghost use Rattle.trace_audit.specs.Desk.{AuditStep};

    ghost shape = { λ d. (S.meaning d.script).shape };

    ghost Step = { AuditStep };

    ghost sure = { λ _. true };

    fn answer(&mut self, op: Op) -> Result<Value, NoMemory> {
        Ok(self.reply_to(op))
    }
}
