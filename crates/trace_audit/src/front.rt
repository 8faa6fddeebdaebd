// What a judge keeps of the events so far.

ghost use Rattle.std.specs.Prelude.{◌≡◌, ◌<◌, IfOk, None, Some, length, map, replicate, slice_get};
ghost use Rattle.std.specs.Bool.{Decides};
ghost use Rattle.session_values.specs.Limits.{max_callers};
ghost use Rattle.session_values.specs.Kinds.{home};
ghost use Rattle.session_values.specs.Tables.{kind_of, reply};
ghost use Rattle.trace_audit.specs.Judging.{AnswersNow, CallsNow, FindsOpen, begins, call_of, delayed_at, done_at, ends_at, front_of, is_free, is_open, may_begin, no_standing, opened, standing_at};

use crate::standing::Standing;
use crate::ticket_replay::{TicketReplay, same_op, same_reply};
use session_values::{MAX_CALLERS, NoMemory, Op, Reply, Value};
use shard_tables::WholeTables;
use std::alloc::Global;

/// How many tickets have begun, for each caller its latest ticket, how each ticket stands, and the
/// tables after what was done.
#[derive(Drop)]
pub(crate) struct Front {
    begun: u32,
    latest: Vec<Option<u32>>,
    standings: Vec<Standing>,
    tables: WholeTables,
}

/// Whether a caller with this latest ticket may begin another one.
fn is_free(standings: &[Standing], latest: Option<u32>) -> bool
    ensures { result ≡ is_free standings.now latest }
{
    let Some(t) = latest else {
        return true;
    };
    match standings.get(t as usize) {
        Some(standing) => standing.ended,
        None => false,
    }
}

/// No latest ticket for each caller.
fn no_tickets(alloc: Global) -> Result<Vec<Option<u32>>, NoMemory>
    ensures { IfOk result (λ v. v.items ≡ replicate max_callers None) }
{
    let mut latest = Vec::with_capacity(alloc, MAX_CALLERS as usize)?;
    for _ in 0..MAX_CALLERS {
        latest.push(None)?;
    }
    Ok(latest)
}

/// So many tickets without events.
fn fresh_standings(alloc: Global, requests: u32) -> Result<Vec<Standing>, NoMemory>
    ensures { IfOk result (λ v. v.items ≡ replicate requests no_standing) }
{
    let mut standings = Vec::with_capacity(alloc, requests as usize)?;
    for _ in 0..requests {
        standings.push(Standing {
            done: 0,
            delayed: false,
            ended: false,
        })?;
    }
    Ok(standings)
}

impl Front {
    /// Before any event, with so many tickets, over the tables with which the session opens.
    pub(crate) fn new(alloc: Global, tables: WholeTables, requests: u32) -> Result<Front, NoMemory>
        ensures { IfOk result (λ f. front_of f ≡ opened tables requests) }
    {
        Ok(Front {
            begun: 0,
            latest: no_tickets(alloc)?,
            standings: fresh_standings(alloc, requests)?,
            tables,
        })
    }

    /// Whether the ticket may begin, of this caller.
    pub(crate) fn may_begin(&self, t: u32, caller: u32) -> bool
        ensures { result ≡ may_begin (front_of self.now) t caller }
    {
        t == self.begun
            && (t as usize) < self.standings.len()
            && (caller as usize) < self.latest.len()
            && is_free(self.standings.as_slice(), self.latest[caller as usize])
    }

    /// How the ticket stands.
    fn standing(&self, t: u32) -> Standing
        ensures { result ≡ standing_at self.now.standings.items t }
    {
        match self.standings.get(t as usize) {
            Some(standing) => *standing,
            None => Standing {
                done: 0,
                delayed: false,
                ended: false,
            },
        }
    }

    /// Whether the ticket has begun and hasn't ended.
    fn is_open(&self, t: u32) -> bool
        ensures { result ≡ is_open (front_of self.now) t }
    {
        t < self.begun && !self.standing(t).ended
    }

    /// Whether the ticket's last event is a Delay.
    pub(crate) fn is_delayed(&self, t: u32) -> bool
        ensures { result ≡ (standing_at self.now.standings.items t).delayed }
    {
        self.standing(t).delayed
    }

    /// The operation that the ticket calls next.
    fn call_of(&self, replays: &[TicketReplay], t: u32) -> Option<Op>
        ensures { result ≡ call_of (front_of self.now) replays.now t }
    {
        let done = self.standing(t).done;
        match replays.get(t as usize) {
            Some(replay) => replay.next_call(done),
            None => None,
        }
    }

    /// Whether the ticket is open and calls this operation next.
    pub(crate) fn calls(&self, replays: &[TicketReplay], t: u32, op: Op) -> bool
        ensures { Decides result (CallsNow (front_of self.now) replays.now t op) }
    {
        if !self.is_open(t) {
            return false;
        }
        match self.call_of(replays, t) {
            Some(called) => same_op(called, op),
            None => false,
        }
    }

    /// Whether the ticket is open and answers this Reply next.
    pub(crate) fn answers(&self, replays: &[TicketReplay], t: u32, reply: Reply) -> bool
        ensures { Decides result (AnswersNow (front_of self.now) replays.now t reply) }
    {
        if !self.is_open(t) || self.call_of(replays, t).is_some() {
            return false;
        }
        match replays.get(t as usize) {
            Some(replay) => replay.has_answered(reply),
            None => false,
        }
    }

    /// The least ticket that hasn't ended, if there is one.
    pub(crate) fn first_open(&self) -> Option<usize>
        ensures { FindsOpen self.now.standings.items result }
    {
        self.standings.iter().position(|standing| !standing.ended)
    }

    /// Notes that the ticket begins, of this caller.
    pub(crate) fn begin(&mut self, t: u32, caller: u32)
        requires left { t < length self.old.standings.items }
        requires few { t < 4294967295 }
        requires next { t ≡ self.old.begun }
        requires caller { caller < length self.old.latest.items }
        ensures { front_of self.new ≡ begins (front_of self.old) t caller }
    {
        self.latest[caller as usize] = Some(t);
        self.begun = t + 1;
    }

    /// Does the operation of an open ticket, and answers its reply in the tables.
    pub(crate) fn apply(&mut self, t: u32, op: Op) -> Result<Value, NoMemory>
        requires exists { t < length self.old.standings.items }
        requires few { (standing_at self.old.standings.items t).done < 18446744073709551615 }
        requires fits { slice_get (map kind_of self.old.tables) op.table ≡ Some (home op.kind) }
        ensures reply { IfOk result (λ v. v ≡ reply self.old.tables op) }
        ensures done { IfOk result (λ _. front_of self.new ≡ done_at (front_of self.old) t op) }
        ensures kinds { map kind_of self.new.tables ≡ map kind_of self.old.tables }
    {
        let reply = self.tables.apply(op)?;
        let done = self.standings[t as usize].done + 1;
        self.standings[t as usize] = Standing {
            done,
            delayed: false,
            ended: false,
        };
        Ok(reply)
    }

    /// Notes that the ticket is delayed.
    pub(crate) fn delay(&mut self, t: u32)
        requires { t < length self.old.standings.items }
        ensures { front_of self.new ≡ delayed_at (front_of self.old) t }
    {
        let done = self.standings[t as usize].done;
        self.standings[t as usize] = Standing {
            done,
            delayed: true,
            ended: false,
        };
    }

    /// Notes that the ticket has ended.
    pub(crate) fn end(&mut self, t: u32)
        requires { t < length self.old.standings.items }
        ensures { front_of self.new ≡ ends_at (front_of self.old) t }
    {
        let done = self.standings[t as usize].done;
        self.standings[t as usize] = Standing {
            done,
            delayed: false,
            ended: true,
        };
    }
}
