// Plain desks.

ghost use Rattle.std.specs.Prelude.{◌≡◌, ◌≤◌, ◌<◌, ◌↔◌, true, false, Some, None, IfOk, IfSome, IfNone, IsNone, MatchResult, length, slice_range};
ghost use Rattle.session_values.specs.Dialogue.{Calls};
ghost use Rattle.session_values.specs.Serial.{serial};
ghost use Rattle.session_values.specs.Tables.{reply};
ghost use Rattle.symbolic_ops.specs.Matching.{Matches};
ghost use Rattle.session_journal.specs.Desks.{next_of, with_waiting};
ghost use Rattle.session_journal.specs.Script.{session_of};
ghost use Rattle.plain_desk.specs.PlainDesks.{new_desk, at_beginning, ended_count, tables_at};

use crate::done_call::DoneCall;
use crate::ended_ticket::EndedTicket;
use crate::opening::fill_tables;
use plain_tables::PlainTables;
use session_journal::{Desk, Script, Site};
use session_values::{MAX_SYMBOLS, NoMemory, Op, Reply, TableKind, Value};
use std::alloc::Global;
use std::marker::Model;
use std::sync::Wait;
use std::thread::Threads;
use symbolic_ops::{Foresight, instantiate};

/// A desk over tables of its own, for one caller: the tickets of its script are served one at a
/// time, in order. While none is open it counts as ended.
#[derive(Drop)]
pub struct PlainDesk<S: Script + Drop> {
    /// What the tickets call, answer and declare. No call changes it.
    script: S,
    /// The tables after the entries of all tickets, and after the operation that waits.
    tables: PlainTables,
    /// The open ticket, or the last one; before the first one the number of all tickets.
    ticket: u32,
    /// What the open ticket may still call, in room for 256 symbols.
    present: Foresight,
    /// The entries of all tickets, in order.
    entries: Vec<DoneCall>,
    /// The place of the first one of the present ticket.
    from: usize,
    /// The operation that was done and isn't entered yet, with its reply; there is room for it.
    waiting: Option<DoneCall>,
    /// Whether no ticket is open.
    is_ended: bool,
    /// The tickets that have ended, by their number, in room for all.
    ended: Vec<EndedTicket>,
}

impl<S: Script + Drop> Model for PlainDesk<S> {
    ghost use Rattle.std.specs.Prelude.{vec_capacity, drop};
    ghost use Rattle.plain_desk.specs.PlainDesks.{PlainView, desk_of};

    ghost Value = { PlainView S };

    ghost use Rattle.plain_desk.specs.Keeping.{Keeps};

    ghost view = { λ d. record {
      script = d.script;
      desk = desk_of d.ticket (drop d.from d.entries.items) d.present.symbols d.waiting d.is_ended;
    } };

    ghost invariant = { λ d. Keeps (S.meaning d.script)
        (desk_of d.ticket (drop d.from d.entries.items) d.present.symbols d.waiting d.is_ended)
        d.tables d.present.room d.entries.items (vec_capacity d.entries) d.from d.ended.items
        (vec_capacity d.ended) };
}

impl<S: Script + Drop> PlainDesk<S> {
    /// A desk at which no ticket has begun, over tables with what they open with. It has room for
    /// the Replies of all tickets and for a foresight of 256 symbols.
    pub fn new(alloc: Global, script: S, shape: &[TableKind]) -> Result<PlainDesk<S>, NoMemory>
        requires { shape.now ≡ (S.meaning script).shape }
        ensures script { IfOk result (λ d. d.script ≡ script) }
        ensures desk { IfOk result (λ d. d.desk ≡ new_desk (S.meaning script)) }
    {
        let ticket = script.requests();
        let mut tables = PlainTables::new(alloc, shape)?;
        fill_tables(&script, shape, &mut tables)?;
        let present = Foresight::with_room(alloc, MAX_SYMBOLS)?;
        let ended = Vec::with_capacity(alloc, ticket as usize)?;
        Ok(PlainDesk {
            script,
            tables,
            ticket,
            present,
            entries: Vec::new(alloc),
            from: 0,
            waiting: None,
            is_ended: true,
            ended,
        })
    }

    /// Begins the next ticket, with the foresight that it declares at its beginning.
    pub fn start(&mut self) -> Option<u32>
        requires { self.old.desk.ended ≡ true }
        ensures script { self.new.script ≡ self.old.script }
        ensures none { IsNone result ↔
            ((S.meaning self.old.script).requests
            ≤ ended_count (S.meaning self.old.script) self.old.desk) }
        ensures next { IfSome result (λ t.
            t ≡ ended_count (S.meaning self.old.script) self.old.desk) }
        ensures begins { IfSome result (λ t.
            self.new.desk ≡ at_beginning (S.meaning self.old.script) t) }
        ensures stays { IfNone result (self.new.desk ≡ self.old.desk) }
    {
        let t = self.ended.len() as u32;
        if t >= self.script.requests() {
            return None;
        }
        self.script.entry(t, &mut self.present);
        self.ticket = t;
        self.from = self.entries.len();
        self.is_ended = false;
        Some(t)
    }

    /// The Reply of a ticket that has ended.
    pub fn reply(&self, t: u32) -> Option<Reply>
        ensures none { IsNone result ↔ (ended_count (S.meaning self.now.script) self.now.desk ≤ t) }
        // It is the one that the ticket has in the serial run.
        ensures serial { IfSome result (λ r.
            (serial (session_of (S.meaning self.now.script)) t).answer ≡ Some r) }
    {
        let ticket = self.ended.get(t as usize)?;
        Some(ticket.reply)
    }

    /// The operations of a ticket that has ended, with their replies.
    pub fn entries(&self, t: u32) -> Option<&[DoneCall]>
        ensures none { IsNone result ↔ (ended_count (S.meaning self.now.script) self.now.desk ≤ t) }
        // They are those that the ticket has in the serial run.
        ensures serial { IfSome result (λ es.
            (serial (session_of (S.meaning self.now.script)) t).entries ≡ es.now) }
    {
        let place = self.ended.get(t as usize)?;
        Some(part(self.entries.as_slice(), place.from, place.until))
    }
}

/// The entries from one place to another.
fn part(all: &[DoneCall], from: usize, until: usize) -> &[DoneCall]
    requires order { from ≤ until }
    requires within { until ≤ length all.now }
    ensures { result.now ≡ slice_range all.now from until }
{
    &all[from..until]
}

impl<S: Script + Drop> Desk for PlainDesk<S> {
    type Served = S;

    ghost script = { λ d. d.script };

    ghost at = { λ d. d.desk };

    fn call<R: Threads + Wait + Sync>(&mut self, _rt: &R, op: Op) -> Result<Value, NoMemory>
        requires idle { self.old.desk.waiting ≡ None }
        requires next { next_of (S.meaning self.old.script) self.old.desk ≡ Calls op }
        requires matches { Matches self.old.desk.present op }
        ensures script { self.new.script ≡ self.old.script }
        ensures waits { MatchResult result
            (λ v. self.new.desk ≡ with_waiting self.old.desk op v)
            (λ _. (self.new.desk ≡ self.old.desk) × (self.old.desk.sure ≡ false)) }
        // What the trait leaves open: the reply is that of the operation alone at these tables.
        ensures reply { IfOk result (λ v.
            v ≡ reply (tables_at (S.meaning self.old.script) self.old.desk) op) }
    {
        self.entries.reserve(1)?;
        let reply = self.tables.apply(op)?;
        self.waiting = Some(DoneCall { op, reply });
        Ok(reply)
    }

    fn finish<R: Threads + Wait + Sync>(&mut self, _rt: &R, next: &Foresight) {
        if let Some(done) = self.waiting {
            self.entries.push_reserved(done);
            self.waiting = None;
            self.present.replace(next);
        }
    }

    fn finish_at<R: Threads + Wait + Sync>(&mut self, _rt: &R, site: Site, values: &[Value]) {
        if let Some(done) = self.waiting {
            self.entries.push_reserved(done);
            self.waiting = None;
            instantiate(self.script.declaration(site), values, &mut self.present);
        }
    }

    fn declare<R: Threads + Wait + Sync>(&mut self, _rt: &R, f: &Foresight) {
        self.present.replace(f);
    }

    fn declare_at<R: Threads + Wait + Sync>(&mut self, _rt: &R, site: Site, values: &[Value]) {
        instantiate(self.script.declaration(site), values, &mut self.present);
    }

    fn end<R: Threads + Wait + Sync>(&mut self, _rt: &R, reply: Reply) {
        self.ended.push_reserved(EndedTicket {
            reply,
            from: self.from,
            until: self.entries.len(),
        });
        self.present.clear();
        self.is_ended = true;
    }
}
