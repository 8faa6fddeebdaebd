// Books.

ghost use Rattle.std.specs.Prelude.{◌≡◌, ℕ, ◌+◌, ◌*◌, ◌<◌, ◌≤◌, None, Some, IsSome, IfOk, IfSome, length, map};
ghost use Rattle.session_values.specs.Limits.{max_callers};
ghost use Rattle.session_values.specs.Serial.{serial, serial_replies, tables_before};
ghost use Rattle.session_journal.specs.Journal.{after, begun, ended};
ghost use Rattle.session_journal.specs.Script.{HasSite, IsScript, calls, declared_with, session_of};
ghost use Rattle.admission_book.specs.Book.{kept_for, opened, record_of};
ghost use Rattle.admission_book.specs.Lawful.{Lawful};
ghost use Rattle.admission_book.specs.Methods.{Admits, Begins, DidIt, Entered, HasEnded, IfNext, IsOldestOpen, MayAdmit, MayBeginNext, MayDo, MayEnd, MayEnter, MayNarrow, Judges, Narrowed, StaysLawful};

use crate::admission::Admission;
use crate::blocker::least_against;
use crate::caller_record::CallerRecord;
use crate::fields::{idle_records, least_ticket, next_oldest, note_delay, place_of};
use crate::kept_replies::{KeptReplies, Replies};
use session_journal::{Event, Journal, Site, Tickets};
use session_values::{NoMemory, Op, Reply, Value};
use std::alloc::Global;
use std::marker::Model;
use symbolic_ops::Foresight;

/// What a book holds.
#[derive(Drop)]
struct Inner<S: Tickets + Drop> {
    /// What the tickets call, answer and declare. No call changes it.
    script: S,
    /// How many tickets are begun, so the next one's number.
    begun: u32,
    /// What was done, in room for all events that the script allows.
    journal: Journal,
    /// For each ticket of the script the reply with which it ended, or None until then.
    kept: KeptReplies,
    /// For each caller, by its number, the ticket that it serves.
    records: Vec<CallerRecord>,
    /// No older ticket than this one is open, so nobody delays it.
    oldest: u32,
}

/// A script, the journal of what was done of it, the replies of its tickets that have ended, and
/// for each caller the ticket that it serves. They are in a box, so that a book moves in one word.
#[derive(Drop)]
pub struct Book<S: Tickets + Drop> {
    inner: Box<Inner<S>>,
}

impl<S: Tickets + Drop> Model for Book<S> {
    ghost use Rattle.admission_book.specs.Methods.{BookView};
    ghost use Rattle.admission_book.specs.Kept.{Keeps, book_of};

    ghost Value = { BookView S };

    ghost view = { λ b. let inner = b.inner.value in record {
      script = inner.script;
      book = book_of (S.meaning inner.script)
          inner.journal.events inner.kept inner.records.items;
    } };

    ghost invariant = { λ b. let inner = b.inner.value in Keeps
        (S.meaning inner.script) inner.begun inner.oldest inner.journal inner.kept
        inner.records.items };
}

impl<S: Tickets + Drop> Book<S> {
    /// A book in which no ticket is begun. No later call takes memory.
    pub fn open(alloc: Global, script: S, callers: u32) -> Result<Book<S>, NoMemory>
        requires some { 1 ≤ callers }
        requires few { callers ≤ max_callers }
        ensures script { IfOk result (λ b. b.script ≡ script) }
        ensures opened { IfOk result (λ b. b.book ≡ opened (S.meaning script).requests callers) }
        ensures lawful { IfOk result (λ b. Lawful (S.meaning b.script) b.book) }
    {
        let requests = script.requests();
        let calls = script.calls();
        let journal = Journal::with_room(alloc, 2 * requests + 2 * calls)?;
        let kept = KeptReplies::none(alloc, requests)?;
        let records = idle_records(alloc, callers)?;
        let inner = Inner {
            script,
            begun: 0,
            journal,
            kept,
            records,
            oldest: 0,
        };
        Ok(Book {
            inner: Box::new(alloc, inner)?,
        })
    }

    /// The script, which is lawful.
    pub fn script(&self) -> &S
        ensures script { result.now ≡ self.now.script }
        ensures lawful { IsScript (S.meaning self.now.script) }
    {
        &self.inner.script
    }

    /// The next ticket, or None where all are begun.
    pub fn next_ticket(&self) -> Option<u32>
        ensures { IfNext result (S.meaning self.now.script).requests self.now.book.journal }
    {
        if self.inner.begun < self.inner.script.requests() {
            Some(self.inner.begun)
        } else {
            None
        }
    }

    /// Begins the next ticket for a caller, or None where all are begun.
    pub fn begin(&mut self, caller: u32, entry: &Foresight) -> Option<u32>
        requires lawful { Lawful (S.meaning self.old.script) self.old.book }
        requires may { MayBeginNext
            (S.meaning self.old.script) self.old.book caller entry.now.symbols }
        ensures begins { Begins (S.meaning self.old.script) self.old.book
            caller entry.now.symbols result self.new.book }
        ensures stays { StaysLawful S S.meaning self.old self.new }
    {
        let inner = &mut *self.inner;
        if inner.begun >= inner.script.requests() {
            return None;
        }
        let t = inner.begun;
        inner
            .journal
            .push_reserved(Event::Begin { ticket: t, caller });
        inner.begun += 1;
        inner.records[caller as usize].begin(t, entry);
        Some(t)
    }

    /// Begins the next ticket for a caller with what it declares at its beginning, or None where
    /// all are begun. Where the script tells the declaration by a site, no list of it is made.
    pub fn begin_next(&mut self, caller: u32) -> Option<u32>
        requires lawful { Lawful (S.meaning self.old.script) self.old.book }
        requires caller { caller < length self.old.book.records }
        requires idle { record_of self.old.book caller ≡ None }
        ensures begins { Begins (S.meaning self.old.script) self.old.book caller
            ((S.meaning self.old.script).entry (begun self.old.book.journal))
            result self.new.book }
        ensures stays { StaysLawful S S.meaning self.old self.new }
    {
        let inner = &mut *self.inner;
        if inner.begun >= inner.script.requests() {
            return None;
        }
        let t = inner.begun;
        inner
            .journal
            .push_reserved(Event::Begin { ticket: t, caller });
        inner.begun += 1;
        inner.records[caller as usize].begin_entry(&inner.script, t);
        Some(t)
    }

    /// Makes a list that the ticket's foresight covers its foresight.
    pub fn narrow(&mut self, t: u32, f: &Foresight)
        requires lawful { Lawful (S.meaning self.old.script) self.old.book }
        requires may { MayNarrow (S.meaning self.old.script) self.old.book t f.now.symbols }
        ensures narrowed { Narrowed self.old.book t f.now.symbols self.new.book }
        ensures stays { StaysLawful S S.meaning self.old self.new }
    {
        let inner = &mut *self.inner;
        let caller = place_of(inner.records.as_slice(), t);
        inner.records[caller].narrow(f);
    }

    /// Makes what the script declares at a site with these values the ticket's foresight, which
    /// covers it. Site and values are kept, and no list is made.
    pub fn narrow_at(&mut self, t: u32, site: Site, values: &[Value])
        requires lawful { Lawful (S.meaning self.old.script) self.old.book }
        requires site { HasSite (S.meaning self.old.script) site (length values.now) }
        requires may { MayNarrow (S.meaning self.old.script) self.old.book t
            (declared_with (S.meaning self.old.script) site values.now) }
        ensures narrowed { Narrowed self.old.book t
            (declared_with (S.meaning self.old.script) site values.now) self.new.book }
        ensures stays { StaysLawful S S.meaning self.old self.new }
    {
        let inner = &mut *self.inner;
        let caller = place_of(inner.records.as_slice(), t);
        inner.records[caller].narrow_at(site, values);
    }

    /// Puts the operation in flight, unless an older open ticket may still call one with which it
    /// doesn't commute. The first such answer about an operation is noted in the journal.
    pub fn admit(&mut self, t: u32, op: Op) -> Admission
        requires lawful { Lawful (S.meaning self.old.script) self.old.book }
        requires may { MayAdmit (S.meaning self.old.script) self.old.book t op }
        ensures admits { Admits self.old.book t op result self.new.book }
        ensures oldest { IsOldestOpen (Some t) self.old.book.journal → result ≡ Admission.Admitted }
        ensures stays { StaysLawful S S.meaning self.old self.new }
    {
        let inner = &mut *self.inner;
        let caller = place_of(inner.records.as_slice(), t);
        let records = inner.records.as_slice();
        let Some(b) = least_against(&inner.script, records, inner.oldest, t, &op) else {
            inner.records[caller].launch(op);
            return Admission::Admitted;
        };
        let delay = Event::Delay {
            ticket: t,
            op,
            older: b.older,
            symbol: b.symbol,
        };
        note_delay(&mut inner.journal, &mut inner.records[caller], delay);
        Admission::Delayed {
            older: b.older,
            symbol: b.symbol,
        }
    }

    /// Notes that the operation in flight was done with this reply, and narrows.
    pub fn done(&mut self, t: u32, reply: Value, next: &Foresight)
        requires lawful { Lawful (S.meaning self.old.script) self.old.book }
        requires may { MayDo (S.meaning self.old.script) self.old.book t reply next.now.symbols }
        ensures did { DidIt self.old.book t reply next.now.symbols self.new.book }
        ensures stays { StaysLawful S S.meaning self.old self.new }
    {
        let inner = &mut *self.inner;
        let caller = place_of(inner.records.as_slice(), t);
        let op = inner.records[caller].finish(next);
        let done = Event::Done {
            ticket: t,
            op,
            reply,
        };
        inner.journal.push_reserved(done);
    }

    /// The same, where the list is what the script declares at a site with these values.
    pub fn done_at(&mut self, t: u32, reply: Value, site: Site, values: &[Value])
        requires lawful { Lawful (S.meaning self.old.script) self.old.book }
        requires site { HasSite (S.meaning self.old.script) site (length values.now) }
        requires may { MayDo (S.meaning self.old.script) self.old.book t reply
            (declared_with (S.meaning self.old.script) site values.now) }
        ensures did { DidIt self.old.book t reply
            (declared_with (S.meaning self.old.script) site values.now) self.new.book }
        ensures stays { StaysLawful S S.meaning self.old self.new }
    {
        let inner = &mut *self.inner;
        let caller = place_of(inner.records.as_slice(), t);
        let op = inner.records[caller].finish_at(site, values);
        let done = Event::Done {
            ticket: t,
            op,
            reply,
        };
        inner.journal.push_reserved(done);
    }

    /// Whether an older open ticket may still call an operation with which this one of a ticket
    /// doesn't commute. Nothing is noted.
    pub fn judge(&self, t: u32, op: &Op) -> Admission
        ensures judges { Judges self.now.book t op.now result }
        ensures oldest { IsOldestOpen (Some t) self.now.book.journal
            → Lawful (S.meaning self.now.script) self.now.book → result ≡ Admission.Admitted }
    {
        let inner = &*self.inner;
        let records = inner.records.as_slice();
        match least_against(&inner.script, records, inner.oldest, t, op) {
            None => Admission::Admitted,
            Some(b) => Admission::Delayed {
                older: b.older,
                symbol: b.symbol,
            },
        }
    }

    /// Admits an operation that nobody delays, notes that it was done with this reply, and narrows.
    pub fn enter(&mut self, t: u32, op: Op, reply: Value, next: &Foresight)
        requires lawful { Lawful (S.meaning self.old.script) self.old.book }
        requires may { MayEnter (S.meaning self.old.script) self.old.book t op reply
            next.now.symbols }
        ensures entered { Entered self.old.book t op reply next.now.symbols self.new.book }
        ensures stays { StaysLawful S S.meaning self.old self.new }
    {
        let inner = &mut *self.inner;
        let caller = place_of(inner.records.as_slice(), t);
        inner.records[caller].enter(next);
        let done = Event::Done {
            ticket: t,
            op,
            reply,
        };
        inner.journal.push_reserved(done);
    }

    /// The same, where the list is what the script declares at a site with these values.
    pub fn enter_at(&mut self, t: u32, op: Op, reply: Value, site: Site, values: &[Value])
        requires lawful { Lawful (S.meaning self.old.script) self.old.book }
        requires site { HasSite (S.meaning self.old.script) site (length values.now) }
        requires may { MayEnter (S.meaning self.old.script) self.old.book t op reply
            (declared_with (S.meaning self.old.script) site values.now) }
        ensures entered { Entered self.old.book t op reply
            (declared_with (S.meaning self.old.script) site values.now) self.new.book }
        ensures stays { StaysLawful S S.meaning self.old self.new }
    {
        let inner = &mut *self.inner;
        let caller = place_of(inner.records.as_slice(), t);
        inner.records[caller].enter_at(site, values);
        let done = Event::Done {
            ticket: t,
            op,
            reply,
        };
        inner.journal.push_reserved(done);
    }

    /// Ends the ticket with its reply.
    pub fn end(&mut self, t: u32, reply: Reply)
        requires lawful { Lawful (S.meaning self.old.script) self.old.book }
        requires may { MayEnd (S.meaning self.old.script) self.old.book t reply }
        ensures ended { HasEnded self.old.book t reply self.new.book }
        ensures stays { StaysLawful S S.meaning self.old self.new }
    {
        let inner = &mut *self.inner;
        let caller = place_of(inner.records.as_slice(), t);
        inner.records[caller].end();
        inner.oldest = next_oldest(inner.records.as_slice(), inner.oldest, t, inner.begun);
        inner.journal.push_reserved(Event::End { ticket: t, reply });
        inner.kept.keep(t, reply);
    }

    /// The least open ticket, or None where none is open.
    pub fn oldest_open(&self) -> Option<u32>
        requires lawful { Lawful (S.meaning self.now.script) self.now.book }
        ensures { IsOldestOpen result self.now.book.journal }
    {
        least_ticket(self.inner.records.as_slice())
    }

    /// What was done, with room for all that is still to come.
    pub fn journal(&self) -> &Journal
        requires lawful { Lawful (S.meaning self.now.script) self.now.book }
        ensures events { result.now.events ≡ self.now.book.journal }
        ensures few { length self.now.book.journal
            ≤ 2 * (S.meaning self.now.script).requests + 2 * calls (S.meaning self.now.script) }
        ensures room { 2 * (S.meaning self.now.script).requests
            + 2 * calls (S.meaning self.now.script) ≤ result.now.room }
    {
        &self.inner.journal
    }

    /// The reply of a ticket, or None where it hasn't ended or isn't one of the script's.
    pub fn reply(&self, t: u32) -> Option<Reply>
        ensures kept { result ≡ kept_for self.now.book t }
        ensures ended { Lawful (S.meaning self.now.script) self.now.book →
            result ≡ ended self.now.book.journal t }
        ensures serial { Lawful (S.meaning self.now.script) self.now.book →
            IfSome result (λ r.
            (serial (session_of (S.meaning self.now.script)) t).answer ≡ Some r) }
    {
        self.inner.kept.reply(t)
    }

    /// What was done of all tickets, and their replies.
    pub fn close(self) -> (Journal, Replies)
        requires lawful { Lawful (S.meaning self.script) self.book }
        requires ended { (t : ℕ) → t < (S.meaning self.script).requests →
            IsSome (ended self.book.journal t) }
        ensures events { result.0.events ≡ self.book.journal }
        ensures kept { map (λ r. Some r) result.1 ≡ self.book.kept }
        ensures tables { after (S.meaning self.script).opening result.0.events
            ≡ tables_before (session_of (S.meaning self.script)) (S.meaning self.script).requests }
        ensures serial { result.1
            ≡ serial_replies (session_of (S.meaning self.script)) (S.meaning self.script).requests }
    {
        let Book { inner } = self;
        let Inner {
            script: _,
            begun: _,
            journal,
            kept,
            records: _,
            oldest: _,
        } = Box::into_inner(inner);
        (journal, kept.all())
    }
}
