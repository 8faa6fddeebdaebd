// The waiting calls: each repeats its try call, and waits between tries.

ghost use Rattle.std.specs.Prelude.{◌≡◌, length};
ghost use Rattle.session_journal.specs.Script.{HasSite, declared_with};
ghost use Rattle.turn_board.specs.Boards.{turn_count};
ghost use Rattle.session_hall.specs.Callers.{IsCallerOf, StaysCaller, foresight_of};
ghost use Rattle.session_hall.specs.Calls.{ByNote, MayDeclare, MayCall, MayAnswer, MayFinish};
ghost use Rattle.session_hall.specs.Names.{script_of};
ghost use Rattle.session_hall.specs.Stages.{IsBetween, IsInFlight};
ghost use Rattle.session_hall.specs.Waits.{BegunAfter, DeclaredAfter, AdmittedAfter};
ghost use Rattle.session_hall.specs.Waits.{AppliedAfter, FinishedAfter, EndedAfter};

use crate::answers::{Admitting, Applying, Began, Declared, Ending, Finishing};
use crate::caller::Caller;
use crate::hall::Hall;
use crate::waits::Waits;
use session_journal::{Site, Tickets};
use session_values::{Op, Reply, Value};
use std::sync::Wait;
use std::sync::atomic::Ordering;
use symbolic_ops::Foresight;

impl<S: Tickets + Drop> Caller<S> {
    /// Begins the next ticket, however often the book is taken, or tells that all are begun.
    pub fn begin<R: Wait>(&mut self, rt: &R, hall: &Hall<S>) -> Option<u32>
        requires caller { IsCallerOf S.meaning hall.now self.old }
        requires stage { IsBetween self.old.stage }
        ensures caller { StaysCaller S.meaning hall.now self.old self.new }
        ensures begun { BegunAfter (S.meaning (script_of hall.now)) self.old self.new result }
    {
        self.begin_with(rt, hall, &mut Waits::none())
    }

    /// The same, which counts its failed attempts.
    pub fn begin_with<R: Wait>(&mut self, rt: &R, hall: &Hall<S>, waits: &mut Waits) -> Option<u32>
        requires caller { IsCallerOf S.meaning hall.now self.old }
        requires stage { IsBetween self.old.stage }
        ensures caller { StaysCaller S.meaning hall.now self.old self.new }
        ensures begun { BegunAfter (S.meaning (script_of hall.now)) self.old self.new result }
    {
        waits.reset();
        for _ in rt.forever() {
            match self.try_begin(hall) {
                Began::Ticket(t) => return Some(t),
                Began::AllBegun => return None,
                Began::Busy { turn } => waits.until_free(hall, turn),
            }
        }
        unreachable!()
    }

    /// Makes a list that the ticket's foresight covers its foresight, however often the book is
    /// taken.
    pub fn declare<R: Wait>(&mut self, rt: &R, hall: &Hall<S>, f: &Foresight)
        requires caller { IsCallerOf S.meaning hall.now self.old }
        requires may { ByNote (S.meaning (script_of hall.now)) self.old
            (MayDeclare (foresight_of self.old) f.now.symbols) }
        ensures caller { StaysCaller S.meaning hall.now self.old self.new }
        ensures declared { DeclaredAfter (S.meaning (script_of hall.now)) self.old self.new
            f.now.symbols }
    {
        self.declare_with(rt, hall, f, &mut Waits::none());
    }

    /// The same, which counts its failed attempts.
    pub fn declare_with<R: Wait>(
        &mut self,
        rt: &R,
        hall: &Hall<S>,
        f: &Foresight,
        waits: &mut Waits,
    )
        requires caller { IsCallerOf S.meaning hall.now self.old }
        requires may { ByNote (S.meaning (script_of hall.now)) self.old
            (MayDeclare (foresight_of self.old) f.now.symbols) }
        ensures caller { StaysCaller S.meaning hall.now self.old self.new }
        ensures declared { DeclaredAfter (S.meaning (script_of hall.now)) self.old self.new
            f.now.symbols }
    {
        waits.reset();
        for _ in rt.forever() {
            match self.try_declare(hall, f) {
                Declared::Yes => return,
                Declared::Busy { turn } => waits.until_free(hall, turn),
            }
        }
        unreachable!()
    }

    /// The same, where the list is what the script declares at a site with these values.
    pub fn declare_at<R: Wait>(
        &mut self,
        rt: &R,
        hall: &Hall<S>,
        site: Site,
        values: &[Value],
        waits: &mut Waits,
    )
        requires caller { IsCallerOf S.meaning hall.now self.old }
        requires site { HasSite (S.meaning (script_of hall.now)) site (length values.now) }
        requires may { ByNote (S.meaning (script_of hall.now)) self.old
            (MayDeclare (foresight_of self.old)
            (declared_with (S.meaning (script_of hall.now)) site values.now)) }
        ensures caller { StaysCaller S.meaning hall.now self.old self.new }
        ensures declared { DeclaredAfter (S.meaning (script_of hall.now)) self.old self.new
            (declared_with (S.meaning (script_of hall.now)) site values.now) }
    {
        waits.reset();
        for _ in rt.forever() {
            match self.try_declare_at(hall, site, values) {
                Declared::Yes => return,
                Declared::Busy { turn } => waits.until_free(hall, turn),
            }
        }
        unreachable!()
    }

    /// Puts an operation in flight, however often the book is taken or the operation delayed.
    pub fn admit<R: Wait>(&mut self, rt: &R, hall: &Hall<S>, op: Op)
        requires caller { IsCallerOf S.meaning hall.now self.old }
        requires may { ByNote (S.meaning (script_of hall.now)) self.old
            (MayCall (foresight_of self.old) op) }
        ensures caller { StaysCaller S.meaning hall.now self.old self.new }
        ensures admitted { AdmittedAfter (S.meaning (script_of hall.now)) self.old self.new op }
    {
        self.admit_with(rt, hall, op, &mut Waits::none());
    }

    /// The same, which counts its failed attempts.
    pub fn admit_with<R: Wait>(&mut self, rt: &R, hall: &Hall<S>, op: Op, waits: &mut Waits)
        requires caller { IsCallerOf S.meaning hall.now self.old }
        requires may { ByNote (S.meaning (script_of hall.now)) self.old
            (MayCall (foresight_of self.old) op) }
        ensures caller { StaysCaller S.meaning hall.now self.old self.new }
        ensures admitted { AdmittedAfter (S.meaning (script_of hall.now)) self.old self.new op }
    {
        waits.reset();
        for _ in rt.forever() {
            waits.note(hall);
            match self.try_admit(hall, op) {
                Admitting::Admitted => return,
                Admitting::Delayed {
                    older: _,
                    symbol: _,
                } => waits.delayed(hall),
                Admitting::Busy { turn } => waits.until_free(hall, turn),
            }
        }
        unreachable!()
    }

    /// Does the operation in flight on its shards, however often one of them is taken.
    pub fn apply<R: Wait>(&mut self, rt: &R, hall: &Hall<S>) -> Value
        requires caller { IsCallerOf S.meaning hall.now self.old }
        requires stage { IsInFlight self.old.stage }
        ensures caller { StaysCaller S.meaning hall.now self.old self.new }
        ensures applied { AppliedAfter (S.meaning (script_of hall.now)) self.old self.new
            hall.now.sizes.shards (turn_count hall.now.board) result }
    {
        self.apply_with(rt, hall, &mut Waits::none())
    }

    /// The same, which counts its failed attempts.
    pub fn apply_with<R: Wait>(&mut self, rt: &R, hall: &Hall<S>, waits: &mut Waits) -> Value
        requires caller { IsCallerOf S.meaning hall.now self.old }
        requires stage { IsInFlight self.old.stage }
        ensures caller { StaysCaller S.meaning hall.now self.old self.new }
        ensures applied { AppliedAfter (S.meaning (script_of hall.now)) self.old self.new
            hall.now.sizes.shards (turn_count hall.now.board) result }
    {
        waits.reset();
        for _ in rt.forever() {
            match self.try_apply(hall) {
                Applying::Applied(v) => return v,
                Applying::Busy { turn } => waits.until_free(hall, turn),
            }
        }
        unreachable!()
    }

    /// Enters the operation that was done on its shards, however often the book is taken.
    pub fn finish<R: Wait>(&mut self, rt: &R, hall: &Hall<S>, next: &Foresight)
        requires caller { IsCallerOf S.meaning hall.now self.old }
        requires may { MayFinish (S.meaning (script_of hall.now)) self.old next.now.symbols }
        ensures caller { StaysCaller S.meaning hall.now self.old self.new }
        ensures finished { FinishedAfter (S.meaning (script_of hall.now)) self.old self.new
            next.now.symbols }
    {
        self.finish_with(rt, hall, next, &mut Waits::none());
    }

    /// The same, which counts its failed attempts.
    pub fn finish_with<R: Wait>(
        &mut self,
        rt: &R,
        hall: &Hall<S>,
        next: &Foresight,
        waits: &mut Waits,
    )
        requires caller { IsCallerOf S.meaning hall.now self.old }
        requires may { MayFinish (S.meaning (script_of hall.now)) self.old next.now.symbols }
        ensures caller { StaysCaller S.meaning hall.now self.old self.new }
        ensures finished { FinishedAfter (S.meaning (script_of hall.now)) self.old self.new
            next.now.symbols }
    {
        waits.reset();
        for _ in rt.forever() {
            match self.try_finish(hall, next) {
                Finishing::Done => return,
                Finishing::Busy { turn } => waits.until_free(hall, turn),
            }
        }
        unreachable!()
    }

    /// The same, where the list is what the script declares at a site with these values.
    pub fn finish_at<R: Wait>(
        &mut self,
        rt: &R,
        hall: &Hall<S>,
        site: Site,
        values: &[Value],
        waits: &mut Waits,
    )
        requires caller { IsCallerOf S.meaning hall.now self.old }
        requires site { HasSite (S.meaning (script_of hall.now)) site (length values.now) }
        requires may { MayFinish (S.meaning (script_of hall.now)) self.old
            (declared_with (S.meaning (script_of hall.now)) site values.now) }
        ensures caller { StaysCaller S.meaning hall.now self.old self.new }
        ensures finished { FinishedAfter (S.meaning (script_of hall.now)) self.old self.new
            (declared_with (S.meaning (script_of hall.now)) site values.now) }
    {
        waits.reset();
        for _ in rt.forever() {
            match self.try_finish_at(hall, site, values) {
                Finishing::Done => return,
                Finishing::Busy { turn } => waits.until_free(hall, turn),
            }
        }
        unreachable!()
    }

    /// Ends the ticket with its reply, however often the book is taken.
    pub fn end<R: Wait>(&mut self, rt: &R, hall: &Hall<S>, reply: Reply)
        requires caller { IsCallerOf S.meaning hall.now self.old }
        requires may { ByNote (S.meaning (script_of hall.now)) self.old (MayAnswer reply) }
        ensures caller { StaysCaller S.meaning hall.now self.old self.new }
        ensures ended { EndedAfter (S.meaning (script_of hall.now)) self.old self.new reply }
    {
        self.end_with(rt, hall, reply, &mut Waits::none());
    }

    /// The same, which counts its failed attempts.
    pub fn end_with<R: Wait>(&mut self, rt: &R, hall: &Hall<S>, reply: Reply, waits: &mut Waits)
        requires caller { IsCallerOf S.meaning hall.now self.old }
        requires may { ByNote (S.meaning (script_of hall.now)) self.old (MayAnswer reply) }
        ensures caller { StaysCaller S.meaning hall.now self.old self.new }
        ensures ended { EndedAfter (S.meaning (script_of hall.now)) self.old self.new reply }
    {
        waits.reset();
        for _ in rt.forever() {
            match self.try_end(hall, reply) {
                Ending::Ended => {
                    hall.ends.fetch_add(1, Ordering::SeqCst);
                    return;
                }
                Ending::Busy { turn } => waits.until_free(hall, turn),
            }
        }
        unreachable!()
    }
}
