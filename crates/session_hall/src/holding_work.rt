// An operation on its shards in hand.

ghost use Rattle.session_hall.specs.Calls.{MayCall};
ghost use Rattle.session_hall.specs.HoldingCalls.{AdmitsKept, ByPresent, IsFreeKept};
ghost use Rattle.session_hall.specs.HoldingCalls.{LaunchedKept, WorksKept};
ghost use Rattle.session_hall.specs.Holdings.{IsHoldingOf, IsKept, StaysHolding, foresight_at};
ghost use Rattle.session_hall.specs.Names.{script_of};
ghost use Rattle.session_hall.specs.Stages.{OnServing};

use crate::answers::Worked;
use crate::applying::{place_of, span_of};
use crate::hall::Hall;
use crate::holding::Holding;
use crate::on_shards::{found_in, missing_in, take_set, work_found, work_in};
use crate::stage::{Stage, serving};
use admission_book::Admission;
use session_journal::Tickets;
use session_values::Op;
use std::mem::replace;
use turn_board::TookAll;

impl<S: Tickets + Drop> Holding<S> {
    /// Whether an older open ticket delays an operation. The first such answer about an operation
    /// is noted in the journal in hand.
    #[inline(always)]
    pub fn admit(&mut self, hall: &Hall<S>, op: Op) -> Admission
        requires holding { IsHoldingOf S.meaning hall.now self.old }
        requires kept { IsKept self.old.book }
        requires may { ByPresent (S.meaning (script_of hall.now)) self.old
            (MayCall (foresight_at self.old) op) }
        ensures holding { StaysHolding S.meaning hall.now self.old self.new }
        ensures admits { OnServing self.old.caller.stage
            (AdmitsKept (S.meaning (script_of hall.now)) self.old self.new op result) }
    {
        let Some(book) = &mut self.book else {
            unreachable!();
        };
        self.caller.admit_in(hall, book, op)
    }

    /// Puts an operation that nobody delays in flight, and gives back the book in hand, and with it
    /// all shards that it took, in one step.
    pub fn launch(&mut self, hall: &Hall<S>, op: Op)
        requires holding { IsHoldingOf S.meaning hall.now self.old }
        requires kept { IsKept self.old.book }
        requires may { ByPresent (S.meaning (script_of hall.now)) self.old
            (MayCall (foresight_at self.old) op) }
        requires free { IsFreeKept self.old op }
        ensures holding { StaysHolding S.meaning hall.now self.old self.new }
        ensures launched { OnServing self.old.caller.stage
            (LaunchedKept (S.meaning (script_of hall.now)) self.old self.new op) }
    {
        let Some(book) = replace(&mut self.book, None) else {
            unreachable!();
        };
        self.caller.launch_in(hall, book, op);
        self.count_ends(hall);
    }

    /// Does an operation that nobody delays on its shards in hand. The shards that aren't in hand
    /// are taken first, all in one step or none, and kept. It is entered by `enter`.
    #[inline(always)]
    pub fn work(&mut self, hall: &Hall<S>, op: Op) -> Worked
        requires holding { IsHoldingOf S.meaning hall.now self.old }
        requires kept { IsKept self.old.book }
        requires may { ByPresent (S.meaning (script_of hall.now)) self.old
            (MayCall (foresight_at self.old) op) }
        requires free { IsFreeKept self.old op }
        ensures holding { StaysHolding S.meaning hall.now self.old self.new }
        ensures worked { WorksKept (S.meaning (script_of hall.now)) self.old self.new
            hall.now.sizes.shards op result }
    {
        let t = serving(&self.caller.stage);
        let first = 1 + place_of(&op, hall.sizes.shards);
        let many = span_of(&op, hall.sizes.shards);
        let caller = &mut self.caller;
        if let Some(found) = found_in(&caller.hands, &op, first, many) {
            let reply = work_found(&mut caller.hands, &op, found);
            caller.stage = Stage::Applied(t, op, reply);
            return Worked::Done(reply);
        }
        let missing = missing_in(&caller.hands, first, many);
        if let TookAll::Busy { turn } = take_set(
            &hall.board,
            &mut caller.seat,
            missing,
            &mut caller.hands,
        ) {
            return Worked::Busy { turn };
        }
        let reply = work_in(&mut caller.hands, &op, first, many);
        caller.stage = Stage::Applied(t, op, reply);
        Worked::Done(reply)
    }
}
