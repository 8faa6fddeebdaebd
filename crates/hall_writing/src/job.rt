// Jobs whose callers hand their replies over.

ghost use Rattle.std.specs.Prelude.{◌≡◌, None};
ghost use Rattle.hall_writing.specs.Ends.{state_of};
ghost use Rattle.hall_writing.specs.Jobs.{HasOffered, HasServed, IsJobOf, replies_of};

use crate::offering::{MOST_OFFERS, Offering};
use crate::{End, Lane};
use hall_serving::{Crew, serve_tickets};
use session_hall::{Caller, Holding};
use session_journal::{Scratch, Serves, Tickets};
use std::sync::Wait;
use std::thread::Threads;
use worker_gate::Gate;

/// A caller that may keep the book, the room that it serves with, and its end of the lane.
#[derive(Drop)]
pub struct Job<S: Tickets + Drop> {
    pub(crate) holding: Holding<S>,
    pub(crate) scratch: Scratch,
    pub(crate) end: End,
}

impl<S: Tickets + Drop> Job<S> {
    // Its caller, when the book isn't in hand.
    pub(crate) fn into_caller(self) -> Caller<S>
        requires { self.holding.book ≡ None }
        ensures { result ≡ self.holding.caller }
    {
        let Job {
            holding,
            scratch: _,
            end: _,
        } = self;
        holding.into_caller()
    }
}

// Serves tickets until all are begun. After each end it offers the reply to the lane, before it
// begins another ticket; a reply for which the lane has no room is taken from the
// book by the caller that writes.
pub(crate) fn serve_and_offer<R: Threads + Wait + Sync, S: Serves + Drop, G: Gate>(
    crew: Crew<'_, R, S, G>,
    lane: &Lane,
    job: &mut Job<S>,
)
    requires { IsJobOf S.meaning crew.hall.now lane.now (replies_of (S.meaning crew.plan.now))
        job.old }
    ensures served { HasServed S.meaning crew.entry.hall.now job.old job.new }
    ensures offered { HasOffered job.old.holding.caller job.new.holding.caller
        (state_of job.old.end) (state_of job.new.end) }
{
    let Job {
        holding,
        scratch,
        end,
    } = job;
    let mut offering = Offering {
        lane,
        end,
        patience: MOST_OFFERS,
    };
    serve_tickets(crew, holding, scratch, &mut offering);
}
