// A job: a caller that may keep the book serves tickets until none is left.

ghost use Rattle.hall_serving.specs.Jobs.{IsJobOf, HasServed};

use crate::after::GoesOn;
use crate::crew::Crew;
use crate::runner::serve_tickets;
use session_hall::Holding;
use session_journal::{Scratch, Serves, Tickets};
use std::sync::Wait;
use std::thread::Threads;
use worker_gate::Gate;

/// A caller and the room that it serves with.
#[derive(Drop)]
pub struct Job<S: Tickets + Drop> {
    pub(crate) holding: Holding<S>,
    pub(crate) scratch: Scratch,
}

// Serves tickets until all are begun.
pub(crate) fn serve_job<R: Threads + Wait + Sync, S: Serves + Drop, G: Gate>(
    crew: Crew<'_, R, S, G>,
    job: &mut Job<S>,
)
    requires { IsJobOf S.meaning crew.hall.now job.old }
    ensures { HasServed S.meaning crew.entry.hall.now job.old job.new }
{
    let Job { holding, scratch } = job;
    serve_tickets(crew, holding, scratch, &mut GoesOn);
}
