// What the calls of a session do at its desk.

ghost use Rattle.std.specs.Prelude.{◌≡◌, IfErr, IfOk, IfSome};
ghost use Rattle.foresight_c.specs.Sessions as spec;
ghost use Rattle.foresight_c.specs.Sessions.{HasOpenedIn, IsDumped, IsServing, IsTold, IsUnopenedDesk, ServeAt};
ghost use Rattle.foresight_c.specs.SessionCalls.{DumpOn, ServeOn};

use crate::answer::Answer;
use crate::desk::Desk;
use crate::fronts::put_front;
use crate::handing::hand_over;
use crate::served::Served;
use crate::session_desk::SessionDesk;
use crate::session_messages::{ended_line, ended_number, ended_older};
use crate::text_store::TextStore;
use byte_ends::WriteBuffer;
use live_session::{Dumped, LiveSession, OpenError};
use serve_faults::Status;
use std::alloc::Global;

/// A desk of a session over a session file without requests.
pub(crate) fn opened(
    alloc: Global,
    text: &[u8],
    seed: u64,
    most_names: u32,
) -> Result<Box<Desk, Global>, OpenError>
    ensures opened { IfOk result (λ desk. HasOpenedIn text.now seed most_names desk.value) }
    ensures unopened { IfErr result (IsUnopenedDesk text.now most_names) }
{
    let Ok(replies) = WriteBuffer::new(alloc) else {
        return Err(OpenError::NoMemory);
    };
    let session = LiveSession::open(alloc, text, seed, most_names)?;
    match boxed(alloc, Desk::Session(SessionDesk { session, replies })) {
        Some(desk) => Ok(desk),
        None => Err(OpenError::NoMemory),
    }
}

// The desk in a block of its own, if there is memory for it.
fn boxed(alloc: Global, desk: Desk) -> Option<Box<Desk, Global>>
    ensures { IfSome result (λ b. b.value ≡ desk) }
{
    match Box::new(alloc, desk) {
        Ok(desk) => Some(desk),
        Err(_) => None,
    }
}

// Serves lines at a session's desk.
fn serve_at(
    desk: &mut SessionDesk,
    lines: &[u8],
    out: &mut [u8],
    message: &mut [u8],
    served: &mut Served,
) -> u8
    ensures { ServeAt desk.old desk.new lines.now out.old out.new message.old message.new
        served.new result }
{
    match std::str::from_utf8(lines) {
        Ok(text) => serve_text(desk, text, out, message, served),
        Err(_) => tell(served, 16, "not text\n", message),
    }
}

// Serves the lines of a text, and hands their replies over.
fn serve_text(
    desk: &mut SessionDesk,
    text: &str,
    out: &mut [u8],
    message: &mut [u8],
    served: &mut Served,
) -> u8
    ensures { IsServing desk.old desk.new text.now out.old out.new message.old message.new
        served.new result }
{
    desk.replies.clear();
    let batch = desk.session.serve(text, out.len(), &mut desk.replies);
    served.used = batch.used;
    served.requests = batch.requests;
    served.older = ended_older(batch.ended);
    served.written = put_front(out, desk.replies.bytes());
    served.told = put_front(message, ended_line(batch.ended).as_bytes());
    ended_number(batch.ended)
}

/// Tells that nothing was served, and why.
pub(crate) fn tell(served: &mut Served, number: u8, line: &str, message: &mut [u8]) -> u8
    ensures { IsTold message.old message.new served.new number line.now result }
{
    served.used = 0;
    served.written = 0;
    served.requests = 0;
    served.older = 0;
    served.told = put_front(message, line.as_bytes());
    number
}

/// Says that nothing was handed over, since there is no session.
pub(crate) fn wrong(answer: &mut Answer) -> u8
    ensures written { answer.new.written ≡ 0 }
    ensures needed { answer.new.needed ≡ 0 }
    ensures told { answer.new.told ≡ 0 }
    ensures number { result ≡ 11 }
{
    answer.written = 0;
    answer.needed = 0;
    answer.told = 0;
    11
}

impl Desk {
    /// Serves lines, where there is a session.
    pub(crate) fn serve(
        &mut self,
        lines: &[u8],
        out: &mut [u8],
        message: &mut [u8],
        served: &mut Served,
    ) -> u8
        ensures { ServeOn self.old self.new lines.now out.old out.new message.old message.new
            served.new result }
    {
        match self {
            Desk::Session(desk) => serve_at(desk, lines, out, message, served),
            Desk::Tables(_) => tell(served, 11, "", message),
        }
    }

    /// Writes the tables of the session, where there is one, and hands their text over.
    pub(crate) fn dump(
        &self,
        alloc: Global,
        out: &mut [u8],
        message: &mut [u8],
        answer: &mut Answer,
    ) -> u8
        ensures { DumpOn self.now out.old out.new message.old message.new answer.new result }
    {
        match self {
            Desk::Session(desk) => dump_of(alloc, &desk.session, out, message, answer),
            Desk::Tables(_) => wrong(answer),
        }
    }
}

// Writes the tables of a session, and hands their text over.
fn dump_of(
    alloc: Global,
    session: &LiveSession,
    out: &mut [u8],
    message: &mut [u8],
    answer: &mut Answer,
) -> u8
    ensures { IsDumped session.now out.old out.new message.old message.new answer.new result }
{
    let mut store = TextStore::new(alloc);
    let dumped = session.dump(&mut store);
    let status = dump_status(dumped);
    hand_over(status, store.bytes(), out, message, answer)
}

// The status of a dump to a store, which fails only if memory runs out.
fn dump_status(dumped: Dumped) -> Status
    ensures { result ≡ spec.dump_status dumped }
{
    match dumped {
        Dumped::Written => Status::Fine,
        Dumped::Failed | Dumped::NoMemory => Status::NoMemory,
    }
}
