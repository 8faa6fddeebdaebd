// The numbers and lines of what a session answers.

ghost use Rattle.std.specs.Prelude.{◌≡◌};
ghost use Rattle.foresight_c.specs.SessionMessages as spec;
ghost use Rattle.foresight_c.specs.Sessions.{HasMessage};

use crate::fronts::put_front;
use live_session::{Answered, Ended, LineRefusal, OpenError};
use serve_faults::{Fault, Status, message_of};

/// The number of how lines ended.
pub(crate) fn ended_number(ended: Ended) -> u8
    ensures { result ≡ spec.ended_number ended }
{
    match ended {
        Ended::All => 0,
        Ended::Full => 5,
        Ended::Stopped(answer) => answered_number(answer),
    }
}

// The number of what a line is answered.
fn answered_number(answer: Answered) -> u8
    ensures { result ≡ spec.answered_number answer }
{
    match answer {
        Answered::Served | Answered::Nothing => 0,
        Answered::Refused(_) => 1,
        Answered::TooManyNames => 15,
        Answered::Delayed { .. } => 20,
        Answered::NoNumber => 12,
        Answered::NoMemory => 3,
    }
}

/// The open ticket that is in the way of a line, where it is delayed, and else 0.
pub(crate) fn ended_older(ended: Ended) -> u64
    ensures { result ≡ spec.ended_older ended }
{
    match ended {
        Ended::All | Ended::Full => 0,
        Ended::Stopped(answer) => answered_older(answer),
    }
}

// The open ticket that is in the way of a line with this answer, and else 0.
fn answered_older(answer: Answered) -> u64
    ensures { result ≡ spec.answered_older answer }
{
    match answer {
        Answered::Delayed { older } => older,
        Answered::Served | Answered::Nothing | Answered::Refused(_) => 0,
        Answered::TooManyNames | Answered::NoNumber | Answered::NoMemory => 0,
    }
}

/// The line of how lines ended; empty where all was served, or where there is no room for one more
/// reply.
pub(crate) fn ended_line(ended: Ended) -> &'static str
    ensures { result.now ≡ spec.ended_line ended }
{
    match ended {
        Ended::All | Ended::Full => "",
        Ended::Stopped(answer) => answered_line(answer),
    }
}

// The line of what a line is answered.
fn answered_line(answer: Answered) -> &'static str
    ensures { result.now ≡ spec.answered_line answer }
{
    match answer {
        Answered::Served | Answered::Nothing => "",
        Answered::Refused(why) => refused_line(why),
        Answered::TooManyNames => "too many names\n",
        Answered::Delayed { .. } => "delayed\n",
        Answered::NoNumber => "no number left\n",
        Answered::NoMemory => "no memory\n",
    }
}

// The line of the rule that a line breaks.
fn refused_line(why: LineRefusal) -> &'static str
    ensures { result.now ≡ spec.refused_line why }
{
    match why {
        LineRefusal::ManyLines => "more than one line\n",
        LineRefusal::TooLong => "a line too long\n",
        LineRefusal::UnknownHandler => "unknown handler\n",
        LineRefusal::Arity => "wrong number of arguments\n",
        LineRefusal::BadWord => "a word that is no value\n",
    }
}

/// The number of why no session was opened.
pub(crate) fn unopened_number(why: &OpenError) -> u8
    ensures { result ≡ spec.unopened_number why.now }
{
    match why {
        OpenError::Refused(_) | OpenError::HasRequests => 1,
        OpenError::TooManyNames => 15,
        OpenError::NoMemory => 3,
    }
}

/// Tells why no session was opened: its line, at the front of the room for it, and how many bytes.
pub(crate) fn tell_unopened(why: OpenError, message: &mut [u8]) -> usize
    ensures { HasMessage message.old message.new (spec.unopened_line why) result }
{
    let status = match why {
        OpenError::Refused(fault) => Status::Refused(fault),
        OpenError::HasRequests => Status::Refused(Fault::HasRequests),
        OpenError::TooManyNames => return put_front(message, "too many names\n".as_bytes()),
        OpenError::NoMemory => Status::NoMemory,
    };
    put_front(message, message_of(&status).as_str().as_bytes())
}
