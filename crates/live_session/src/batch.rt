// Many lines at a time.

ghost use Rattle.std.specs.Prelude.{◌≡◌, ◌+◌, ◌<◌, ◌≤◌, ◌⊎◌, length, true, false};
ghost use Rattle.live_session.specs.Batches.{BatchAnswered, count_of, stop_at};

use crate::answers::Answered;
use crate::first_line::first_line;
use crate::reply_line::LONGEST_REPLY;
use crate::session::LiveSession;
use byte_ends::WriteBuffer;

/// Why a batch of lines ended.
#[derive(Clone, Copy, Debug, PartialEq, Eq)]
pub enum Ended {
    /// All lines are used.
    All,
    /// There may be no room for one more reply.
    Full,
    /// A line was answered so.
    Stopped(Answered),
}

/// How far a batch of lines was served.
#[derive(Clone, Copy, Debug, PartialEq, Eq)]
pub struct Batch {
    /// How many bytes of whole lines are used: those that were served, those without words, and one
    /// that broke a rule.
    pub used: usize,
    /// How many requests were served.
    pub requests: usize,
    pub ended: Ended,
}

impl LiveSession {
    /// Serves the requests of lines, one after another, as long as the replies have at most so many
    /// bytes and the buffer has room, up to a line that isn't served. A line that is delayed, or
    /// for which no number or no memory is left, isn't used, so that it can be tried again.
    pub fn serve(&mut self, text: &str, most: usize, out: &mut WriteBuffer) -> Batch
        ensures { BatchAnswered self.old text.now most out.old.held result self.new out.new.held }
    {
        let mut requests = 0;
        let mut rest = text;
        'lines: while !rest.is_empty() {
            let used = text.len() - rest.len();
            if !has_room(most, out) {
                return Batch {
                    used,
                    requests,
                    ended: Ended::Full,
                };
            }
            let (line, next) = first_line(rest);
            let answered = self.serve_line(line, out);
            if let Some(used) = stop(answered, used, text.len() - next.len()) {
                return Batch {
                    used,
                    requests,
                    ended: Ended::Stopped(answered),
                };
            }
            requests += served(answered);
            rest = next;
        }
        Batch {
            used: text.len(),
            requests,
            ended: Ended::All,
        }
    }
}

// Where a batch goes on that a line with this answer ends: at the line, where it may be tried
// again, or behind it. It is none where the batch isn't ended.
fn stop(answered: Answered, at: usize, behind: usize) -> Option<usize>
    ensures { result ≡ stop_at answered at behind }
{
    match answered {
        Answered::Served | Answered::Nothing => None,
        Answered::Refused(_) | Answered::TooManyNames => Some(behind),
        Answered::Delayed { .. } | Answered::NoNumber | Answered::NoMemory => Some(at),
    }
}

// How many requests were served.
fn served(answered: Answered) -> usize
    ensures count { result ≡ count_of answered }
    ensures few { result ≤ 1 }
{
    match answered {
        Answered::Served => 1,
        _ => 0,
    }
}

// Whether there is room for one more reply, where all may have at most so many bytes.
fn has_room(most: usize, out: &mut WriteBuffer) -> bool
    ensures held { out.new.held ≡ out.old.held }
    ensures room { result ≡ true → 264 ≤ out.new.reserved }
    ensures within { result ≡ true → length out.old.held + 264 ≤ most }
    ensures full { result ≡ false → (most < length out.old.held + 264)
        ⊎ (65536 < length out.old.held + 264) }
{
    let len = out.bytes().len();
    if most < LONGEST_REPLY || most - LONGEST_REPLY < len {
        return false;
    }
    out.reserve(LONGEST_REPLY)
}
