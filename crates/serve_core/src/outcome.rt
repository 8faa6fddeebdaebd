// What a run leaves.

ghost use Rattle.std.specs.Prelude.{◌≡◌, None};

use serve_faults::Status;
use session_hall::Closed;

/// How a run ended, and the closed hall through which it served its session. Only the closing of a
/// hall makes one, so it is there exactly where the session was served.
#[derive(Drop)]
pub struct Outcome {
    pub status: Status,
    pub closed: Option<Closed>,
}

/// The end of a run that serves nothing.
pub(crate) fn unserved(status: Status) -> Outcome
    ensures { result ≡ record { status = status; closed = None } }
{
    Outcome {
        status,
        closed: None,
    }
}
