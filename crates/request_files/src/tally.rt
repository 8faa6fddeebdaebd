// What the requests so far sum up to.

ghost use Rattle.std.specs.Prelude.{◌≡◌, ◌<◌, MatchResult, Some, None, length};
ghost use Rattle.request_files.specs.Requests as spec;

use crate::refusal::RequestRefusal;
use handler_check::Checked;
use session_values::{MAX_SESSION_CALLS, MAX_SESSION_WORK};

/// The sums over the requests so far, which are limited.
#[derive(Clone, Copy, Debug)]
pub(crate) struct Tally {
    pub requests: u32,
    /// The bounds on their calls.
    pub calls: u64,
    /// The bounds on their work.
    pub work: u64,
}

/// The sums before any request.
pub(crate) fn no_requests() -> Tally
    ensures { result ≡ spec.no_requests }
{
    Tally {
        requests: 0,
        calls: 0,
        work: 0,
    }
}

/// The sums with one request more, of the handler of this number.
pub(crate) fn with_request(checked: &Checked, handler: u32, tally: Tally) -> Tally
    requires handler { handler < length checked.now.handlers }
    requires within { spec.IsWithin tally }
    ensures { result ≡ spec.with_request checked.now handler tally }
{
    Tally {
        requests: tally.requests + 1,
        calls: tally.calls + u64::from(checked.calls_bound(handler)),
        work: tally.work + u64::from(checked.work_bound(handler)),
    }
}

/// Whether the sums are within their limits.
pub(crate) fn look_at_sums(tally: Tally, line: u32) -> Result<(), RequestRefusal>
    ensures { MatchResult result (λ _. spec.sum_fault tally line ≡ None)
        (λ e. spec.sum_fault tally line ≡ Some e) }
{
    if tally.calls > MAX_SESSION_CALLS {
        return Err(RequestRefusal::TooManyCalls { line });
    }
    if tally.work > MAX_SESSION_WORK {
        return Err(RequestRefusal::TooMuchWork { line });
    }
    Ok(())
}
