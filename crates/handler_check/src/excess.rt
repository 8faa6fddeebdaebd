// Handlers that may do too much.

ghost use Rattle.std.specs.Prelude.{◌≡◌, IfOk};
ghost use Rattle.std.specs.List.{AllZip};
ghost use Rattle.std.specs.Result.{result_err};
ghost use Rattle.handler_check.specs.Checked.{AreBoundsOf};
ghost use Rattle.handler_check.specs.Excess as spec;
ghost use Rattle.handler_check.specs.Scan.{Found};

use crate::CheckRefusal;
use crate::bounds::{Counted, HandlerBounds, count_calls};
use crate::resolution::listed;
use crate::work::count_work;
use check_meaning::CheckedHandler;
use session_values::{Listed, MAX_CALLS, MAX_WORK};
use std::alloc::Global;

/// The bounds of handlers, or the first handler, in their order, that may make more than 10,000
/// calls, or whose work may be above 100,000.
pub(crate) fn bound_all(
    alloc: Global,
    handlers: &[CheckedHandler],
) -> Result<Listed<HandlerBounds>, CheckRefusal>
    ensures found { Found (spec.excess handlers.now) result }
    ensures bounds { IfOk result (AllZip AreBoundsOf handlers.now) }
{
    let mut found = Vec::new(alloc);
    for handler in handlers {
        let one = bound_handler(handler)?;
        found.push(one)?;
    }
    Ok(listed(found)?)
}

/// The bounds of a handler, or that it may make too many calls, before that its work may be too
/// much.
pub(crate) fn bound_handler(handler: &CheckedHandler) -> Result<HandlerBounds, CheckRefusal>
    ensures excess { result_err result ≡ spec.own_excess handler.now }
    ensures bounds { IfOk result (AreBoundsOf handler.now) }
{
    let body = handler.body.as_slice();
    let calls = count_calls(Counted::Every, body);
    if calls > MAX_CALLS {
        return Err(CheckRefusal::TooManyCalls { at: handler.at });
    }
    let work = count_work(body);
    if work > MAX_WORK {
        return Err(CheckRefusal::TooMuchWork { at: handler.at });
    }
    Ok(HandlerBounds { calls, work })
}
