// Sums over the requests of a session.

ghost use Rattle.std.specs.Prelude.{◌≡◌, ◌<◌, ◌≤◌, ℕ, length, slice_index_or};
ghost use Rattle.session_values.specs.Limits.{max_calls, max_handlers};
ghost use Rattle.session_values.specs.Sums.{sum_below};
ghost use Rattle.check_meaning.specs.Bounds as bounds;
ghost use Rattle.handler_check.specs.Resolved.{code_at};
ghost use Rattle.request_files.specs.Servable.{IsServable};
ghost use Rattle.request_files.specs.Session.{request_at};

use handler_check::Checked;
use request_files::Requests;
use session_values::{MAX_HANDLERS, Value};

/// The handler of a request, by its number.
pub(crate) fn handler_of(requests: &Requests, t: u32) -> u32
    requires { t < length requests.now }
    ensures { result ≡ (request_at requests.now t).handler }
{
    requests.handler(t)
}

/// The arguments of a request.
pub(crate) fn args_of(requests: &Requests, t: u32) -> &[Value]
    requires { t < length requests.now }
    ensures { result.now ≡ (request_at requests.now t).args }
{
    requests.args(t)
}

/// The bounds on the calls of all requests, added up.
pub(crate) fn count_calls(checked: &Checked, requests: &Requests) -> u32
    requires { IsServable checked.now requests.now }
    ensures { result ≡ sum_below (length requests.now) (λ t. bounds.calls_bound
        (code_at checked.now (request_at requests.now t).handler)) }
{
    let mut total: u32 = 0;
    for t in 0..requests.len() {
        total += checked.calls_bound(handler_of(requests, t));
    }
    total
}

/// The bound of each handler on its calls that may add a key to the table.
fn adds_by_handler(checked: &Checked, table: u32) -> [u32; MAX_HANDLERS]
    ensures each { (h : ℕ) → h < length checked.now.handlers
        → slice_index_or result h 0 ≡ bounds.adds_bound table (code_at checked.now h) }
    ensures few { (h : ℕ) → h < length checked.now.handlers
        → slice_index_or result h 0 ≤ max_calls }
    ensures count { length checked.now.handlers ≤ max_handlers }
{
    let mut adds = [0; MAX_HANDLERS];
    for h in 0..checked.handlers() {
        adds[h as usize] = checked.adds_bound(h, table);
    }
    adds
}

/// The bounds on the calls that may add a key to the table, of all requests, added up.
pub(crate) fn count_adds(checked: &Checked, requests: &Requests, table: u32) -> u32
    requires { IsServable checked.now requests.now }
    ensures { result ≡ sum_below (length requests.now) (λ t. bounds.adds_bound table
        (code_at checked.now (request_at requests.now t).handler)) }
{
    // Many requests share a handler, so each handler is counted once.
    let adds = adds_by_handler(checked, table);
    let mut total: u32 = 0;
    for t in 0..requests.len() {
        total += adds[handler_of(requests, t) as usize];
    }
    total
}
