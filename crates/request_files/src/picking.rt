// Some of the requests, in another order.

ghost use Rattle.std.specs.Prelude.{◌≡◌, ◌<◌, length, IfOk};
ghost use Rattle.request_files.specs.Picked.{AreNumbersOf, picked};
ghost use Rattle.request_files.specs.Session.{request_at};

use crate::entry::Entry;
use crate::requests::Requests;
use session_values::{NoMemory, Value};
use std::alloc::Global;

/// The handler of a request, by its number.
fn handler_of(requests: &Requests, t: u32) -> u32
    requires { t < length requests.now }
    ensures { result ≡ (request_at requests.now t).handler }
{
    requests.handler(t)
}

/// The arguments of a request.
fn args_of(requests: &Requests, t: u32) -> &[Value]
    requires { t < length requests.now }
    ensures { result.now ≡ (request_at requests.now t).args }
{
    requests.args(t)
}

/// How many arguments a request has.
fn arity_of(requests: &Requests, t: u32) -> u32
    requires { t < length requests.now }
    ensures { result ≡ length (request_at requests.now t).args }
{
    requests.arity(t)
}

/// How many arguments these requests have.
fn args_in(requests: &Requests, numbers: &[u32]) -> usize
    requires { AreNumbersOf (length requests.now) numbers.now }
{
    // There are fewer than 2^32 requests, so of the numbers too.
    let _requests = requests.len();
    let mut args = 0;
    for number in numbers {
        args += arity_of(requests, *number) as usize;
    }
    args
}

impl Requests {
    /// The requests of these numbers, in this order, in the memory that they take and no more.
    pub fn pick(&self, alloc: Global, numbers: &[u32]) -> Result<Requests, NoMemory>
        requires { AreNumbersOf (length self.now) numbers.now }
        ensures { IfOk result (λ r. r ≡ picked self.now numbers.now) }
    {
        // There are fewer than 2^32 requests, so of the picked ones too.
        let _requests = self.len();
        let mut entries = Vec::with_capacity(alloc, numbers.len())?;
        let mut values = Vec::with_capacity(alloc, args_in(self, numbers))?;
        for number in numbers {
            let args = args_of(self, *number);
            entries.push(Entry {
                handler: handler_of(self, *number),
                args: arity_of(self, *number),
                first: values.len(),
            })?;
            values.extend_from_slice(args)?;
        }
        Ok(Requests::over(entries, values))
    }
}
