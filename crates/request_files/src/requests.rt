// The requests of a file.

ghost use Rattle.std.specs.Prelude.{◌≡◌, ◌<◌, ◌^◌, Some, length, slice_get};
ghost use Rattle.request_files.specs.declared.request.Request.{Request as View};
ghost use Rattle.request_files.specs.Entries.{AreWithin, requests_in};

use crate::entry::Entry;
use session_values::Value;
use std::marker::Model;

/// The requests of a file, each with its ticket's number. Contracts see them as a list. The
/// arguments of all requests lie one after another.
#[derive(Debug, Drop)]
pub struct Requests {
    entries: Vec<Entry>,
    values: Vec<Value>,
}

impl Model for Requests {
    ghost use Rattle.std.specs.Prelude.{List, ◌<◌, ◌^◌, length};
    ghost use Rattle.request_files.specs.declared.request.Request.{Request as View};
    ghost use Rattle.request_files.specs.Entries.{AreWithin, requests_in};

    ghost Value = { List View };

    ghost view = { λ r. requests_in r.values.items r.entries.items };

    ghost invariant = { λ r. AreWithin (length r.values.items) r.entries.items
        × (length r.entries.items < 2 ^ 32) };
}

impl Requests {
    /// Those of these entries, where these are the arguments of all.
    pub(crate) fn over(entries: Vec<Entry>, values: Vec<Value>) -> Requests
        requires within { AreWithin (length values.items) entries.items }
        requires few { length entries.items < 2 ^ 32 }
        ensures { result ≡ requests_in values.items entries.items }
    {
        Requests { entries, values }
    }

    /// How many there are.
    pub fn len(&self) -> u32
        ensures { result ≡ length self.now }
    {
        self.entries.len() as u32
    }

    /// The number of the handler of a ticket.
    pub fn handler(&self, t: u32) -> u32
        requires { t < length self.now }
        ensures { (request : View) → slice_get self.now t ≡ Some request
            → result ≡ request.handler }
    {
        self.entries[t as usize].handler
    }

    /// How many arguments a ticket has.
    pub(crate) fn arity(&self, t: u32) -> u32
        requires { t < length self.now }
        ensures { (request : View) → slice_get self.now t ≡ Some request
            → result ≡ length request.args }
    {
        self.entries[t as usize].args
    }

    /// The arguments of a ticket.
    pub fn args(&self, t: u32) -> &[Value]
        requires { t < length self.now }
        ensures { (request : View) → slice_get self.now t ≡ Some request
            → result.now ≡ request.args }
    {
        let entry = self.entries[t as usize];
        &self.values[entry.first..entry.first + entry.args as usize]
    }
}
