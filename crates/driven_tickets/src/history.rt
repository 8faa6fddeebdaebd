// What was done with tickets.

ghost use Rattle.std.specs.Prelude.{◌≡◌, List, [], ◌∷◌, ◌++◌};
ghost use Rattle.driven_tickets.specs.Acts.{Act, Begins, Calls, Ends, Narrows, idle_tickets};

use session_values::{Op, Value};
use std::marker::Model;
use symbolic_ops::Foresight;

/// The acts that were done. Only proofs read them: it takes no memory, and its calls do nothing when
/// they run.
#[derive(Drop)]
pub struct History {
    pub ghost acts: { List Act },
}

impl Model for History {
    ghost use Rattle.std.specs.Borrow.{ftrue};

    ghost also_owns = { λ _. ftrue };
}

// It owns nothing.
unsafe impl Send for History {}

impl History {
    /// Nothing was done, and this is the number of the first ticket.
    pub(crate) fn opened(_next: &u64) -> History
        ensures { result ≡ record { acts = [] } }
    {
        History {}
    }

    /// All tickets below this number began and ended, and did nothing.
    pub(crate) fn idle(_next: &u64) -> History
        ensures { result ≡ record { acts = idle_tickets _next.now } }
    {
        History {}
    }

    /// A ticket began, and declared this.
    pub(crate) fn begun(&self, declared: &Foresight) -> History
        ensures { result ≡ record {
          acts = self.now.acts ++ Begins declared.now.symbols ∷ [];
        } }
    {
        History {}
    }

    /// An operation of a ticket was done, with this reply.
    pub(crate) fn called(&self, ticket: &u64, op: &Op, reply: &Value) -> History
        ensures { result ≡ record {
          acts = self.now.acts ++ Calls ticket.now op.now reply.now ∷ [];
        } }
    {
        History {}
    }

    /// A ticket narrowed to this.
    pub(crate) fn narrowed(&self, ticket: &u64, declared: &Foresight) -> History
        ensures { result ≡ record {
          acts = self.now.acts ++ Narrows ticket.now declared.now.symbols ∷ [];
        } }
    {
        History {}
    }

    /// A ticket ended.
    pub(crate) fn ended(&self, ticket: &u64) -> History
        ensures { result ≡ record {
          acts = self.now.acts ++ Ends ticket.now ∷ [];
        } }
    {
        History {}
    }

    /// These acts were done too.
    pub(crate) fn joined(&self, more: &History) -> History
        ensures { result ≡ record { acts = self.now.acts ++ more.now.acts } }
    {
        History {}
    }
}
