// What a request is let run by.

ghost use Rattle.std.specs.Prelude.{◌≤◌, length};
ghost use Rattle.live_session.specs.Held.{AreAdds};

use declaration_insertion::Program;
use driven_tickets::OpenTickets;
use session_values::MAX_HANDLERS;
use std::alloc::Global;

/// What decides whether a line's request may run now, beside the names and the tables that it
/// changes.
#[derive(Clone, Copy)]
pub(crate) struct Admission<'a> {
    /// Where room for keys comes from.
    pub(crate) alloc: Global,
    /// The handlers, and what they declare.
    pub(crate) program: &'a Program,
    /// How many keys each handler may add to each table, by table.
    pub(crate) adds: &'a [[u32; MAX_HANDLERS]],
    /// How many names there may be.
    pub(crate) most_names: u32,
    /// The open tickets, which may be in a request's way.
    pub(crate) tickets: &'a OpenTickets,
    ghost adds_are: { AreAdds program.now.file (length adds.now) adds.now },
    ghost few: { most_names ≤ 4000000000 },
}
