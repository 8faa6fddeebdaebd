// What a session holds.

ghost use Rattle.std.specs.Prelude.{◌≡◌, ◌<◌, ◌≤◌, [], MatchOption, None, Some, length};
ghost use Rattle.session_values.specs.Tables.{size_of, table as table_of};
ghost use Rattle.driven_tickets.specs.Tickets.{IsOldestOpen, declared_in};

use crate::session::LiveSession;
use symbolic_ops::Symbol;

impl LiveSession {
    /// How many names it holds: of handlers, tables, variables and symbols together.
    pub fn names_held(&self) -> u32
        ensures { result ≡ length self.now.names }
    {
        self.names.len()
    }

    /// How many names it may hold.
    pub fn most_names(&self) -> u32
        ensures { result ≡ self.now.most_names }
    {
        self.most_names
    }

    /// How many tables it has.
    pub fn tables(&self) -> usize
        ensures { result ≡ length self.now.tables }
    {
        self.tables.parts.len()
    }

    /// How many entries a table has, if there is a table of this number.
    pub fn entries(&self, table: u32) -> Option<u32>
        ensures { MatchOption result (length self.now.tables ≤ table)
            (λ n. (table < length self.now.tables) × (n ≡ size_of (table_of self.now.tables table))) }
    {
        match self.tables.parts.get(table as usize) {
            Some(part) => Some(part.len()),
            None => None,
        }
    }

    /// How many tickets have begun: each request that was served is one, and each that a program
    /// has begun.
    pub fn tickets_begun(&self) -> u64
        ensures { result ≡ self.now.tickets.next }
    {
        self.tickets.next()
    }

    /// How many tickets are open.
    pub fn tickets_open(&self) -> usize
        ensures { result ≡ length self.now.tickets.tickets }
    {
        self.tickets.open()
    }

    /// The oldest open ticket.
    pub fn oldest_ticket(&self) -> Option<u64>
        ensures { MatchOption result (self.now.tickets.tickets ≡ [])
            (IsOldestOpen self.now.tickets.tickets) }
    {
        self.tickets.oldest()
    }

    /// What a ticket has declared, if it is open.
    pub fn declared(&self, ticket: u64) -> Option<&[Symbol]>
        ensures { MatchOption result (declared_in self.now.tickets.tickets ticket ≡ None)
            (λ list. declared_in self.now.tickets.tickets ticket ≡ Some list.now) }
    {
        self.tickets.declared(ticket)
    }
}
