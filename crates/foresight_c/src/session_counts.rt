// What a session holds, at its desk.

ghost use Rattle.std.specs.Prelude.{◌≡◌, map};
ghost use Rattle.foresight_c.specs.Counts.{AreCounts, CountsOn, DeclaredAt, DeclaredOn, IsOldestTold, SizeAt, SizeOn};
ghost use Rattle.foresight_c.specs.Fronts.{put_at_front};
ghost use Rattle.foresight_c.specs.Values.{told_symbol};

use crate::counts::Counts;
use crate::desk::Desk;
use crate::session_desk::SessionDesk;
use crate::values::{COperation, told_symbol};
use live_session::LiveSession;
use symbolic_ops::Symbol;

// The oldest of the open tickets, and 0 where none is open.
fn oldest_of(session: &LiveSession) -> u64
    ensures { IsOldestTold session.now.tickets.tickets result }
{
    match session.oldest_ticket() {
        Some(ticket) => ticket,
        None => 0,
    }
}

// What a session holds.
fn counts_of(session: &LiveSession) -> Counts
    ensures { AreCounts session.now result }
{
    Counts {
        names: session.names_held(),
        most_names: session.most_names(),
        tables: session.tables(),
        begun: session.tickets_begun(),
        open: session.tickets_open(),
        oldest: oldest_of(session),
        generation: session.generation(),
    }
}

// Tells how many entries a table of a session has.
fn size_at(session: &LiveSession, table: u32, size: &mut u32) -> u8
    ensures { SizeAt session.now table size.old size.new result }
{
    match session.entries(table) {
        Some(count) => {
            *size = count;
            0
        }
        None => 22,
    }
}

// Puts symbols at the front of a room, as many as the room takes.
fn put_symbols(room: &mut [COperation], list: &[Symbol])
    ensures { room.new ≡ put_at_front room.old (map told_symbol list.now) }
{
    let count = room.len().min(list.len());
    for i in 0..count {
        room[i] = told_symbol(&list[i]);
    }
}

// Puts what an open ticket has declared at the front of a room, and tells how many symbols it is.
fn declared_at(session: &LiveSession, ticket: u64, out: &mut [COperation], size: &mut usize) -> u8
    ensures { DeclaredAt session.now ticket out.old out.new size.old size.new result }
{
    match session.declared(ticket) {
        Some(list) => {
            put_symbols(out, list);
            *size = list.len();
            0
        }
        None => 13,
    }
}

impl Desk {
    /// Tells what the session holds, where there is one.
    pub(crate) fn counts(&self, counts: &mut Counts) -> u8
        ensures { CountsOn self.now counts.old counts.new result }
    {
        match self {
            Desk::Session(desk) => {
                *counts = counts_of(&desk.session);
                0
            }
            Desk::Tables(_) => 11,
        }
    }

    /// Tells how many entries a table of the session has.
    pub(crate) fn size(&self, table: u32, size: &mut u32) -> u8
        ensures { SizeOn self.now table size.old size.new result }
    {
        match self {
            Desk::Session(desk) => size_at(&desk.session, table, size),
            Desk::Tables(_) => 11,
        }
    }

    /// Puts what an open ticket has declared at the front of a room, and tells how many symbols it
    /// is.
    pub(crate) fn declared(&self, ticket: u64, out: &mut [COperation], size: &mut usize) -> u8
        ensures { DeclaredOn self.now ticket out.old out.new size.old size.new result }
    {
        match self {
            Desk::Session(desk) => declared_at(&desk.session, ticket, out, size),
            Desk::Tables(_) => 11,
        }
    }
}
