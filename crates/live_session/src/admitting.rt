// Whether a request may run now.

ghost use Rattle.std.specs.Prelude.{◌≡◌, ◌<◌, ◌≤◌, IfErr, IfOk, MatchOption, OnOk, length};
ghost use Rattle.session_values.specs.Limits.{max_symbols, max_variables};
ghost use Rattle.handler_check.specs.Resolved.{code_at};
ghost use Rattle.driven_tickets.specs.Commuting.{IsClear, IsHeldUpBy};
ghost use Rattle.live_session.specs.Entries.{IsAdmitted, IsHeldBack, entry_list};
ghost use Rattle.live_session.specs.Held.{HaveRoomFor, factors_in, held};

use crate::admission::Admission;
use crate::answers::Answered;
use crate::growing::make_room_for;
use declaration_insertion::Program;
use driven_tickets::OpenTickets;
use handler_machine::set_up;
use session_journal::Scratch;
use session_values::Value;
use shard_tables::Part;
use symbolic_ops::instantiate;

/// Writes what a handler declares at its entry, with these arguments, into the room for it.
fn put_entry(program: &Program, h: u32, args: &[Value], scratch: &mut Scratch)
    requires handler { h < length program.now.file.handlers }
    requires args { length args.now ≤ max_variables }
    ensures { scratch.new.foresight.symbols ≡ entry_list program.now h args.now }
{
    let list = program.entry(h);
    set_up(scratch.values.as_mut_slice(), args);
    instantiate(list, scratch.values.as_slice(), &mut scratch.foresight);
}

/// The least open ticket that has declared something with which something that the handler declares
/// doesn't commute. Nothing is looked up where no ticket is open.
fn older_in_the_way(
    program: &Program,
    h: u32,
    args: &[Value],
    tickets: &OpenTickets,
    scratch: &mut Scratch,
) -> Option<u64>
    requires handler { h < length program.now.file.handlers }
    requires args { length args.now ≤ max_variables }
    ensures { MatchOption result (IsClear tickets.now (entry_list program.now h args.now))
        (IsHeldUpBy tickets.now (entry_list program.now h args.now)) }
{
    if tickets.is_empty() {
        return None;
    }
    put_entry(program, h, args, scratch);
    tickets.in_the_way(scratch.foresight.symbols())
}

/// Lets a handler run, if no open ticket is in its way, a number is left, and there is room in each
/// table for the keys that it may add.
pub(crate) fn admit(
    by: Admission<'_>,
    h: u32,
    args: &[Value],
    scratch: &mut Scratch,
    parts: &mut Vec<Part>,
) -> Result<(), Answered>
    requires handler { h < length by.program.now.file.handlers }
    requires args { length args.now ≤ max_variables }
    requires long { length by.adds.now ≡ length parts.old.items }
    ensures admitted { IfOk result (λ _. IsAdmitted by.entry.program.now by.entry.tickets.now h
        args.now) }
    ensures room { OnOk result (HaveRoomFor (code_at by.entry.program.now.file h)
        parts.new.items) }
    ensures held_back { IfErr result (IsHeldBack by.entry.program.now by.entry.tickets.now h
        args.now) }
    ensures held { held parts.new.items ≡ held parts.old.items }
    ensures factors { factors_in parts.new.items ≡ factors_in parts.old.items }
{
    // There are few handlers.
    let _handlers = by.program.checked().handlers();
    if let Some(older) = older_in_the_way(by.program, h, args, by.tickets, scratch) {
        return Err(Answered::Delayed { older });
    }
    if by.tickets.next() == u64::MAX {
        return Err(Answered::NoNumber);
    }
    match make_room_for(by.alloc, by.adds, h, parts) {
        Ok(()) => Ok(()),
        Err(_) => Err(Answered::NoMemory),
    }
}
