// What C calls over a handle of tables on which it drives tickets. `embedding/foresight_tickets.h`
// declares each by the same name.

ghost use Rattle.std.specs.Prelude.{◌≡◌};
ghost use Rattle.foresight_c.specs.Handles.{ClosesOn, OnCalled, OnDesk, OnTold, TablesOn};
ghost use Rattle.foresight_c.specs.Tickets.{BeginOn, CallOn, EndOn, NarrowOn};

use crate::desk::Desk;
use crate::handle::{Handle, taken};
use crate::values::{COperation, CValue};
use std::alloc::Global;

/// Tables, over so many maps and behind them so many sets, all empty, on which no ticket has begun.
#[unsafe(no_mangle)]
pub extern "C" fn foresight_tables_open(
    alloc: Global,
    handle: &mut Handle,
    maps: u8,
    sets: u8,
) -> u8
    ensures { TablesOn handle.old.held.value handle.new.held.value maps sets result }
{
    match taken(handle, alloc) {
        Some(desk) => {
            *handle = Handle::of(desk);
            11
        }
        None => match Desk::tables(alloc, maps, sets) {
            Ok(desk) => match Box::new(alloc, desk) {
                Ok(desk) => {
                    *handle = Handle::of(desk);
                    0
                }
                Err(_) => 3,
            },
            Err(number) => number,
        },
    }
}

/// Begins the next ticket, which declares these symbols.
#[unsafe(no_mangle)]
pub extern "C" fn foresight_ticket_begin(
    alloc: Global,
    handle: &mut Handle,
    declared: &[COperation],
    ticket: &mut u64,
) -> u8
    ensures { OnTold handle.old.held.value handle.new.held.value ticket.old ticket.new result
        (λ d e. BeginOn d e declared.now ticket.old ticket.new result) }
{
    match taken(handle, alloc) {
        Some(mut desk) => {
            let number = desk.begin(alloc, declared, ticket);
            *handle = Handle::of(desk);
            number
        }
        None => 11,
    }
}

/// Does an operation of an open ticket, unless an older ticket is in the way.
#[unsafe(no_mangle)]
pub extern "C" fn foresight_ticket_call(
    alloc: Global,
    handle: &mut Handle,
    ticket: u64,
    operation: &COperation,
    reply: &mut CValue,
    older: &mut u64,
) -> u8
    ensures { OnCalled handle.old.held.value handle.new.held.value reply.old reply.new older.old
        older.new result (λ d e. CallOn d e ticket operation.now reply.old reply.new older.old
        older.new result) }
{
    match taken(handle, alloc) {
        Some(mut desk) => {
            let number = desk.call(ticket, operation, reply, older);
            *handle = Handle::of(desk);
            number
        }
        None => 11,
    }
}

/// An open ticket declares these symbols in place of its own, which cover them.
#[unsafe(no_mangle)]
pub extern "C" fn foresight_ticket_narrow(
    alloc: Global,
    handle: &mut Handle,
    ticket: u64,
    declared: &[COperation],
) -> u8
    ensures { OnDesk handle.old.held.value handle.new.held.value result
        (λ d e. NarrowOn d e ticket declared.now result) }
{
    match taken(handle, alloc) {
        Some(mut desk) => {
            let number = desk.narrow(alloc, ticket, declared);
            *handle = Handle::of(desk);
            number
        }
        None => 11,
    }
}

/// Ends an open ticket.
#[unsafe(no_mangle)]
pub extern "C" fn foresight_ticket_end(alloc: Global, handle: &mut Handle, ticket: u64) -> u8
    ensures { OnDesk handle.old.held.value handle.new.held.value result
        (λ d e. EndOn d e ticket result) }
{
    match taken(handle, alloc) {
        Some(mut desk) => {
            let number = desk.end(ticket);
            *handle = Handle::of(desk);
            number
        }
        None => 11,
    }
}

/// Gives back all memory of the handle.
#[unsafe(no_mangle)]
pub extern "C" fn foresight_tables_close(alloc: Global, handle: &mut Handle) -> u8
    ensures { ClosesOn handle.old.held.value handle.new.held.value result }
{
    match taken(handle, alloc) {
        Some(_) => 0,
        None => 11,
    }
}
