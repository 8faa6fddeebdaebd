// What C calls of tickets over a handle of a session. `embedding/foresight_session.h` declares each by
// the same name.

ghost use Rattle.foresight_c.specs.Handles.{OnCalled, OnDesk, OnTold};
ghost use Rattle.foresight_c.specs.SessionNames.{NameOn, OnText};
ghost use Rattle.foresight_c.specs.Renewals.{RenewOn};
ghost use Rattle.foresight_c.specs.Tickets.{BeginOn, CallOn, EndOn, NarrowOn};

use crate::handle::{Handle, taken};
use crate::values::{COperation, CValue};
use std::alloc::Global;

/// Begins the next ticket, which declares these symbols.
#[unsafe(no_mangle)]
pub extern "C" fn foresight_session_begin(
    alloc: Global,
    handle: &mut Handle,
    declared: &[COperation],
    ticket: &mut u64,
) -> u8
    ensures { OnTold handle.old.held.value handle.new.held.value ticket.old ticket.new result
        (λ d e. BeginOn d e declared.now ticket.old ticket.new result) }
{
    match taken(handle, alloc) {
        Some(mut desk) => {
            let number = desk.begin(alloc, declared, ticket);
            *handle = Handle::of(desk);
            number
        }
        None => 11,
    }
}

/// Does an operation of an open ticket, unless an older ticket is in the way.
#[unsafe(no_mangle)]
pub extern "C" fn foresight_session_call(
    alloc: Global,
    handle: &mut Handle,
    ticket: u64,
    operation: &COperation,
    reply: &mut CValue,
    older: &mut u64,
) -> u8
    ensures { OnCalled handle.old.held.value handle.new.held.value reply.old reply.new older.old
        older.new result (λ d e. CallOn d e ticket operation.now reply.old reply.new older.old
        older.new result) }
{
    match taken(handle, alloc) {
        Some(mut desk) => {
            let number = desk.call(ticket, operation, reply, older);
            *handle = Handle::of(desk);
            number
        }
        None => 11,
    }
}

/// An open ticket declares these symbols in place of its own, which cover them.
#[unsafe(no_mangle)]
pub extern "C" fn foresight_session_narrow(
    alloc: Global,
    handle: &mut Handle,
    ticket: u64,
    declared: &[COperation],
) -> u8
    ensures { OnDesk handle.old.held.value handle.new.held.value result
        (λ d e. NarrowOn d e ticket declared.now result) }
{
    match taken(handle, alloc) {
        Some(mut desk) => {
            let number = desk.narrow(alloc, ticket, declared);
            *handle = Handle::of(desk);
            number
        }
        None => 11,
    }
}

/// Ends an open ticket.
#[unsafe(no_mangle)]
pub extern "C" fn foresight_session_end(alloc: Global, handle: &mut Handle, ticket: u64) -> u8
    ensures { OnDesk handle.old.held.value handle.new.held.value result
        (λ d e. EndOn d e ticket result) }
{
    match taken(handle, alloc) {
        Some(mut desk) => {
            let number = desk.end(ticket);
            *handle = Handle::of(desk);
            number
        }
        None => 11,
    }
}

/// The number of a symbol's text among the names of the session.
#[unsafe(no_mangle)]
pub extern "C" fn foresight_session_name(
    alloc: Global,
    handle: &mut Handle,
    text: &[u8],
    number: &mut u32,
) -> u8
    ensures { OnTold handle.old.held.value handle.new.held.value number.old number.new result
        (λ d e. NameOn d e text.now number.old number.new result) }
{
    match taken(handle, alloc) {
        Some(mut desk) => {
            let number = desk.name(text, number);
            *handle = Handle::of(desk);
            number
        }
        None => 11,
    }
}

/// The text of a name's number.
#[unsafe(no_mangle)]
pub extern "C" fn foresight_session_text(
    alloc: Global,
    handle: &mut Handle,
    name: u32,
    out: &mut [u8],
    size: &mut usize,
) -> u8
    ensures { OnText handle.old.held.value handle.new.held.value name out.old out.new size.old
        size.new result }
{
    match taken(handle, alloc) {
        Some(desk) => {
            let number = desk.text(name, out, size);
            *handle = Handle::of(desk);
            number
        }
        None => 11,
    }
}

/// Renews the names: those that nobody holds any more go.
#[unsafe(no_mangle)]
pub extern "C" fn foresight_session_renew(alloc: Global, handle: &mut Handle) -> u8
    ensures { OnDesk handle.old.held.value handle.new.held.value result
        (λ d e. RenewOn d e result) }
{
    match taken(handle, alloc) {
        Some(mut desk) => {
            let number = desk.renew();
            *handle = Handle::of(desk);
            number
        }
        None => 11,
    }
}
