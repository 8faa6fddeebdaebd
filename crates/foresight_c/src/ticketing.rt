// Tickets that C drives at a desk.

ghost use Rattle.std.specs.Prelude.{◌≡◌, ◌++◌, IfOk, replicate};
ghost use Rattle.session_values.specs.declared.kind.TableKind.TheVariants.{Map, Set};
ghost use Rattle.foresight_c.specs.Tickets.{BeginOn, CallOn, EndOn, NarrowOn, OpensTables, ReadAs, begun_number, called_number, narrowed_number};

use crate::desk::Desk;
use crate::reading::{op_of, symbol_of};
use crate::values::{COperation, CValue, told_value};
use driven_tickets::{BeginError, Called, DrivenTables, NarrowError};
use session_values::{MAX_SYMBOLS, MAX_TABLES, NoMemory, TableKind};
use std::alloc::Global;
use symbolic_ops::Foresight;

// The tables, maps first.
fn shape_of(alloc: Global, maps: u8, sets: u8) -> Result<Vec<TableKind>, NoMemory>
    ensures { IfOk result (λ v. v.items ≡ replicate maps Map ++ replicate sets Set) }
{
    let mut shape = Vec::from_elem(alloc, TableKind::Map, maps as usize)?;
    shape.resize(maps as usize + sets as usize, TableKind::Set)?;
    Ok(shape)
}

// The list of the symbols that C gives, or the number of why there is none.
fn symbols_of(alloc: Global, given: &[COperation]) -> Result<Foresight, u8>
    ensures { ReadAs given.now result }
{
    if given.len() > MAX_SYMBOLS as usize {
        return Err(12);
    }
    let Ok(mut list) = Foresight::with_room(alloc, given.len() as u32) else {
        return Err(3);
    };
    for g in given {
        match symbol_of(g) {
            Some(symbol) => list.push(symbol),
            None => return Err(10),
        }
    }
    Ok(list)
}

// The number of why no ticket was begun.
fn begun_number(why: BeginError) -> u8
    ensures { result ≡ begun_number why }
{
    match why {
        BeginError::NoNumber => 12,
        BeginError::NoMemory => 3,
    }
}

// The number of what a call answers.
fn called_number(answer: Called) -> u8
    ensures { result ≡ called_number answer }
{
    match answer {
        Called::Done(_) => 0,
        Called::Delayed { older: _ } => 20,
        Called::Undeclared => 21,
        Called::Misfit => 22,
        Called::NoTicket => 13,
        Called::NoMemory => 3,
    }
}

// The number of why a ticket wasn't narrowed.
fn narrowed_number(why: NarrowError) -> u8
    ensures { result ≡ narrowed_number why }
{
    match why {
        NarrowError::Undeclared => 21,
        NarrowError::NoTicket => 13,
    }
}

impl Desk {
    /// Tables, over so many maps and behind them so many sets, all empty, on which no ticket has
    /// begun.
    pub(crate) fn tables(alloc: Global, maps: u8, sets: u8) -> Result<Desk, u8>
        ensures { OpensTables maps sets result }
    {
        if maps as usize + sets as usize > MAX_TABLES {
            return Err(10);
        }
        let Ok(shape) = shape_of(alloc, maps, sets) else {
            return Err(3);
        };
        match DrivenTables::open(alloc, shape.as_slice()) {
            Ok(desk) => Ok(Desk::Tables(desk)),
            Err(_) => Err(3),
        }
    }

    /// Begins the next ticket, which declares these symbols, and tells its number.
    pub(crate) fn begin(&mut self, alloc: Global, declared: &[COperation], ticket: &mut u64) -> u8
        ensures { BeginOn self.old self.new declared.now ticket.old ticket.new result }
    {
        match symbols_of(alloc, declared) {
            Ok(list) => match self.begun(list) {
                Ok(number) => {
                    *ticket = number;
                    0
                }
                Err(why) => begun_number(why),
            },
            Err(number) => number,
        }
    }

    /// Does an operation of an open ticket, and tells its reply; or tells which older ticket is in
    /// the way.
    pub(crate) fn call(
        &mut self,
        ticket: u64,
        given: &COperation,
        reply: &mut CValue,
        older: &mut u64,
    ) -> u8
        ensures { CallOn self.old self.new ticket given.now reply.old reply.new older.old
            older.new result }
    {
        match op_of(given) {
            Some(op) => {
                let answer = self.called(ticket, op);
                match answer {
                    Called::Done(value) => *reply = told_value(value),
                    Called::Delayed { older: other } => *older = other,
                    _ => {}
                }
                called_number(answer)
            }
            None => 10,
        }
    }

    /// An open ticket declares these symbols in place of its own, which cover them.
    pub(crate) fn narrow(&mut self, alloc: Global, ticket: u64, declared: &[COperation]) -> u8
        ensures { NarrowOn self.old self.new ticket declared.now result }
    {
        match symbols_of(alloc, declared) {
            Ok(list) => match self.narrowed(ticket, list) {
                Ok(()) => 0,
                Err(why) => narrowed_number(why),
            },
            Err(number) => number,
        }
    }

    /// Ends an open ticket.
    pub(crate) fn end(&mut self, ticket: u64) -> u8
        ensures { EndOn self.old self.new ticket result }
    {
        match self.ended(ticket) {
            Ok(()) => 0,
            Err(_) => 13,
        }
    }
}
