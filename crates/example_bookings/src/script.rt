// Bookings as a script: a ticket for each.

ghost use Rattle.std.specs.Prelude.{◌≡◌, ◌<◌, ◌≤◌, [], None, false, length, IfOk, OnErr};
ghost use denote.Param.Send.{IsSync};
ghost use Rattle.session_values.specs.Limits.{max_requests};
ghost use Rattle.session_journal.specs.Served.{IsServed, IsStopped};
ghost use Rattle.example_bookings.specs.Bookings.{bookings_meaning};

use crate::booking::Booking;
use session_journal::{Desk, Scratch, Script, Serves, Site};
use session_values::{NoMemory, Reply, Value};
use std::sync::Wait;
use std::thread::Threads;
use symbolic_ops::{Foresight, Symbol};

/// The script of a list of bookings, over two tables that open empty.
#[derive(Clone, Copy)]
pub struct Bookings<'a> {
    pub(crate) list: &'a [Booking],
    ghost few: { length list.now ≤ max_requests },
}

impl<'a> Script for Bookings<'a> {
    ghost meaning = { λ s. bookings_meaning s.list.now };

    fn requests(&self) -> u32 {
        self.list.len() as u32
    }

    // At its beginning a booking declares all that it may call.
    fn entry(&self, t: u32, out: &mut Foresight) {
        out.copy_from(&self.list[t as usize].calls().map(|op| Symbol::exact(&op)));
    }

    fn entry_site(&self, _t: u32, _values: &mut [Value]) -> Option<Site> {
        None
    }

    fn declaration(&self, _site: Site) -> &[Symbol] {
        &[]
    }

    // Each booking calls two operations, of which one may add a key.
    fn calls(&self) -> u32 {
        2 * self.list.len() as u32
    }

    fn room(&self, _table: u32) -> u32 {
        self.list.len() as u32
    }

    fn opening_len(&self, _table: u32) -> u32 {
        0
    }

    fn opening_entry(&self, _table: u32, _i: u32) -> (Value, Value) {
        (Value::Nil, Value::Nil)
    }
}

impl<'a> Serves for Bookings<'a> {
    fn serve<R: Threads + Wait + Sync, D: Desk<Served = Self>>(
        &self,
        rt: &R,
        ticket: u32,
        scratch: &mut Scratch,
        desk: &mut D,
    ) -> Result<(), NoMemory> {
        self.book(rt, ticket, scratch, desk)
    }
}

impl<'a> Bookings<'a> {
    // Looks the seat up; the customer takes it if nobody has it, else waits, and is answered who
    // has it then. After each call the booking declares what is left. It is a function of its own,
    // for a desk of any tickets that mean the same, since the toolchain can't prove one that names
    // a desk of a type with a lifetime.
    fn book<R: Threads + Wait + Sync, D: Desk>(
        &self,
        rt: &R,
        ticket: u32,
        scratch: &mut Scratch,
        desk: &mut D,
    ) -> Result<(), NoMemory>
        requires shared { IsSync R.row }
        requires plan { D.Served.meaning (D.script desk.old)
            ≡ bookings_meaning self.now.list.now }
        requires ticket { (D.at desk.old).ticket ≡ ticket }
        requires within { ticket < length self.now.list.now }
        requires fresh { (D.at desk.old).entries ≡ [] }
        requires idle { (D.at desk.old).waiting ≡ None }
        requires going { (D.at desk.old).ended ≡ false }
        requires present { (D.at desk.old).present
            ≡ (bookings_meaning self.now.list.now).entry ticket }
        ensures script { D.script desk.new ≡ D.script desk.old }
        ensures served { IfOk result (λ _. IsServed (bookings_meaning self.now.list.now)
            (D.at desk.old) (D.at desk.new)) }
        ensures stopped { OnErr result (IsStopped (bookings_meaning self.now.list.now)
            (D.at desk.old) (D.at desk.new)) }
    {
        let [look_up, take_seat, wait] = self.list[ticket as usize].calls();
        let found = desk.call(rt, look_up)?;
        let (second, holder) = match found {
            Value::Nil => (take_seat, take_seat.value()),
            _ => (wait, found),
        };
        scratch.foresight.copy_from(&[Symbol::exact(&second)]);
        desk.finish(rt, &scratch.foresight);
        desk.call(rt, second)?;
        scratch.foresight.clear();
        desk.finish(rt, &scratch.foresight);
        let reply = Reply::new(1, holder, Value::Nil, Value::Nil, Value::Nil);
        desk.end(rt, reply);
        Ok(())
    }
}
