// A list of tickets that repeat an operation, as a script.

use crate::list::RepeatedCalls;
use crate::serving::call_all;
use session_journal::{Desk, Scratch, Script, Serves, Site};
use session_values::{NoMemory, Value};
use std::sync::Wait;
use std::thread::Threads;
use symbolic_ops::{Foresight, Symbol};

/// The script of such a list, which it borrows.
#[derive(Drop)]
pub struct RepeatedScript<'a> {
    pub list: &'a RepeatedCalls,
}

impl<'a> Script for RepeatedScript<'a> {
    ghost use Rattle.session_journal.specs.Lists.{list_meaning};

    ghost meaning = { λ s. list_meaning s.list.now.list.shape s.list.now.list.tickets };

    fn requests(&self) -> u32 {
        self.list.script().requests()
    }

    fn entry(&self, t: u32, out: &mut Foresight) {
        self.list.script().entry(t, out);
    }

    fn calls(&self) -> u32 {
        self.list.script().calls()
    }

    fn room(&self, table: u32) -> u32 {
        self.list.script().room(table)
    }

    fn entry_site(&self, _t: u32, _values: &mut [Value]) -> Option<Site> {
        None
    }

    fn declaration(&self, _site: Site) -> &[Symbol] {
        &[]
    }

    fn opening_len(&self, table: u32) -> u32 {
        self.list.script().opening_len(table)
    }

    fn opening_entry(&self, table: u32, i: u32) -> (Value, Value) {
        self.list.script().opening_entry(table, i)
    }
}

impl<'a> Serves for RepeatedScript<'a> {
    fn serve<R: Threads + Wait + Sync, D: Desk<Served = Self>>(
        &self,
        rt: &R,
        ticket: u32,
        scratch: &mut Scratch,
        desk: &mut D,
    ) -> Result<(), NoMemory> {
        let op = self.list.op_of(ticket);
        let times = self.list.times();
        self.list.script().entry(ticket, &mut scratch.foresight);
        call_all(rt, op, times, &scratch.foresight, desk)
    }
}
