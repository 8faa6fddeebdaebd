// Writing the lines that are next, after a ticket's end.

use crate::after::take_all;
use crate::known::keep_known;
use crate::sheet::Sheet;
use crate::{End, Lane};
use byte_ends::Sink;
use hall_serving::AfterEnd;
use reply_sheet::write_ready;
use session_hall::{Hall, Holding};
use session_journal::Tickets;
use session_values::{Names, Reply};
use std::sync::Wait;

/// The lines that are next are written, with those replies that the other callers handed over.
#[derive(Drop)]
pub(crate) struct Writing<'a, O: Sink> {
    pub(crate) lane: &'a Lane,
    pub(crate) end: &'a mut End,
    pub(crate) names: &'a Names,
    pub(crate) sheet: &'a mut Sheet,
    pub(crate) out: &'a mut O,
}

impl<'a, O: Sink> AfterEnd for Writing<'a, O> {
    ghost use Rattle.std.specs.Prelude.{◌≡◌, false};
    ghost use Rattle.hall_writing.specs.Steps.{HasSeen, HasWrittenOne, MayWrite};

    ghost Takes = { λ replies w. MayWrite replies w };

    ghost Given = { λ w t x. HasWrittenOne O.held O.faults w t x };

    ghost Seen = { λ w e x. HasSeen w e x };

    // The output may be blocked. With one caller nobody waits for the book.
    ghost IsLong = { λ w. w.sheet.now.alone ≡ false };

    fn takes_long(&self) -> bool {
        !self.sheet.alone
    }

    fn see<S: Tickets + Drop>(&mut self, hall: &Hall<S>, holding: &Holding<S>) {
        let sheet = &mut *self.sheet;
        // With one caller all ended replies were given on, and after a fault nothing is written.
        if !sheet.alone && !sheet.failed {
            keep_known(hall, holding, &mut sheet.pending);
        }
    }

    fn after<R: Wait, S: Tickets + Drop>(
        &mut self,
        rt: &R,
        holding: &Holding<S>,
        ticket: u32,
        reply: Reply,
    ) {
        self.sheet.pending.keep(ticket, reply);
        self.meanwhile(rt, holding);
    }

    fn meanwhile<R: Wait, S: Tickets + Drop>(&mut self, rt: &R, _holding: &Holding<S>) {
        let sheet = &mut *self.sheet;
        take_all(rt, self.lane, self.end, sheet.alone, &mut sheet.pending);
        // After a fault nothing more is written.
        if sheet.failed {
            return;
        }
        let whole = write_ready(self.out, &mut sheet.pending, self.names, &mut sheet.buffer);
        sheet.failed = !whole;
    }
}
