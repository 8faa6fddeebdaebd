// What the book in hand knows of other callers' tickets.

ghost use Rattle.std.specs.Prelude.{◌≡◌, Some, IfSome, slice_get};
ghost use Rattle.session_values.specs.Serial.{serial_replies};
ghost use Rattle.session_journal.specs.Journal.{ended};
ghost use Rattle.session_journal.specs.Script.{session_of};
ghost use Rattle.session_hall.specs.Holdings.{IsHoldingOf, IsKept, present_book};
ghost use Rattle.session_hall.specs.Names.{script_of};

use crate::hall::Hall;
use crate::holding::Holding;
use admission_book::laws::answering;
use session_journal::Tickets;
use session_values::Reply;

impl<S: Tickets + Drop> Holding<S> {
    /// The reply of a ticket, whoever served it, or None where it hasn't ended in the book in hand.
    pub fn reply(&self, hall: &Hall<S>, ticket: u32) -> Option<Reply>
        requires holding { IsHoldingOf S.meaning hall.now self.now }
        requires kept { IsKept self.now.book }
        ensures ended { result ≡ ended (present_book self.now).journal ticket }
        ensures serial { IfSome result (λ r. slice_get
            (serial_replies (session_of (S.meaning (script_of hall.now)))
            (S.meaning (script_of hall.now)).requests) ticket ≡ Some r) }
    {
        answering();
        let Some(book) = &self.book else {
            unreachable!();
        };
        book.reply(ticket)
    }
}
