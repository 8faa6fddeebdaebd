// What is done after a ticket's end.

ghost use Rattle.std.specs.Bool.{Decides};
ghost use Rattle.std.specs.Prelude.{◌≡◌, ℕ, List, Option, Some, None, slice_get};
ghost use Rattle.session_values.specs.declared.reply.Reply.{Reply};
ghost use Rattle.session_values.specs.Serial.{serial_replies};
ghost use Rattle.session_journal.specs.Journal.{ended};
ghost use Rattle.session_journal.specs.Script.{session_of};
ghost use Rattle.session_hall.specs.Holdings.{IsHoldingOf, IsKept, present_book};
ghost use Rattle.session_hall.specs.Names.{script_of};
ghost use Rattle.hall_serving.specs.KeptJobs.{IsLastBegun};

use session_hall::{Hall, Holding};
use session_journal::Tickets;
use session_values::Reply;
use std::sync::Wait;

/// What is done with the reply of each ticket after its end, before its caller begins another one,
/// and meanwhile, while its caller waits for the book.
pub trait AfterEnd {
    /// It may be given the replies of this list, each as that of the ticket at whose place it is.
    ghost Takes: { List Reply → Self → Type 0 };

    /// From the first to the second it was given the reply of this ticket, or, without a ticket,
    /// it did what it does meanwhile.
    ghost Given: { Self → Option ℕ → Self → Type 0 };

    /// From the first to the second it saw a book in which tickets had ended with these replies.
    ghost Seen: { Self → (ℕ → Option Reply) → Self → Type 0 };

    /// What it does with a reply, or meanwhile, may take long.
    ghost IsLong: { Self → Type 0 };

    /// Whether it may take long: the book isn't in hand then.
    fn takes_long(&self) -> bool
        ensures { Decides result (IsLong self.now) };

    /// Sees the book in hand, before its caller begins a ticket.
    fn see<S: Tickets + Drop>(&mut self, hall: &Hall<S>, holding: &Holding<S>)
        requires holding { IsHoldingOf S.meaning hall.now holding.now }
        requires kept { IsKept holding.now.book }
        requires takes { Takes (serial_replies (session_of (S.meaning (script_of hall.now)))
            (S.meaning (script_of hall.now)).requests) self.old }
        ensures takes { (replies : List Reply) → Takes replies self.old
            → Takes replies self.new }
        ensures seen { Seen self.old (λ t. ended (present_book holding.now).journal t) self.new };

    /// Is given the reply of the ticket that the holding's caller has begun last: it has begun no
    /// other one since.
    fn after<R: Wait, S: Tickets + Drop>(
        &mut self,
        rt: &R,
        holding: &Holding<S>,
        ticket: u32,
        reply: Reply,
    )
        requires last { IsLastBegun holding.now ticket }
        requires unkept { IsLong self.old → holding.now.book ≡ None }
        requires takes { (replies : List Reply) × Takes replies self.old
            × (slice_get replies ticket ≡ Some reply) }
        ensures takes { (replies : List Reply) → Takes replies self.old
            → Takes replies self.new }
        ensures given { Given self.old (Some ticket) self.new };

    /// Does what can be done without a reply of its own caller.
    fn meanwhile<R: Wait, S: Tickets + Drop>(&mut self, rt: &R, holding: &Holding<S>)
        requires unkept { IsLong self.old → holding.now.book ≡ None }
        requires takes { (replies : List Reply) × Takes replies self.old }
        ensures takes { (replies : List Reply) → Takes replies self.old
            → Takes replies self.new }
        ensures given { Given self.old None self.new };
}

/// Nothing is done.
#[derive(Drop)]
pub(crate) struct GoesOn;

impl AfterEnd for GoesOn {
    ghost Takes = { λ replies g. Unit {0} };

    ghost Given = { λ g t h. Unit {0} };

    ghost Seen = { λ g e h. Unit {0} };

    ghost IsLong = { λ g. ⊥ };

    fn takes_long(&self) -> bool {
        false
    }

    fn see<S: Tickets + Drop>(&mut self, _hall: &Hall<S>, _holding: &Holding<S>) {}

    fn after<R: Wait, S: Tickets + Drop>(
        &mut self,
        _rt: &R,
        _holding: &Holding<S>,
        _ticket: u32,
        _reply: Reply,
    ) {}

    fn meanwhile<R: Wait, S: Tickets + Drop>(&mut self, _rt: &R, _holding: &Holding<S>) {}
}
