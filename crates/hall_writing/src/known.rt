// Keeping the replies that the book in hand knows.

ghost use Rattle.std.specs.Prelude.{◌≡◌, ◌≤◌, ℕ, length};
ghost use Rattle.session_values.specs.Limits.{max_requests};
ghost use Rattle.session_journal.specs.Journal.{ended};
ghost use Rattle.session_hall.specs.Holdings.{IsHoldingOf, IsKept as IsBookKept, present_book};
ghost use Rattle.session_hall.specs.Names.{script_of};
ghost use Rattle.hall_writing.specs.Jobs.{replies_of};
ghost use Rattle.hall_writing.specs.Sheets.{IsKept, Keeps, KeepsEnded};

use reply_sheet::Pending;
use session_hall::{Hall, Holding};
use session_journal::Tickets;

// Keeps the replies of the next ticket and of those behind it, up to one that hasn't ended in the
// book in hand.
pub(crate) fn keep_known<S: Tickets + Drop>(
    hall: &Hall<S>,
    holding: &Holding<S>,
    pending: &mut Pending,
)
    requires holding { IsHoldingOf S.meaning hall.now holding.now }
    requires kept { IsBookKept holding.now.book }
    requires keeps { Keeps (replies_of (S.meaning (script_of hall.now))) pending.old }
    requires few { length (replies_of (S.meaning (script_of hall.now))) ≤ max_requests }
    ensures keeps { Keeps (replies_of (S.meaning (script_of hall.now))) pending.new }
    ensures still { (t : ℕ) → IsKept pending.old t → IsKept pending.new t }
    ensures next { pending.new.next ≡ pending.old.next }
    ensures ended { KeepsEnded (length (replies_of (S.meaning (script_of hall.now))))
        pending.old.next (λ t. ended (present_book holding.now).journal t) pending.new }
{
    for ticket in pending.next()..u32::MAX {
        let Some(reply) = holding.reply(hall, ticket) else {
            return;
        };
        pending.keep(ticket, reply);
    }
}
