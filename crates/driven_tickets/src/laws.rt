//! Laws of driven tickets: each is the contract of a function with an empty body.

ghost use Rattle.std.specs.Prelude.{◌≡◌, ℕ, List, length};
ghost use Rattle.session_values.specs.declared.op.Op.{Op};
ghost use Rattle.session_values.specs.declared.reply.Reply.{Reply};
ghost use Rattle.session_values.specs.Serial.{Session, serial_replies, tables_before};
ghost use Rattle.session_values.specs.Tables.{Tables};
ghost use Rattle.session_journal.specs.Journal.{Replays, by_ticket, run};
ghost use Rattle.driven_tickets.specs.Acts.{Act, DeskState, Run, done_in, opened};
ghost use Rattle.driven_tickets.specs.Alone.{AreAlone};
ghost use Rattle.driven_tickets.specs.Commuting.{AllListsCommute, CommutesWithOlder, IsOldest, begun_in};
ghost use Rattle.driven_tickets.specs.Desk.{CalledAs, DeskView, IsDesk};
ghost use Rattle.driven_tickets.specs.declared.answers.Called.TheVariants as called;

/// Whatever a program does, ticket by ticket and call by call: the operations that were done,
/// ticket after ticket in the order in which the tickets began, replay from the opening tables with
/// the same replies, and give the same tables. So each ticket was answered as if it had run alone.
pub fn runs_regroup()
    ensures replays { (ts : Tables) (acts : List Act) (q : DeskState) → Run (opened ts) acts q
        → Replays ts (by_ticket q.next (done_in acts)) }
    ensures tables { (ts : Tables) (acts : List Act) (q : DeskState) → Run (opened ts) acts q
        → run ts (by_ticket q.next (done_in acts)) ≡ q.tables }
{}

/// Requests that are served one at a time, each alone on the tables that the one before left: the
/// replies are those of the serial run, whatever requests come later, and so are the tables.
pub fn served_alone()
    ensures replies { (s : Session) (rs : List Reply) (q : Tables) → AreAlone s 0 s.opening rs q
        → rs ≡ serial_replies s (length rs) }
    ensures tables { (s : Session) (rs : List Reply) (q : Tables) → AreAlone s 0 s.opening rs q
        → q ≡ tables_before s (length rs) }
{}

/// The oldest open ticket is never delayed.
pub fn oldest_goes_on()
    ensures { (d e : DeskView) (t u : ℕ) (op : Op) → IsOldest d t
        → CalledAs d e t op (called.Delayed u) → ⊥ }
{}

/// A ticket is never delayed while what it has declared commutes with what each older open ticket
/// has; and where what all tickets declared as they began commutes, none of them ever is.
pub fn commuting_go_on()
    ensures now { (d e : DeskView) (t u : ℕ) (op : Op) → CommutesWithOlder d t
        → CalledAs d e t op (called.Delayed u) → ⊥ }
    ensures ever { (d e : DeskView) (t u : ℕ) (op : Op) → IsDesk d
        → AllListsCommute (begun_in d.acts) → CalledAs d e t op (called.Delayed u) → ⊥ }
{}
