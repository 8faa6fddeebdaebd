//! Laws of lawful books: each is the contract of a function with an empty body.

ghost use Rattle.std.specs.Prelude.{◌≡◌, ℕ, ◌<◌, List, [], ◌∷◌, ◌++◌, length, ◌+◌, ◌*◌, ◌≤◌, true, None, Some};
ghost use Rattle.session_values.specs.Dialogue.{Calls, Answers, rest, replies};
ghost use Rattle.session_values.specs.Serial.{serial, tables_before};
ghost use Rattle.session_values.specs.Kinds.{is_adding};
ghost use Rattle.session_values.specs.Tables.{reply, table, size_of};
ghost use Rattle.symbolic_ops.specs.Matching.{Covered};
ghost use Rattle.symbolic_ops.specs.Commuting.{CommutesWith};
ghost use Rattle.session_journal.specs.declared.event.Event.{Event};
ghost use Rattle.session_journal.specs.declared.event.Event.TheVariants.{Delay};
ghost use Rattle.session_journal.specs.Foreknown.{Foreknown};
ghost use Rattle.session_journal.specs.Journal.{Replays, after, begun, ended, entries, regrouped, run};
ghost use Rattle.session_journal.specs.Script.{Meaning, IsScript, IsForesight, calls, room, session_of};
ghost use Rattle.admission_book.specs.Book.{Book, Serving, IsFree, IsBlocker, record_of, opened, after_begin, after_narrow, after_admit, after_delay, after_done, after_end};
ghost use Rattle.session_journal.specs.EventsInTurn.{IsForeseen, IsOpen, MayBeDelayed, TellsAll, now, events_of};
ghost use Rattle.admission_book.specs.Lawful.{Lawful};
ghost use Rattle.admission_book.specs.Methods.{IsOldestOpen};

use session_values::{Op, Reply, Value};
use symbolic_ops::Symbol;

/// A lawful book's journal regrouped by ticket replays, and gives the same tables.
pub fn regrouping()
    ensures replays { (m : Meaning) (b : Book) → Lawful m b →
        Replays (m.opening) (regrouped b.journal) }
    ensures tables { (m : Meaning) (b : Book) → Lawful m b →
        run (m.opening) (regrouped b.journal) ≡ after m.opening b.journal }
{}

/// An opened book is lawful.
pub fn opening()
    ensures { (m : Meaning) (callers : ℕ) → Lawful m (opened m.requests callers) }
{}

/// Each change of a book keeps it lawful.
pub fn keeping()
    ensures begin { (m : Meaning) (b : Book) (c : ℕ) (f : List Symbol) → Lawful m b →
        begun b.journal < m.requests → c < length b.records → record_of b c ≡ None →
        IsForesight (m.next (begun b.journal)) f → Covered f (m.entry (begun b.journal)) →
        Lawful m (after_begin b c f) }
    ensures narrow { (m : Meaning) (b : Book) (c : ℕ) (s : Serving) (f : List Symbol) →
        Lawful m b → record_of b c ≡ Some s → s.flight ≡ None → Covered f s.foresight →
        IsForesight (rest (m.next s.ticket) (replies (entries b.journal s.ticket))) f →
        Lawful m (after_narrow b c s f) }
    ensures admit { (m : Meaning) (b : Book) (c : ℕ) (s : Serving) (op : Op) → Lawful m b →
        record_of b c ≡ Some s → now m b.journal s.ticket ≡ Calls op → IsFree b s.ticket op →
        Lawful m (after_admit b c s op) }
    ensures delay { (m : Meaning) (b : Book) (t : ℕ) (op : Op) (older : ℕ) (y : Symbol) →
        Lawful m b → IsOpen b.journal t → now m b.journal t ≡ Calls op → older < t →
        (CommutesWith op y → ⊥) → IsOpen b.journal older → IsForeseen m b.journal older y →
        Lawful m (after_delay b t op older y) }
    ensures done { (m : Meaning) (b : Book) (c : ℕ) (s : Serving) (op : Op) (r : Value)
        (f : List Symbol) → Lawful m b → record_of b c ≡ Some s → s.flight ≡ Some op →
        r ≡ reply (after m.opening b.journal) op → Covered f s.foresight →
        IsForesight (rest (m.next s.ticket) (replies
        (entries b.journal s.ticket ++ record { op = op; reply = r } ∷ []))) f →
        Covered f (m.told s.ticket (replies
        (entries b.journal s.ticket ++ record { op = op; reply = r } ∷ []))) →
        Lawful m (after_done b c s op r f) }
    ensures end { (m : Meaning) (b : Book) (c : ℕ) (s : Serving) (r : Reply) → Lawful m b →
        record_of b c ≡ Some s → s.flight ≡ None → now m b.journal s.ticket ≡ Answers r →
        s.ticket < length b.kept → Lawful m (after_end b c s r) }
{}

/// The entries of each ticket of a lawful book are the first of its serial ones, and its Reply is
/// its serial one.
pub fn foreknowing()
    ensures { (m : Meaning) (b : Book) (t : ℕ) → IsScript m → Lawful m b →
        t < begun b.journal → Foreknown m b.journal t }
{}

/// Where all begun tickets of a lawful book have ended, its tables are those of serving the tickets
/// one at a time.
pub fn ending()
    ensures { (m : Meaning) (b : Book) → IsScript m → Lawful m b → ((t : ℕ) → t < begun b.journal →
        (r : Reply) × (ended b.journal t ≡ Some r)) →
        after m.opening b.journal ≡ tables_before (session_of m) (begun b.journal) }
{}

/// A lawful book has no more events than its script allows, and its tables no more keys than the
/// opening ones and the adding calls together, and fewer while a call that may add one is still to
/// come.
pub fn bounds()
    ensures events { (m : Meaning) (b : Book) → IsScript m → Lawful m b →
        length b.journal ≤ 2 * m.requests + 2 * calls m }
    ensures keys { (m : Meaning) (b : Book) (i : ℕ) → IsScript m → Lawful m b →
        size_of (table (after m.opening b.journal) i) ≤ size_of (table m.opening i) + room m i }
    ensures fewer { (m : Meaning) (b : Book) (t : ℕ) (op : Op) → IsScript m → Lawful m b →
        IsOpen b.journal t → now m b.journal t ≡ Calls op → is_adding op.kind ≡ true →
        size_of (table (after m.opening b.journal) op.table)
        < size_of (table m.opening op.table) + room m op.table }
{}

/// The events of each ticket of a lawful book are its Begin; for each call at most one Delay and
/// then its Done; at most one Delay of the next call; last its End.
pub fn histories()
    ensures { (m : Meaning) (b : Book) (t : ℕ) → Lawful m b →
        TellsAll (m.next t) (events_of t b.journal) }
{}

/// Each Delay of a lawful book names an older ticket that was open then, and a symbol that was in
/// its foresight: of a list that covered what it might still do, and that was covered by what it
/// declared at its beginning, or right after its last operation before the Delay.
pub fn delays()
    ensures { (m : Meaning) (b : Book) (J : List Event) (K : List Event) (t : ℕ) (op : Op)
        (older : ℕ) (y : Symbol) → Lawful m b → b.journal ≡ J ++ Delay t op older y ∷ K →
        MayBeDelayed m J t op older y }
{}

/// Each ticket of a script is answered when the tickets are served one at a time.
pub fn answering()
    ensures { (m : Meaning) (t : ℕ) → IsScript m →
        (r : Reply) × ((serial (session_of m) t).answer ≡ Some r) }
{}

/// No operation is both free and delayed, each that is delayed has one blocker, and the oldest open
/// ticket has none.
pub fn blocking()
    ensures delayed { (b : Book) (t : ℕ) (op : Op) (older : ℕ) (y : Symbol) →
        IsBlocker b t op older y → IsFree b t op → ⊥ }
    ensures one { (m : Meaning) (b : Book) (t : ℕ) (op : Op) (u : ℕ) (v : ℕ) (y : Symbol)
        (z : Symbol) → Lawful m b → IsBlocker b t op u y → IsBlocker b t op v z →
        (u ≡ v) × (y ≡ z) }
    ensures oldest { (m : Meaning) (b : Book) (t : ℕ) (op : Op) → Lawful m b →
        IsOldestOpen (Some t) b.journal → IsFree b t op }
{}
