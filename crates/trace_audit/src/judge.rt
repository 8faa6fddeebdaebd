// What is judged of a trace whose tickets were run.

ghost use Rattle.std.specs.Prelude.{◌≡◌, ◌<◌, ◌≤◌, IfOk, List, length, map};
ghost use Rattle.session_values.specs.Tables.{kind_of};
ghost use Rattle.session_journal.specs.declared.event.Event.{Event as SpecEvent};
ghost use Rattle.session_journal.specs.Script.{Meaning};
ghost use Rattle.session_journal.specs.Traces.{max_events};
ghost use Rattle.trace_audit.specs.Judging.{IsAgainst, IsFront, IsWhole, Judged, MayJudge, WereRun, front_of};
ghost use Rattle.trace_audit.specs.Replaying.{TicketsFit, TicketsJudged};
ghost use Rattle.session_journal.specs.Verdicts as verdicts;
ghost use Rattle.session_journal.specs.Verdicts.{IsVerdict};

use crate::front::Front;
use crate::judging::first_against;
use crate::replaying::first_unreplayed;
use crate::ticket_replay::TicketReplay;
use session_journal::{Event, Verdict};
use session_values::NoMemory;
use shard_tables::WholeTables;
use std::alloc::Global;

/// The number of the rule that an event of this kind breaks.
fn rule_of(e: Event) -> u32
    ensures { result ≡ verdicts.rule_of e }
{
    match e {
        Event::Begin { .. } => 1,
        Event::Done { .. } => 2,
        Event::Delay { .. } => 3,
        Event::End { .. } => 4,
    }
}

/// The verdict on the tickets one after another from these tables, where all events are allowed and
/// all tickets have ended.
fn judge_tickets(tables: &mut WholeTables, replays: &[TicketReplay]) -> Result<Verdict, NoMemory>
    requires { TicketsFit (map kind_of tables.old) replays.now }
    ensures { IfOk result (λ v. TicketsJudged tables.old replays.now v) }
{
    match first_unreplayed(tables, replays)? {
        Some(t) => Ok(Verdict::Ticket {
            rule: 6,
            ticket: t as u32,
        }),
        None => Ok(Verdict::Accepted),
    }
}

/// The verdict where this event is the first that isn't allowed.
fn judge_event(events: &[Event], at: usize) -> Verdict
    requires few { length events.now ≤ max_events }
    requires at { at < length events.now }
    ensures { (m : Meaning) → IsAgainst m events.now at → IsVerdict m events.now result }
{
    Verdict::Event {
        rule: rule_of(events[at]),
        at: at as u32,
    }
}

/// The verdict where all events are allowed, with the tables with which the session opens.
fn judge_whole(
    tables: &mut WholeTables,
    replays: &[TicketReplay],
    front: &Front,
) -> Result<Verdict, NoMemory>
    requires { IsWhole tables.old replays.now (front_of front.now) }
    ensures { IfOk result (λ v. (m : Meaning) (J : List SpecEvent) → m.opening ≡ tables.old
        → WereRun m J replays.now → IsFront m replays.now J (front_of front.now)
        → IsVerdict m J v) }
{
    match front.first_open() {
        Some(t) => Ok(Verdict::Ticket {
            rule: 5,
            ticket: t as u32,
        }),
        None => judge_tickets(tables, replays),
    }
}

/// The verdict on a trace whose tickets were run, with the tables with which the session opens: once
/// for the events in their order, and once for the tickets one after another.
pub(crate) fn judge_trace(
    alloc: Global,
    tables: WholeTables,
    again: &mut WholeTables,
    replays: &[TicketReplay],
    events: &[Event],
) -> Result<Verdict, NoMemory>
    requires tables { tables ≡ again.old }
    requires run { MayJudge again.old replays.now events.now }
    ensures { IfOk result (λ v. Judged again.old replays.now events.now v) }
{
    let mut front = Front::new(alloc, tables, replays.len() as u32)?;
    match first_against(&mut front, replays, events)? {
        Some(at) => Ok(judge_event(events, at)),
        None => judge_whole(again, replays, &front),
    }
}
