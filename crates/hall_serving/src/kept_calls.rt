// The calls of a ticket, with the book in hand where that is possible, and else each in steps of
// its own.

ghost use Rattle.std.specs.Prelude.{◌≡◌, None, length};
ghost use Rattle.session_journal.specs.Script.{HasSite, declared_with};
ghost use Rattle.session_hall.specs.Calls.{MayAnswer, MayCall, MayDeclare};
ghost use Rattle.session_hall.specs.HoldingCalls.{ByPresent, IsFreeKept};
ghost use Rattle.session_hall.specs.Holdings.{IsHoldingOf, IsKept, StaysHolding, foresight_at};
ghost use Rattle.session_hall.specs.Names.{script_of};
ghost use Rattle.session_hall.specs.Stages.{IsInFlight, OnFlight, OnServing};
ghost use Rattle.hall_serving.specs.KeptCalls.{CalledAt, CalledFlight, ClosedAt, FliesAt};
ghost use Rattle.hall_serving.specs.KeptCalls.{HasCalled, NarrowedAt, SameTicket};

use crate::keeping::{give_back, keep};
use admission_book::Admission;
use session_hall::{Hall, Holding, Waits, Worked};
use session_journal::{Site, Tickets};
use session_values::{Op, Reply, Value};
use std::sync::Wait;
use std::thread::Threads;
use symbolic_ops::Foresight;
use worker_gate::{Gate, Place};

// Admits an operation in the book in hand, however often an older ticket delays it: the first delay
// is noted there, and the book is given back between two tries.
#[inline(always)]
fn admit<R: Wait, S: Tickets + Drop>(
    rt: &R,
    hall: &Hall<S>,
    holding: &mut Holding<S>,
    op: Op,
    waits: &mut Waits,
)
    requires holding { IsHoldingOf S.meaning hall.now holding.old }
    requires may { ByPresent (S.meaning (script_of hall.now)) holding.old
        (MayCall (foresight_at holding.old) op) }
    ensures holding { StaysHolding S.meaning hall.now holding.old holding.new }
    ensures kept { IsKept holding.new.book }
    ensures same { SameTicket holding.old holding.new }
    ensures free { IsFreeKept holding.new op }
{
    waits.reset();
    for _ in rt.forever() {
        keep(rt, hall, holding, &mut Waits::none());
        match holding.admit(hall, op) {
            Admission::Admitted => return,
            Admission::Delayed { .. } => {}
        }
        // No ticket ends while the book is in hand.
        waits.note(hall);
        give_back(hall, holding);
        waits.delayed(hall);
    }
    unreachable!()
}

// Puts the operation that was admitted in flight, and gives the book back, if the gate may hold its
// caller here or once the operation is done: what is done in hand is entered in hand.
#[inline(always)]
fn come_admitted<S: Tickets + Drop, G: Gate>(
    hall: &Hall<S>,
    holding: &mut Holding<S>,
    gate: &G,
    ticket: u32,
    op: Op,
)
    requires holding { IsHoldingOf S.meaning hall.now holding.old }
    requires kept { IsKept holding.old.book }
    requires may { ByPresent (S.meaning (script_of hall.now)) holding.old
        (MayCall (foresight_at holding.old) op) }
    requires free { IsFreeKept holding.old op }
    ensures holding { StaysHolding S.meaning hall.now holding.old holding.new }
    ensures kept { IsKept holding.new.book → holding.new ≡ holding.old }
    ensures flies { holding.new.book ≡ None
        → OnServing holding.old.caller.stage (FliesAt holding.old holding.new op) }
{
    if gate.may_hold(Place::Admitted(ticket)) || gate.may_hold(Place::Applied(ticket)) {
        holding.launch(hall, op);
    }
}

// Does the operation in flight on its shards, however often one of them is taken.
fn apply_apart<R: Wait, S: Tickets + Drop>(
    rt: &R,
    hall: &Hall<S>,
    holding: &mut Holding<S>,
    waits: &mut Waits,
) -> Value
    requires holding { IsHoldingOf S.meaning hall.now holding.old }
    requires none { holding.old.book ≡ None }
    requires stage { IsInFlight holding.old.caller.stage }
    ensures holding { StaysHolding S.meaning hall.now holding.old holding.new }
    ensures called { CalledFlight holding.old holding.new result }
{
    holding.caller.apply_with(rt, hall, waits)
}

// Does the operation that was admitted on its shards in hand. If one of them is taken, it is put in
// flight, and done apart.
#[inline(always)]
fn apply_in_hand<R: Wait, S: Tickets + Drop>(
    rt: &R,
    hall: &Hall<S>,
    holding: &mut Holding<S>,
    op: Op,
    waits: &mut Waits,
) -> Value
    requires holding { IsHoldingOf S.meaning hall.now holding.old }
    requires kept { IsKept holding.old.book }
    requires may { ByPresent (S.meaning (script_of hall.now)) holding.old
        (MayCall (foresight_at holding.old) op) }
    requires free { IsFreeKept holding.old op }
    ensures holding { StaysHolding S.meaning hall.now holding.old holding.new }
    ensures called { OnServing holding.old.caller.stage
        (CalledAt holding.old holding.new op result) }
{
    match holding.work(hall, op) {
        Worked::Done(reply) => return reply,
        Worked::Busy { .. } => {}
    }
    holding.launch(hall, op);
    apply_apart(rt, hall, holding, waits)
}

// Does the operation that was admitted: in hand, if the book is in hand, and else apart.
#[inline(always)]
fn apply<R: Wait, S: Tickets + Drop>(
    rt: &R,
    hall: &Hall<S>,
    holding: &mut Holding<S>,
    op: Op,
    waits: &mut Waits,
) -> Value
    requires holding { IsHoldingOf S.meaning hall.now holding.old }
    requires kept { IsKept holding.old.book → ByPresent (S.meaning (script_of hall.now)) holding.old
        (MayCall (foresight_at holding.old) op) × IsFreeKept holding.old op }
    requires flies { holding.old.book ≡ None → OnFlight holding.old.caller.stage (λ t o. o ≡ op) }
    ensures holding { StaysHolding S.meaning hall.now holding.old holding.new }
    ensures called { HasCalled holding.old holding.new op result }
{
    if holding.is_kept() {
        return apply_in_hand(rt, hall, holding, op, waits);
    }
    apply_apart(rt, hall, holding, waits)
}

// Calls an operation of the ticket: it is admitted and done on its shards, and both places are
// passed. The gate is given with the ticket.
#[inline(always)]
pub(crate) fn call<R: Threads + Wait, S: Tickets + Drop, G: Gate>(
    rt: &R,
    hall: &Hall<S>,
    holding: &mut Holding<S>,
    at: (&G, u32),
    op: Op,
    waits: &mut Waits,
) -> Value
    requires holding { IsHoldingOf S.meaning hall.now holding.old }
    requires may { ByPresent (S.meaning (script_of hall.now)) holding.old
        (MayCall (foresight_at holding.old) op) }
    ensures holding { StaysHolding S.meaning hall.now holding.old holding.new }
    ensures called { OnServing holding.old.caller.stage
        (CalledAt holding.old holding.new op result) }
{
    let (gate, ticket) = at;
    admit(rt, hall, holding, op, waits);
    come_admitted(hall, holding, gate, ticket, op);
    gate.pass(rt, Place::Admitted(ticket));
    let reply = apply(rt, hall, holding, op, waits);
    gate.pass(rt, Place::Applied(ticket));
    reply
}

// Makes a list that the foresight covers the foresight.
pub(crate) fn declare<R: Wait, S: Tickets + Drop>(
    rt: &R,
    hall: &Hall<S>,
    holding: &mut Holding<S>,
    f: &Foresight,
    waits: &mut Waits,
)
    requires holding { IsHoldingOf S.meaning hall.now holding.old }
    requires may { ByPresent (S.meaning (script_of hall.now)) holding.old
        (MayDeclare (foresight_at holding.old) f.now.symbols) }
    ensures holding { StaysHolding S.meaning hall.now holding.old holding.new }
    ensures narrowed { OnServing holding.old.caller.stage
        (NarrowedAt holding.old holding.new f.now.symbols) }
{
    if holding.is_kept() {
        holding.declare(hall, f);
        return;
    }
    holding.caller.declare_with(rt, hall, f, waits);
}

// The same, where the list is what the script declares at a site with these values.
pub(crate) fn declare_at<R: Wait, S: Tickets + Drop>(
    rt: &R,
    hall: &Hall<S>,
    holding: &mut Holding<S>,
    site: Site,
    values: &[Value],
    waits: &mut Waits,
)
    requires holding { IsHoldingOf S.meaning hall.now holding.old }
    requires site { HasSite (S.meaning (script_of hall.now)) site (length values.now) }
    requires may { ByPresent (S.meaning (script_of hall.now)) holding.old
        (MayDeclare (foresight_at holding.old)
        (declared_with (S.meaning (script_of hall.now)) site values.now)) }
    ensures holding { StaysHolding S.meaning hall.now holding.old holding.new }
    ensures narrowed { OnServing holding.old.caller.stage
        (NarrowedAt holding.old holding.new
        (declared_with (S.meaning (script_of hall.now)) site values.now)) }
{
    if holding.is_kept() {
        holding.declare_at(hall, site, values);
        return;
    }
    holding.caller.declare_at(rt, hall, site, values, waits);
}

// Ends the ticket with its reply, and keeps the book.
pub(crate) fn end<R: Wait, S: Tickets + Drop>(
    rt: &R,
    hall: &Hall<S>,
    holding: &mut Holding<S>,
    reply: Reply,
    waits: &mut Waits,
)
    requires holding { IsHoldingOf S.meaning hall.now holding.old }
    requires may { ByPresent (S.meaning (script_of hall.now)) holding.old (MayAnswer reply) }
    ensures holding { StaysHolding S.meaning hall.now holding.old holding.new }
    ensures ended { OnServing holding.old.caller.stage
        (ClosedAt holding.old holding.new reply) }
{
    keep(rt, hall, holding, waits);
    holding.end(hall, reply);
}
