// Doing an operation on its shards.

ghost use Rattle.std.specs.Prelude.{◌≡◌, ◌+◌, ◌-◌, ◌^◌, ◌<◌, ◌≤◌, length};
ghost use Rattle.session_values.specs.Limits.{max_shards};
ghost use Rattle.turn_board.specs.Boards.{turn_count};
ghost use Rattle.turn_board.specs.Limits.{max_board_turns};
ghost use Rattle.hall_rule.specs.Shards.{content_of};
ghost use Rattle.hall_rule.specs.Turns.{place, span};
ghost use Rattle.session_hall.specs.Callers.{IsCallerOf, StaysCaller};
ghost use Rattle.session_hall.specs.Calls.{AppliedAs};
ghost use Rattle.session_hall.specs.Names.{script_of};
ghost use Rattle.session_hall.specs.Stages.{IsInFlight};
ghost use Rattle.session_hall.specs.Working.{CanDo, HasKeysAt, HasShardAt, WorkedTo};

use crate::answers::Applying;
use crate::caller::Caller;
use crate::hall::Hall;
use crate::on_shards::work_in;
use crate::stage::{Stage, in_flight};
use hall_rule::Held;
use session_journal::Tickets;
use session_values::{Op, Value};
use shard_tables::shard_of;
use turn_board::{Hands, TookAll};

// The first turn of an operation, less one.
pub(crate) fn place_of(op: &Op, shards: u32) -> u32
    requires some { 0 < shards }
    requires few { (shards ≤ max_shards) × (op.now.table ≤ max_board_turns) }
    ensures { result ≡ place shards op.now }
{
    let within = if op.kind.arguments() == 0 {
        0
    } else {
        shard_of(op.key(), shards)
    };
    op.table * shards + within
}

// How many turns an operation takes.
pub(crate) fn span_of(op: &Op, shards: u32) -> u32
    ensures { result ≡ span shards op.now }
{
    if op.kind.arguments() == 0 { shards } else { 1 }
}

// A row of turns, as a set.
fn row_of(first: u32, many: u32) -> u64
    requires { first + many ≤ max_board_turns }
    ensures { result ≡ 2 ^ (first + many) - 2 ^ first }
{
    (1u64 << (first + many)) - (1u64 << first)
}

// Does the operation on a shard.
pub(crate) fn work_on<S: Tickets + Drop>(held: &mut Held<S>, op: &Op) -> Value
    requires { CanDo op.now (content_of held.old) }
    ensures { WorkedTo op.now (content_of held.old) (content_of held.new) result }
{
    match held {
        Held::Table(part) => part.apply(*op),
        Held::Register(_) => unreachable!(),
    }
}

// The number of keys of a shard in the hands, by its place from 0.
pub(crate) fn keys_at<S: Tickets + Drop>(hands: &Hands<Held<S>>, i: u32) -> u32
    requires within { i < length hands.now.pairs }
    requires shard { HasShardAt i hands.now.pairs }
    ensures { HasKeysAt i hands.now.pairs result }
{
    let (_, held) = hands.get(i);
    match held {
        Held::Table(part) => part.len(),
        Held::Register(_) => unreachable!(),
    }
}

impl<S: Tickets + Drop> Caller<S> {
    /// Takes the operation's shards, all in one step or none, does it there, and keeps them.
    pub fn try_apply(&mut self, hall: &Hall<S>) -> Applying
        requires caller { IsCallerOf S.meaning hall.now self.old }
        requires stage { IsInFlight self.old.stage }
        ensures caller { StaysCaller S.meaning hall.now self.old self.new }
        ensures applied { AppliedAs (S.meaning (script_of hall.now)) self.old self.new
            hall.now.sizes.shards (turn_count hall.now.board) result }
    {
        let (t, op) = in_flight(&self.stage);
        let first = 1 + place_of(op, hall.sizes.shards);
        let many = span_of(op, hall.sizes.shards);
        let turns = row_of(first, many);
        match hall
            .board
            .try_take_all(&mut self.seat, turns, &mut self.hands)
        {
            TookAll::Busy { turn } => return Applying::Busy { turn },
            TookAll::Here => {}
        }
        let reply = work_in(&mut self.hands, op, first, many);
        self.stage = Stage::Applied(t, *op, reply);
        Applying::Applied(reply)
    }
}
