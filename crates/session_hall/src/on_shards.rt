// The shards in a caller's hands, by turn.

ghost use Rattle.std.specs.Prelude.{◌≡◌, ℕ, ◌+◌, ◌<◌, ◌≤◌, length, IsSomeAnd};
ghost use Rattle.session_values.specs.Sums.{sum_below};
ghost use Rattle.session_values.specs.OpeningLimits.{max_keys};
ghost use Rattle.turn_board.specs.Boards.{CanAsk, IsSeatOf, SameNote, turn_count};
ghost use Rattle.turn_board.specs.Hands.{Once, in_hands};
ghost use Rattle.turn_board.specs.Limits.{max_board_turns};
ghost use Rattle.turn_board.specs.Maps.{bits_of};
ghost use Rattle.hall_rule.specs.Shards.{content_of};
ghost use Rattle.session_hall.specs.OnShards.{AreShards, CanWorkFound, CanWorkHere, CanWorkIn};
ghost use Rattle.session_hall.specs.OnShards.{CountsRow, HasWorkedFound, HasWorkedIn, IsFound};
ghost use Rattle.session_hall.specs.OnShards.{IsMissing, TakesSet, WorkedUnder, keys_of_row};
ghost use Rattle.session_hall.specs.Working.{CanDo, IsAnyShard};

use crate::applying::{keys_at, work_on};
use hall_rule::{HallRule, Held};
use session_journal::Tickets;
use session_values::{Op, Value};
use turn_board::{Board, Hands, Seat, TookAll};

// The turn, as a set, if it isn't in hand.
#[inline(always)]
fn missing_one<S: Tickets + Drop>(hands: &Hands<Held<S>>, turn: u32) -> u64
    requires { turn < max_board_turns }
    ensures { IsMissing hands.now.pairs turn (turn + 1) result }
{
    let mut set = 0u64;
    if hands.place_of(turn).is_none() {
        set |= 1u64 << turn;
    }
    set
}

// The turns of a row that aren't in hand, as a set.
fn missing_of_row<S: Tickets + Drop>(hands: &Hands<Held<S>>, first: u32, many: u32) -> u64
    requires { first + many ≤ max_board_turns }
    ensures { IsMissing hands.now.pairs first (first + many) result }
{
    let mut set = 0u64;
    for turn in first..first + many {
        if hands.place_of(turn).is_none() {
            set |= 1u64 << turn;
        }
    }
    set
}

// The same; most rows are one turn.
#[inline(always)]
pub(crate) fn missing_in<S: Tickets + Drop>(hands: &Hands<Held<S>>, first: u32, many: u32) -> u64
    requires { first + many ≤ max_board_turns }
    ensures { IsMissing hands.now.pairs first (first + many) result }
{
    if many == 1 {
        missing_one(hands, first)
    } else {
        missing_of_row(hands, first, many)
    }
}

// Takes all turns of a set, or none. No step is made where there are none.
#[inline(always)]
pub(crate) fn take_set<S: Tickets + Drop>(
    board: &Board<Held<S>, HallRule<S>>,
    seat: &mut Seat<Held<S>, HallRule<S>>,
    set: u64,
    hands: &mut Hands<Held<S>>,
) -> TookAll
    requires seat { IsSeatOf board.now seat.old }
    requires set { CanAsk board.now seat.old set }
    requires room { length hands.old.pairs + length (bits_of set (turn_count board.now))
        ≤ hands.old.room }
    ensures seat { IsSeatOf board.now seat.new × SameNote seat.old seat.new }
    ensures took { TakesSet S.meaning (turn_count board.now) seat.old seat.new set
        hands.old.pairs hands.new.pairs result }
    ensures room { hands.new.room ≡ hands.old.room }
{
    if set == 0 {
        TookAll::Here
    } else {
        board.try_take_all(seat, set, hands)
    }
}

// Does an operation with a key on the shard of a turn.
#[inline(always)]
fn work_at<S: Tickets + Drop>(hands: &mut Hands<Held<S>>, op: &Op, turn: u32) -> Value
    requires once { Once content_of hands.old.pairs }
    requires can { IsSomeAnd (in_hands content_of hands.old.pairs turn) (λ x. CanDo op.now x) }
    ensures worked { WorkedUnder op.now turn hands.old.pairs hands.new.pairs result }
    ensures room { hands.new.room ≡ hands.old.room }
{
    let Some(i) = hands.place_of(turn) else {
        unreachable!();
    };
    work_on(hands.value_mut(i), op)
}

// The number of keys of the shard of a turn.
#[inline(always)]
fn keys_under<S: Tickets + Drop>(hands: &Hands<Held<S>>, turn: u32) -> u32
    requires once { Once content_of hands.now.pairs }
    requires can { IsSomeAnd (in_hands content_of hands.now.pairs turn) (λ x. IsAnyShard x) }
    ensures { result ≡ keys_of_row hands.now.pairs turn 0 }
{
    let Some(i) = hands.place_of(turn) else {
        unreachable!();
    };
    keys_at(hands, i)
}

// The number of keys of the shards of a row of turns.
#[inline(always)]
fn count_row<S: Tickets + Drop>(hands: &Hands<Held<S>>, first: u32, many: u32) -> u32
    requires turns { first + many ≤ max_board_turns }
    requires once { Once content_of hands.now.pairs }
    requires can { (u : ℕ) → first ≤ u → u < first + many
        → IsSomeAnd (in_hands content_of hands.now.pairs u) (λ x. IsAnyShard x) }
    requires few { sum_below many (keys_of_row hands.now.pairs first) ≤ max_keys }
    ensures { result ≡ sum_below many (keys_of_row hands.now.pairs first) }
{
    let mut count = 0;
    for i in 0..many {
        count += keys_under(hands, first + i);
    }
    count
}

// Does the operation on the shards of its turns.
#[inline(always)]
pub(crate) fn work_in<S: Tickets + Drop>(
    hands: &mut Hands<Held<S>>,
    op: &Op,
    first: u32,
    many: u32,
) -> Value
    requires can { CanWorkIn op.now first many hands.old.pairs }
    ensures worked { HasWorkedIn op.now first many hands.old.pairs hands.new.pairs result }
    ensures room { hands.new.room ≡ hands.old.room }
{
    if op.kind.arguments() == 0 {
        Value::Num(count_row(hands, first, many) as i64)
    } else {
        work_at(hands, op, first)
    }
}

// What is found in hand of the turns of an operation, if all of them are.
#[derive(Clone, Copy, Debug)]
pub(crate) enum Found {
    // The place of its one shard in the hands.
    Place(u32),
    // How many keys the shards of its row have.
    Keys(u64),
}

// The number of keys of the shards of a row of turns, or None if one isn't in hand.
fn counted<S: Tickets + Drop>(hands: &Hands<Held<S>>, first: u32, many: u32) -> Option<u64>
    requires turns { first + many ≤ max_board_turns }
    requires once { Once content_of hands.now.pairs }
    requires shards { AreShards hands.now.pairs first many }
    ensures { CountsRow hands.now.pairs first many result }
{
    let mut count = 0u64;
    for i in 0..many {
        let Some(at) = hands.place_of(first + i) else {
            return None;
        };
        count += keys_at(hands, at) as u64;
    }
    Some(count)
}

// What is in hand of the turns of an operation, or None if one of them isn't.
#[inline(always)]
pub(crate) fn found_in<S: Tickets + Drop>(
    hands: &Hands<Held<S>>,
    op: &Op,
    first: u32,
    many: u32,
) -> Option<Found>
    requires can { CanWorkHere op.now first many hands.now.pairs }
    ensures { IsFound op.now first many hands.now.pairs result }
{
    if op.kind.arguments() == 0 {
        match counted(hands, first, many) {
            Some(count) => Some(Found::Keys(count)),
            None => None,
        }
    } else {
        match hands.place_of(first) {
            Some(i) => Some(Found::Place(i)),
            None => None,
        }
    }
}

// Does the operation on what was found in hand.
#[inline(always)]
pub(crate) fn work_found<S: Tickets + Drop>(
    hands: &mut Hands<Held<S>>,
    op: &Op,
    found: Found,
) -> Value
    requires can { CanWorkFound op.now hands.old.pairs found }
    ensures worked { HasWorkedFound op.now hands.old.pairs hands.new.pairs found result }
    ensures room { hands.new.room ≡ hands.old.room }
{
    match found {
        Found::Place(i) => work_on(hands.value_mut(i), op),
        Found::Keys(count) => Value::Num(count as i64),
    }
}
