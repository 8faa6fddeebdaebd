// Boards of a few turns, under the rule that asks nothing.
ghost use Rattle.std.specs.Prelude.{◌≡◌, ℕ, ◌+◌, ◌<◌, ◌≤◌, [], None, IfOk, vec_len};
ghost use Rattle.session_values.specs.Limits.{max_callers};
ghost use Rattle.turn_board.specs.Limits.{max_board_turns};
ghost use Rattle.turn_board.specs.Boards.{turn_count, held, IsSeatOf, SameNote, Gained, Ends, AllEnd};

use session_values::NoMemory;
use std::alloc::Global;
use std::process::Abort;
use turn_board::{Board, Hands, Seat, Taken, TieRule, TookAll};

/// The rule that asks nothing.
pub struct Anything;

impl TieRule<u64> for Anything {
    type Content = u64;

    ghost content = { λ v. v };

    ghost holds = { λ _ _. Unit {0} };

    ghost moves = { λ _ _ _ _. Unit {0} };

    ghost kept = { λ _ _ _ _ _ _ _ _ _ _ _ _. tt };
}

pub type Row = Vec<Seat<u64, Anything>>;

/// A board over these values, and its seats.
pub fn open_board(
    alloc: Global,
    values: Vec<u64>,
    callers: u32,
) -> Result<(Board<u64, Anything>, Row), NoMemory>
    requires values { (0 < vec_len values) × (vec_len values ≤ max_board_turns) }
    requires callers { (0 < callers) × (callers ≤ max_callers) }
    ensures turns { IfOk result (λ r. turn_count r.0 ≡ vec_len values) }
    ensures len { IfOk result (λ r. vec_len r.1 ≡ callers) }
    ensures each { IfOk result (λ r. AllEnd r.0 callers r.1.items) }
{
    let (board, seats) = Board::<u64, Anything>::open(alloc, values, callers)?;
    Ok((board, seats.into_vec()))
}

/// The last of these seats.
pub fn last_seat(board: &Board<u64, Anything>, callers: u32, seats: &mut Row) -> Seat<u64, Anything>
    requires each { AllEnd board.now callers seats.old.items }
    requires some { 0 < vec_len seats.old }
    ensures len { vec_len seats.new + 1 ≡ vec_len seats.old }
    ensures each { AllEnd board.now callers seats.new.items }
    ensures seat { Ends board.now callers (vec_len seats.new) result }
{
    seats.pop().unwrap()
}

// On a board of one seat no turn is ever found taken.
fn never_busy_alone(board: &Board<u64, Anything>, seat: &mut Seat<u64, Anything>) -> u64
    requires seat { Ends board.now 1 0 seat.old }
    requires turns { turn_count board.now ≡ 5 }
{
    let Taken::Here(value) = board.try_take(seat, 3) else {
        unreachable!()
    };
    board.give(seat, 3, value);
    value
}

/// Takes a turn that is free.
pub fn take_free<R: Abort>(
    rt: &R,
    board: &Board<u64, Anything>,
    seat: &mut Seat<u64, Anything>,
    turn: u32,
) -> u64
    requires seat { IsSeatOf board.now seat.old }
    requires turn { turn < turn_count board.now }
    requires free { held seat.old turn ≡ None }
    ensures seat { IsSeatOf board.now seat.new × SameNote seat.old seat.new }
    ensures gained { Gained seat.old seat.new turn result }
{
    let Taken::Here(value) = board.try_take(seat, turn) else {
        rt.panic("a turn was taken")
    };
    value
}

/// Finds a turn taken.
pub fn find_taken<R: Abort>(
    rt: &R,
    board: &Board<u64, Anything>,
    seat: &mut Seat<u64, Anything>,
    turn: u32,
)
    requires seat { IsSeatOf board.now seat.old }
    requires turn { turn < turn_count board.now }
    requires free { held seat.old turn ≡ None }
    ensures seat { IsSeatOf board.now seat.new × SameNote seat.old seat.new }
    ensures same { (u : ℕ) → held seat.new u ≡ held seat.old u }
{
    let Taken::Busy { turn: found } = board.try_take(seat, turn) else {
        rt.panic("a turn was not taken")
    };
    assert!(rt; found == turn);
}

// Finds turn 3 taken, the least such one of turns 1 to 4.
fn find_set_taken<R: Abort>(
    rt: &R,
    board: &Board<u64, Anything>,
    seat: &mut Seat<u64, Anything>,
    hands: &mut Hands<u64>,
)
    requires seat { IsSeatOf board.now seat.old }
    requires turns { turn_count board.now ≡ 9 }
    requires free { (u : ℕ) → held seat.old u ≡ None }
    requires hands { (hands.old.pairs ≡ []) × (4 ≤ hands.old.room) }
    ensures seat { IsSeatOf board.now seat.new }
    ensures same { (u : ℕ) → held seat.new u ≡ None }
    ensures hands { (hands.new.pairs ≡ []) × (4 ≤ hands.new.room) }
{
    let TookAll::Busy { turn } = board.try_take_all(seat, 0b11110, hands) else {
        rt.panic("no turn was taken")
    };
    assert!(rt; turn == 3);
}

// Takes turns 1 to 4 in one step.
fn take_set<R: Abort>(
    rt: &R,
    board: &Board<u64, Anything>,
    seat: &mut Seat<u64, Anything>,
    hands: &mut Hands<u64>,
)
    requires seat { IsSeatOf board.now seat.old }
    requires turns { turn_count board.now ≡ 9 }
    requires free { (u : ℕ) → held seat.old u ≡ None }
    requires hands { (hands.old.pairs ≡ []) × (4 ≤ hands.old.room) }
{
    let TookAll::Here = board.try_take_all(seat, 0b11110, hands) else {
        rt.panic("a turn was taken")
    };
}

// A turn that one seat holds is busy for another until it is given back, and other turns are not; a
// set of turns is taken whole or not at all, and the least turn that is taken is named.
fn whole_or_not_at_all<R: Abort>(
    rt: &R,
    board: &Board<u64, Anything>,
    first: &mut Seat<u64, Anything>,
    second: &mut Seat<u64, Anything>,
    third: &mut Seat<u64, Anything>,
    hands: &mut Hands<u64>,
)
    requires first { Ends board.now 3 0 first.old }
    requires second { Ends board.now 3 1 second.old }
    requires third { Ends board.now 3 2 third.old }
    requires turns { turn_count board.now ≡ 9 }
    requires hands { (hands.old.pairs ≡ []) × (4 ≤ hands.old.room) }
{
    let value = take_free(rt, board, first, 3);
    find_taken(rt, board, second, 3);
    find_set_taken(rt, board, second, hands);
    let other = take_free(rt, board, third, 4);
    board.give(first, 3, value);
    board.give(third, 4, other);
    take_set(rt, board, second, hands);
    assert!(rt; value == 30 && other == 40);
}

// The hands hold the values of turns 1 to 4, in this order.
fn hold_four<R: Abort>(rt: &R, hands: &Hands<u64>) {
    assert!(rt; hands.len() == 4);
    for i in 0..4u32 {
        let (turn, value) = *hands.get(i);
        assert!(rt; turn == i + 1 && value == 10 * (i as u64 + 1));
    }
}

/// The only seat of a board takes a turn and gives it back.
pub fn one_seat<R: Abort>(rt: &R, alloc: Global) {
    let values = [0u64, 10, 20, 30, 40].to_vec(alloc).expect(rt, "memory");
    let (board, mut seats) = open_board(alloc, values, 1).expect(rt, "memory");
    let mut seat = last_seat(&board, 1, &mut seats);
    let value = never_busy_alone(&board, &mut seat);
    assert!(rt; value == 30 && board.turns() == 5);
}

/// Three seats of a board take turns one by one and as a set.
pub fn three_seats<R: Abort>(rt: &R, alloc: Global) {
    let values = [0u64, 10, 20, 30, 40, 50, 60, 70, 80];
    let values = values.to_vec(alloc).expect(rt, "memory");
    let (board, mut seats) = open_board(alloc, values, 3).expect(rt, "memory");
    let mut third = last_seat(&board, 3, &mut seats);
    let mut second = last_seat(&board, 3, &mut seats);
    let mut first = last_seat(&board, 3, &mut seats);
    let mut hands = Hands::with_room(alloc, 4).expect(rt, "memory");
    whole_or_not_at_all(rt, &board, &mut first, &mut second, &mut third, &mut hands);
    hold_four(rt, &hands);
}

fn shared<T: Sync>(_it: &T) {}

fn moved<T: Send>(_it: &T) {}

/// A board is shared, and a seat and hands are moved, where a value may be moved.
pub fn cross<V: Send, R: TieRule<V>>(board: &Board<V, R>, seat: &Seat<V, R>, hands: &Hands<V>) {
    shared(board);
    moved(seat);
    moved(hands);
}
