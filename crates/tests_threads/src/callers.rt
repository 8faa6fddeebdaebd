// Four callers that add to two counters, each 1,000 times, after one has found a turn taken that
// another holds. The book counts all additions.
ghost use Rattle.std.specs.Prelude.{◌≡◌, ◌≢◌, ℕ, ◌<◌, [], Some, None, vec_len};
ghost use Rattle.turn_board.specs.Boards.{IsSeatOf, turn_count, held, SameNote, Ends};
ghost use Rattle.tests_threads.specs.Callers.{HasBoth, HasRoom, AllFree, EachFree};

use crate::rows::{Anything, Row, cross, find_taken, open_board};
use std::alloc::Global;
use std::process::Abort;
use std::sync::atomic::{AtomicBool, Ordering};
use std::thread;
use std::thread::Threads;
use turn_board::{Board, Hands, Seat, Seats, Taken, TookAll};

// Takes a turn, however often another caller has it.
fn take<R: Abort>(
    rt: &R,
    board: &Board<u64, Anything>,
    seat: &mut Seat<u64, Anything>,
    turn: u32,
) -> u64
    requires seat { IsSeatOf board.now seat.old }
    requires turn { turn < turn_count board.now }
    requires free { held seat.old turn ≡ None }
    ensures seat { IsSeatOf board.now seat.new × SameNote seat.old seat.new }
    ensures value { held seat.new turn ≡ Some result }
    ensures others { (u : ℕ) → u ≢ turn → held seat.new u ≡ held seat.old u }
{
    for _ in 0..u64::MAX {
        if let Taken::Here(value) = board.try_take(seat, turn) {
            return value;
        }
        thread::yield_now();
    }
    rt.panic("a turn was never free")
}

// Takes both counters in one step, however often another caller has one of them.
fn take_both<R: Abort>(
    rt: &R,
    board: &Board<u64, Anything>,
    seat: &mut Seat<u64, Anything>,
    hands: &mut Hands<u64>,
)
    requires seat { IsSeatOf board.now seat.old }
    requires turns { turn_count board.now ≡ 3 }
    requires free { (held seat.old 1 ≡ None) × (held seat.old 2 ≡ None) }
    requires room { HasRoom hands.old }
    ensures seat { IsSeatOf board.now seat.new × SameNote seat.old seat.new }
    ensures both { HasBoth seat.old seat.new hands.new.pairs }
    ensures room { hands.new.room ≡ hands.old.room }
{
    for _ in 0..u64::MAX {
        if let TookAll::Here = board.try_take_all(seat, 0b110, hands) {
            return;
        }
        thread::yield_now();
    }
    rt.panic("the counters were never free")
}

// Adds one to both counters, and to the book: takes all three, and gives them back in one step.
fn add_at_once<R: Abort>(
    rt: &R,
    board: &Board<u64, Anything>,
    seat: &mut Seat<u64, Anything>,
    hands: &mut Hands<u64>,
    caller: usize,
)
    requires seat { Ends board.now 4 caller seat.old }
    requires turns { turn_count board.now ≡ 3 }
    requires room { HasRoom hands.old }
    ensures seat { Ends board.now 4 caller seat.new }
    ensures room { HasRoom hands.new }
{
    let book = take(rt, board, seat, 0);
    take_both(rt, board, seat, hands);
    let Some(odd) = hands.take_last() else {
        unreachable!()
    };
    let Some(even) = hands.take_last() else {
        unreachable!()
    };
    hands.push(1, even.1.wrapping_add(1));
    hands.push(2, odd.1.wrapping_add(1));
    board.give_all(seat, book.wrapping_add(1), hands);
}

// Adds one to the caller's counter, and to the book.
fn add<R: Abort>(
    rt: &R,
    board: &Board<u64, Anything>,
    seat: &mut Seat<u64, Anything>,
    hands: &mut Hands<u64>,
    caller: usize,
)
    requires seat { Ends board.now 4 caller seat.old }
    requires turns { turn_count board.now ≡ 3 }
    requires room { HasRoom hands.old }
    ensures seat { Ends board.now 4 caller seat.new }
    ensures room { HasRoom hands.new }
{
    let turn = 1 + (caller % 2) as u32;
    let book = take(rt, board, seat, 0);
    let counter = take(rt, board, seat, turn);
    hands.push(turn, counter.wrapping_add(1));
    board.give_book(seat, book.wrapping_add(1), hands);
    let Some(pair) = hands.take_last() else {
        unreachable!()
    };
    board.give(seat, pair.0, pair.1);
}

/// Where one caller holds a turn until another has found it taken.
#[derive(Drop)]
pub struct Meeting {
    is_held: AtomicBool,
    is_found: AtomicBool,
}

/// How callers add: where the first two of them meet, and whether each takes all turns at once.
#[derive(Drop)]
pub struct Additions {
    meeting: Meeting,
    is_at_once: bool,
}

// Waits until a flag is set.
fn wait_for(flag: &AtomicBool) {
    for _ in 0..u64::MAX {
        if flag.load(Ordering::SeqCst) {
            return;
        }
        thread::yield_now();
    }
}

// The first caller holds turn 1 until the second one has found it taken.
fn meet<R: Abort>(
    rt: &R,
    board: &Board<u64, Anything>,
    meeting: &Meeting,
    seat: &mut Seat<u64, Anything>,
    caller: usize,
)
    requires seat { Ends board.now 4 caller seat.old }
    requires turns { turn_count board.now ≡ 3 }
    ensures { Ends board.now 4 caller seat.new }
{
    if caller == 0 {
        let counter = take(rt, board, seat, 1);
        meeting.is_held.store(true, Ordering::SeqCst);
        wait_for(&meeting.is_found);
        board.give(seat, 1, counter);
    } else if caller == 1 {
        wait_for(&meeting.is_held);
        find_taken(rt, board, seat, 1);
        meeting.is_found.store(true, Ordering::SeqCst);
    }
}

// One addition, with a turn each or with all turns at once.
fn add_so<R: Abort>(
    rt: &R,
    board: &Board<u64, Anything>,
    is_at_once: bool,
    seat: &mut Seat<u64, Anything>,
    hands: &mut Hands<u64>,
    caller: usize,
)
    requires seat { Ends board.now 4 caller seat.old }
    requires turns { turn_count board.now ≡ 3 }
    requires room { HasRoom hands.old }
    ensures seat { Ends board.now 4 caller seat.new }
    ensures room { HasRoom hands.new }
{
    if is_at_once {
        add_at_once(rt, board, seat, hands, caller);
    } else {
        add(rt, board, seat, hands, caller);
    }
}

// A caller's part: the meeting, and 1,000 additions.
fn work<R: Abort>(
    rt: &R,
    alloc: Global,
    board: &Board<u64, Anything>,
    additions: &Additions,
    seat: &mut Seat<u64, Anything>,
    caller: usize,
)
    requires seat { Ends board.now 4 caller seat.old }
    requires turns { turn_count board.now ≡ 3 }
    ensures { Ends board.now 4 caller seat.new }
{
    let mut hands = Hands::with_room(alloc, 2).expect(rt, "memory");
    cross(board, seat, &hands);
    meet(rt, board, &additions.meeting, seat, caller);
    for done in 0..1000u64 {
        add_so(rt, board, additions.is_at_once, seat, &mut hands, caller);
    }
}

fn work_all<R: Threads + Abort + Sync>(
    rt: &R,
    alloc: Global,
    board: &Board<u64, Anything>,
    additions: &Additions,
    seats: &mut [Seat<u64, Anything>],
)
    requires seats { AllFree board.now seats.old }
    requires turns { turn_count board.now ≡ 3 }
    ensures { AllFree board.now seats.new }
{
    thread::for_each_mut(
        rt,
        seats,
        4,
        &|i, seat| work(rt, alloc, board, additions, seat, i),
    );
}

fn work_each<R: Threads + Abort + Sync>(
    rt: &R,
    alloc: Global,
    board: &Board<u64, Anything>,
    is_at_once: bool,
    seats: &mut Row,
)
    requires seats { EachFree board.now seats.old.items }
    requires turns { turn_count board.now ≡ 3 }
    ensures len { vec_len seats.new ≡ vec_len seats.old }
    ensures each { EachFree board.now seats.new.items }
{
    let meeting = Meeting {
        is_held: AtomicBool::new(false),
        is_found: AtomicBool::new(false),
    };
    let additions = Additions {
        meeting,
        is_at_once,
    };
    work_all(rt, alloc, board, &additions, seats.as_mut_slice());
}

/// What the book and the two counters have at the end, where four callers took the book and one
/// counter, or all turns at once.
pub fn add_by_four<R: Threads + Abort + Sync>(rt: &R, alloc: Global, is_at_once: bool) -> [u64; 3] {
    let values = [0u64, 0, 0].to_vec(alloc).expect(rt, "memory");
    let (board, mut seats) = open_board(alloc, values, 4).expect(rt, "memory");
    work_each(rt, alloc, &board, is_at_once, &mut seats);
    let values = board.close(Seats::from_vec(seats));
    [*values.get(0), *values.get(1), *values.get(2)]
}
