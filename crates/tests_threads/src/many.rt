// A board of 32 seats, each of which takes a turn of its own and keeps it.
ghost use Rattle.std.specs.Prelude.{◌≡◌, ℕ, ◌<◌, None, vec_len};
ghost use Rattle.turn_board.specs.Boards.{turn_count, held, IsSeatOf, AllEnd};

use crate::rows::{Anything, Row, last_seat, open_board, take_free};
use std::alloc::Global;
use std::process::Abort;
use turn_board::{Board, Seat};

// Gets turn 33, which the seat before has given back, gives it back, and keeps a turn of its own,
// while each seat before keeps one.
fn keep_own<R: Abort>(
    rt: &R,
    board: &Board<u64, Anything>,
    seat: &mut Seat<u64, Anything>,
    own: u32,
)
    requires seat { IsSeatOf board.now seat.old }
    requires turns { turn_count board.now ≡ 34 }
    requires own { own < 33 }
    requires free { (u : ℕ) → held seat.old u ≡ None }
{
    let value = take_free(rt, board, seat, 33);
    board.give(seat, 33, value);
    take_free(rt, board, seat, own);
}

fn keep_each<R: Abort>(rt: &R, board: &Board<u64, Anything>, seats: &mut Row)
    requires seats { AllEnd board.now 32 seats.old.items }
    requires len { vec_len seats.old ≡ 32 }
    requires turns { turn_count board.now ≡ 34 }
{
    for own in 1..33u32 {
        let mut seat = last_seat(board, 32, seats);
        keep_own(rt, board, &mut seat, own);
    }
}

/// The word of turns, in which a bit is set for the turn of each of 32 seats.
pub fn kept_by_many<R: Abort>(rt: &R, alloc: Global) -> u64 {
    let values = [0u64; 34].to_vec(alloc).expect(rt, "memory");
    let (board, mut seats) = open_board(alloc, values, 32).expect(rt, "memory");
    keep_each(rt, &board, &mut seats);
    board.look()
}
