// Rows of takings and givings back, many seats, and four threads that add to two counters.

use crate::callers::add_by_four;
use crate::many::kept_by_many;
use crate::rows;

#[test]
fn one_seat_never_finds_a_turn_taken(rt: HostRuntime) {
    rows::one_seat(&rt, rt.alloc());
}

#[test]
fn a_turn_is_busy_until_it_is_given_back(rt: HostRuntime) {
    rows::three_seats(&rt, rt.alloc());
}

#[test]
fn a_free_turn_is_never_busy_among_many_seats(rt: HostRuntime) {
    assert!(rt; kept_by_many(&rt, rt.alloc()) == 0x1_ffff_fffe);
}

#[test]
fn four_callers_add_with_a_turn_each(rt: HostRuntime) {
    assert!(rt; add_by_four(&rt, rt.alloc(), false) == [4000, 2000, 2000]);
}

#[test]
fn four_callers_add_with_all_turns_at_once(rt: HostRuntime) {
    assert!(rt; add_by_four(&rt, rt.alloc(), true) == [4000, 4000, 4000]);
}
