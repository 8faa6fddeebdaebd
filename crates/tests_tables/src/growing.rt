// Shards that grow, and shards with seeds.

use crate::shards::{STEP, entries_of, members_of, on_map, on_set, op_of};
use session_values::Kind;
use session_values::Value::{Nil, Num, Sym};
use shard_tables::{MapShard, SetShard, seed_factor, start_slot_by};

// A full map grows to the room that is asked for, and never below what it holds.
#[test]
fn a_full_map_grows(rt: HostRuntime) {
    let alloc = rt.alloc();
    let mut map = MapShard::with_room(alloc, 2).expect(&rt, "memory");
    on_map(&mut map, op_of(Kind::Put, Num(0), Sym(7)));
    on_map(&mut map, op_of(Kind::Put, Num(STEP), Nil));
    let mut wide = map.grown(alloc, 5).expect(&rt, "memory");
    assert!(rt; [map.spare(), wide.spare(), wide.slots()] == [0, 3, 16]);
    on_map(&mut wide, op_of(Kind::Put, Nil, Num(1)));
    let first = Some((Num(0), Sym(7)));
    assert!(rt; entries_of(&wide) == [first, Some((Num(STEP), Nil)), Some((Nil, Num(1)))]);
    let tight = wide.grown(alloc, 1).expect(&rt, "memory");
    assert!(rt; [tight.spare(), tight.slots()] == [0, 8]);
}

// The same of a set.
#[test]
fn a_full_set_grows(rt: HostRuntime) {
    let alloc = rt.alloc();
    let mut set = SetShard::with_room(alloc, 1).expect(&rt, "memory");
    on_set(&mut set, op_of(Kind::Mark, Sym(3), Nil));
    let mut wide = set.grown(alloc, 3).expect(&rt, "memory");
    assert!(rt; [set.spare(), wide.spare(), wide.slots()] == [0, 2, 8]);
    on_set(&mut wide, op_of(Kind::Mark, Num(STEP), Nil));
    assert!(rt; members_of(&wide) == [Some(Sym(3)), Some(Num(STEP)), None]);
}

#[test]
fn seeded_searches_begin_at_their_slots(rt: HostRuntime) {
    let factor = seed_factor(1);
    let slots = [
        start_slot_by(factor, Nil, 4),
        start_slot_by(factor, Num(1), 4),
        start_slot_by(factor, Num(2), 4),
        start_slot_by(factor, Num(-1), 4),
        start_slot_by(factor, Sym(1), 4),
    ];
    assert!(rt; slots == [4, 5, 2, 1, 5]);
    assert!(rt; seed_factor(0) == 11400714819323198485);
}

// Multiples of it begin at slot 0 where they are spread by nothing but the factor of seed 1.
const SEED_STEP: i64 = 2569339136011888183;

// How many slots the searches look at for a thousand multiples of a number.
fn looked_at_multiples(shard: &mut MapShard, step: i64) -> u64 {
    let mut sum = 0u64;
    for i in 0..1000i64 {
        on_map(shard, op_of(Kind::Put, Num(i.wrapping_mul(step)), Nil));
    }
    for i in 0..1000i64 {
        sum = sum.wrapping_add(u64::from(shard.probes(Num(i.wrapping_mul(step)))));
    }
    sum
}

#[test]
fn a_seed_parts_chosen_keys(rt: HostRuntime) {
    let alloc = rt.alloc();
    let mut plain = MapShard::with_room(alloc, 1000).expect(&rt, "memory");
    let mut seeded = MapShard::with_seed(alloc, 1000, 1).expect(&rt, "memory");
    assert!(rt; looked_at_multiples(&mut plain, STEP) == 500500);
    assert!(rt; looked_at_multiples(&mut seeded, STEP) == 1506);
    let mut wide = seeded.grown(alloc, 4000).expect(&rt, "memory");
    assert!(rt; looked_at_multiples(&mut wide, STEP) == 1063);
    let mut other = MapShard::with_seed(alloc, 1000, 1).expect(&rt, "memory");
    assert!(rt; looked_at_multiples(&mut other, SEED_STEP) == 1522);
}

#[test]
fn a_seeded_set_replies_alike(rt: HostRuntime) {
    let mut set = SetShard::with_seed(rt.alloc(), 2, 9).expect(&rt, "memory");
    let replies = [
        on_set(&mut set, op_of(Kind::Add, Num(STEP), Nil)),
        on_set(&mut set, op_of(Kind::Add, Num(STEP), Nil)),
        on_set(&mut set, op_of(Kind::Has, Num(0), Nil)),
        on_set(&mut set, op_of(Kind::Count, Nil, Nil)),
    ];
    assert!(rt; replies == [Some(Num(1)), Some(Num(0)), Some(Num(0)), Some(Num(1))]);
}
