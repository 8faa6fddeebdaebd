// Shards beside the plain tables, what room they have, and how many slots their searches look at.

ghost use Rattle.std.specs.Prelude.{◌≡◌, ◌<◌, [], ◌∷◌, Some, map, slice_get};
ghost use Rattle.session_values.specs.declared.kind.TableKind.TheVariants.{Map, Set};
ghost use Rattle.session_values.specs.Op.{IsOp};
ghost use Rattle.session_values.specs.Kinds.{home};
ghost use Rattle.session_values.specs.Tables.{kind_of};

use plain_tables::PlainTables;
use session_values::Value::{Nil, Num, Sym};
use session_values::{Kind, Op, TableKind, Value};
use shard_tables::{MapShard, SetShard, shard_of, start_slot};
use std::alloc::Global;
use std::process::Abort;

#[test]
fn each_key_has_its_shard(rt: HostRuntime) {
    let shards = [
        shard_of(Num(7), 4),
        shard_of(Num(-1), 4),
        shard_of(Sym(5), 4),
        shard_of(Nil, 4),
    ];
    assert!(rt; shards == [3, 3, 1, 0]);
}

#[test]
fn searches_begin_at_start_slots(rt: HostRuntime) {
    let slots = [
        start_slot(Nil, 4),
        start_slot(Num(1), 4),
        start_slot(Num(2), 4),
        start_slot(Num(-1), 4),
        start_slot(Sym(1), 4),
    ];
    assert!(rt; slots == [0, 9, 3, 6, 1]);
}

// A shard of either kind.
#[derive(Drop)]
enum Part {
    Bindings(MapShard),
    Members(SetShard),
}

impl Part {
    fn spare(&self) -> u32 {
        match self {
            Part::Bindings(shard) => shard.spare(),
            Part::Members(shard) => shard.spare(),
        }
    }

    // None where the operation is on the other kind, or where no room is left.
    fn apply(&mut self, op: Op) -> Option<Value> {
        match self {
            Part::Bindings(shard) => on_map(shard, op),
            Part::Members(shard) => on_set(shard, op),
        }
    }
}

pub(crate) fn on_map(shard: &mut MapShard, op: Op) -> Option<Value> {
    if op.kind.on_map() && (shard.spare() > 0 || !op.kind.adds()) {
        Some(shard.apply(op))
    } else {
        None
    }
}

pub(crate) fn on_set(shard: &mut SetShard, op: Op) -> Option<Value> {
    if !op.kind.on_map() && (shard.spare() > 0 || !op.kind.adds()) {
        Some(shard.apply(op))
    } else {
        None
    }
}

pub(crate) fn op_of(kind: Kind, key: Value, value: Value) -> Op
    ensures { slice_get (Map ∷ Set ∷ []) result.table ≡ Some (home result.kind) }
{
    let arguments = kind.arguments();
    let table = if kind.on_map() { 0 } else { 1 };
    let key = if arguments < 1 { Nil } else { key };
    let value = if arguments < 2 { Nil } else { value };
    Op::new(kind, table, key, value)
}

// An operation by its kind, key and value, its reply, and the room that is left after it.
type Row = (Kind, Value, Value, Option<Value>, u32);

// Each operation goes as its row says.
fn go_so<R: Abort>(rt: &R, part: &mut Part, rows: &[Row]) {
    for row in rows {
        let (kind, key, value, reply, spare) = *row;
        let replied = part.apply(op_of(kind, key, value));
        assert!(rt; replied == reply && part.spare() == spare);
    }
}

const MAP_ROWS: [Row; 16] = [
    (Kind::Size, Nil, Nil, Some(Num(0)), 2),
    (Kind::Put, Num(1), Num(5), Some(Nil), 1),
    (Kind::Bump, Num(1), Num(-7), Some(Nil), 1),
    (Kind::Get, Num(1), Nil, Some(Num(-2)), 1),
    (Kind::Bump, Num(2), Nil, Some(Nil), 1),
    (Kind::Put, Num(1), Num(6), Some(Nil), 1),
    (Kind::Swap, Nil, Sym(3), Some(Nil), 0),
    (Kind::Put, Num(2), Num(7), None, 0),
    (Kind::Size, Nil, Nil, Some(Num(2)), 0),
    (Kind::Del, Num(1), Nil, Some(Nil), 1),
    (Kind::Del, Num(1), Nil, Some(Nil), 1),
    (Kind::Put, Num(2), Num(7), Some(Nil), 0),
    (Kind::Get, Num(1), Nil, Some(Nil), 0),
    (Kind::Get, Num(2), Nil, Some(Num(7)), 0),
    (Kind::Get, Nil, Nil, Some(Sym(3)), 0),
    (Kind::Bump, Num(1), Num(1), None, 0),
];

#[test]
fn map_shard_gives_places_back(rt: HostRuntime) {
    let mut part = Part::Bindings(MapShard::with_room(rt.alloc(), 2).expect(&rt, "memory"));
    go_so(&rt, &mut part, MAP_ROWS.as_slice());
}

const SET_ROWS: [Row; 10] = [
    (Kind::Add, Num(1), Nil, Some(Num(1)), 1),
    (Kind::Add, Num(1), Nil, Some(Num(0)), 1),
    (Kind::Mark, Sym(0), Nil, Some(Nil), 0),
    (Kind::Add, Num(2), Nil, None, 0),
    (Kind::Drop, Num(1), Nil, Some(Nil), 1),
    (Kind::Count, Nil, Nil, Some(Num(1)), 1),
    (Kind::Mark, Num(2), Nil, Some(Nil), 0),
    (Kind::Has, Num(1), Nil, Some(Num(0)), 0),
    (Kind::Has, Num(2), Nil, Some(Num(1)), 0),
    (Kind::Has, Sym(0), Nil, Some(Num(1)), 0),
];

#[test]
fn set_shard_gives_places_back(rt: HostRuntime) {
    let mut part = Part::Members(SetShard::with_room(rt.alloc(), 2).expect(&rt, "memory"));
    go_so(&rt, &mut part, SET_ROWS.as_slice());
}

// Its product with the multiplier of start slots is 1 modulo 2^64, so that the searches for its
// first multiples begin at slot 0, and those for the negative ones at the last slot.
pub(crate) const STEP: i64 = -1018231460777725123;

// A linear congruential generator, by whose upper bits operations are made.
#[derive(Drop)]
struct Made {
    state: u64,
}

impl Made {
    fn number(&mut self, below: u64) -> u64
        requires { 0 < below }
        ensures { result < below }
    {
        self.state = self
            .state
            .wrapping_mul(6364136223846793005)
            .wrapping_add(1442695040888963407);
        (self.state >> 33) % below
    }

    // Nil, a small number, one of eight symbols, or a number whose search begins at the first slot
    // or at the last.
    fn value(&mut self) -> Value {
        match self.number(40) {
            0 => Nil,
            n if n < 16 => Num(n as i64 - 8),
            n if n < 32 => Num((n as i64 - 24).wrapping_mul(STEP)),
            n => Sym(n as u32 - 32),
        }
    }

    fn op(&mut self) -> Op
        ensures { slice_get (Map ∷ Set ∷ []) result.table ≡ Some (home result.kind) }
    {
        let kind = Kind::ALL[self.number(11) as usize];
        let key = self.value();
        let value = self.value();
        op_of(kind, key, value)
    }
}

// A shard of the map or of the set, with room for all keys that are made.
fn new_part<R: Abort>(rt: &R, alloc: Global, on_map: bool) -> Part {
    if on_map {
        Part::Bindings(MapShard::with_room(alloc, 16).expect(rt, "memory"))
    } else {
        Part::Members(SetShard::with_room(alloc, 16).expect(rt, "memory"))
    }
}

// Four shards of the map, and four of the set.
fn parts<R: Abort>(rt: &R, alloc: Global) -> Vec<Part> {
    let mut parts = Vec::new(alloc);
    for i in 0..8 {
        parts.push(new_part(rt, alloc, i < 4)).expect(rt, "memory");
    }
    parts
}

// The sum of the replies of all shards of a table.
fn total(parts: &mut [Part], op: Op) -> Option<Value> {
    let mut sum = 0i64;
    for part in parts {
        match part.apply(op)? {
            Num(n) => sum = sum.wrapping_add(n),
            _ => return None,
        }
    }
    Some(Num(sum))
}

// The reply of the shard of the key, or of all shards of the table together.
fn reply_of(parts: &mut [Part], op: Op) -> Option<Value> {
    if parts.len() != 8 {
        return None;
    }
    let first = if op.kind.on_map() { 0 } else { 4 };
    if op.kind.arguments() == 0 {
        total(&mut parts[first..first + 4], op)
    } else {
        parts[first + shard_of(op.key(), 4) as usize].apply(op)
    }
}

// The shards and the plain tables reply alike to so many made operations.
fn reply_alike<R: Abort>(rt: &R, plain: &mut PlainTables, parts: &mut [Part], count: u32)
    requires { map kind_of plain.old ≡ Map ∷ Set ∷ [] }
{
    let mut made = Made { state: 1 };
    for i in 0..count {
        let op = made.op();
        let reply = plain.apply(op).expect(rt, "memory");
        assert!(rt; reply_of(parts, op) == Some(reply));
    }
}

#[test]
fn shards_reply_as_the_plain_tables(rt: HostRuntime) {
    let shape = [TableKind::Map, TableKind::Set];
    let mut plain = PlainTables::new(rt.alloc(), &shape).expect(&rt, "memory");
    let mut parts = parts(&rt, rt.alloc());
    reply_alike(&rt, &mut plain, parts.as_mut_slice(), 10000);
}

// What a shard of a map is read out as: at most three entries.
pub(crate) fn entries_of(shard: &MapShard) -> [Option<(Value, Value)>; 3] {
    let mut entries = [None; 3];
    for i in 0..3u32 {
        if i < shard.len() {
            entries[i as usize] = Some(shard.entry(i));
        }
    }
    entries
}

// The same of a set.
pub(crate) fn members_of(shard: &SetShard) -> [Option<Value>; 3] {
    let mut members = [None; 3];
    for i in 0..3u32 {
        if i < shard.len() {
            members[i as usize] = Some(shard.entry(i));
        }
    }
    members
}

// A map to which three keys of one start slot came and of which one went.
#[test]
fn entries_are_the_keys_that_are_left(rt: HostRuntime) {
    let mut map = MapShard::with_room(rt.alloc(), 3).expect(&rt, "memory");
    for key in [Num(0), Num(STEP), Nil] {
        on_map(&mut map, op_of(Kind::Put, key, Sym(7)));
    }
    on_map(&mut map, op_of(Kind::Del, Num(0), Nil));
    assert!(rt; entries_of(&map) == [Some((Nil, Sym(7))), Some((Num(STEP), Sym(7))), None]);
}

// The same of a set.
#[test]
fn members_are_the_keys_that_are_left(rt: HostRuntime) {
    let mut set = SetShard::with_room(rt.alloc(), 3).expect(&rt, "memory");
    for key in [Num(0), Num(STEP), Nil] {
        on_set(&mut set, op_of(Kind::Mark, key, Nil));
    }
    on_set(&mut set, op_of(Kind::Drop, Num(STEP), Nil));
    assert!(rt; members_of(&set) == [Some(Num(0)), Some(Nil), None]);
}

// How many of the operations of a kind on the keys below `count` are done and reply as they must,
// where key i is bound to symbol i.
fn replies(shard: &mut MapShard, kind: Kind, count: u32) -> u64 {
    let mut done = 0u64;
    for i in 0..count {
        let wanted = if kind == Kind::Get { Sym(i) } else { Nil };
        if on_map(shard, op_of(kind, Num(i64::from(i)), Sym(i))) == Some(wanted) {
            done = done.wrapping_add(1);
        }
    }
    done
}

// How many slots the searches for the keys below `count` look at.
fn looked_at(shard: &MapShard, count: u32) -> u64 {
    let mut sum = 0u64;
    for i in 0..count {
        sum = sum.wrapping_add(u64::from(shard.probes(Num(i64::from(i)))));
    }
    sum
}

// How many of the gets are done in twenty rounds.
fn got_in_rounds(shard: &mut MapShard, count: u32) -> u64 {
    let mut got = 0u64;
    for _ in 0..20 {
        got = got.wrapping_add(replies(shard, Kind::Get, count));
    }
    got
}

// A full shard: its puts, gets and deletions are done, its searches look at two slots or fewer, all
// keys together, and its room is given back. A search that reads the keys from the front takes
// minutes for the gets.
#[test]
fn a_full_shard_is_read_and_emptied(rt: HostRuntime) {
    let mut shard = MapShard::with_room(rt.alloc(), 200000).expect(&rt, "memory");
    assert!(rt; replies(&mut shard, Kind::Put, 200000) == 200000);
    assert!(rt; looked_at(&shard, 200000) <= 400000);
    assert!(rt; got_in_rounds(&mut shard, 200000) == 4000000);
    assert!(rt; replies(&mut shard, Kind::Del, 200000) == 200000);
    assert!(rt; shard.spare() == 200000);
}

// So many more keys come and go where twelve are, and at last all are gone.
fn come_and_go(shard: &mut MapShard, keys: u32) {
    for key in 0..keys {
        on_map(shard, op_of(Kind::Put, Num(i64::from(key) + 12), Nil));
        on_map(shard, op_of(Kind::Del, Num(i64::from(key)), Nil));
    }
    for key in 0..12 {
        on_map(shard, op_of(Kind::Del, Num(i64::from(keys) + key), Nil));
    }
}

// How many slots the searches for twelve keys look at before and after so many more keys came and
// went, and those for a hundred keys once all are gone.
fn of_a_shard_in_use(shard: &mut MapShard, keys: u32) -> [u64; 3] {
    replies(shard, Kind::Put, 12);
    let before = looked_at(shard, 12);
    come_and_go(shard, keys);
    let gone = looked_at(shard, 100);
    replies(shard, Kind::Put, 12);
    [before, looked_at(shard, 12), gone]
}

#[test]
fn deletions_leave_no_marks(rt: HostRuntime) {
    let mut shard = MapShard::with_room(rt.alloc(), 16).expect(&rt, "memory");
    let [before, after, gone] = of_a_shard_in_use(&mut shard, 5000000);
    assert!(rt; [after, gone] == [before, 100]);
}
