// Shards of either kind, and whole tables.

ghost use Rattle.std.specs.Prelude.{◌≡◌, [], ◌∷◌, IfOk, map};
ghost use Rattle.session_values.specs.declared.kind.TableKind.TheVariants.{Map, Set};
ghost use Rattle.session_values.specs.Tables.{kind_of};

use crate::shards::op_of;
use session_values::Value::{Nil, Num};
use session_values::{Kind, NoMemory, TableKind, Value};
use shard_tables::{Part, TellsOpening, WholeTables};
use std::alloc::Global;

// A map in which 1 is bound to 7, and a set of 2, each with room for one key more.
#[derive(Drop)]
struct Told;

impl TellsOpening for Told {
    ghost use Rattle.std.specs.Prelude.{[], ◌∷◌, pos};
    ghost use Rattle.session_values.specs.declared.kind.TableKind.TheVariants.{Map, Set};
    ghost use Rattle.session_values.specs.declared.value.Value.TheVariants as value;

    ghost shape = { λ _. Map ∷ Set ∷ [] };

    ghost opened = { λ _. ((value.Num (pos 1), value.Num (pos 7)) ∷ [])
        ∷ ((value.Num (pos 2), value.Nil) ∷ []) ∷ [] };

    fn room(&self, _table: u32) -> u32 {
        1
    }

    fn opening_len(&self, _table: u32) -> u32 {
        1
    }

    fn opening_entry(&self, table: u32, _i: u32) -> (Value, Value) {
        if table == 0 {
            (Num(1), Num(7))
        } else {
            (Num(2), Nil)
        }
    }
}

fn opened(alloc: Global) -> Result<WholeTables, NoMemory>
    ensures { IfOk result (λ ts. map kind_of ts ≡ Map ∷ Set ∷ []) }
{
    WholeTables::opened(alloc, &Told, &[TableKind::Map, TableKind::Set])
}

// The reply of an operation; None where a full table wants memory for it.
fn reply_of(tables: &mut WholeTables, kind: Kind, key: Value, value: Value) -> Option<Value>
    requires { map kind_of tables.old ≡ Map ∷ Set ∷ [] }
    ensures { map kind_of tables.new ≡ Map ∷ Set ∷ [] }
{
    tables.apply(op_of(kind, key, value)).ok()
}

#[test]
fn whole_tables_open_and_reply(rt: HostRuntime) {
    let mut tables = opened(rt.alloc()).expect(&rt, "memory");
    let replies = [
        reply_of(&mut tables, Kind::Swap, Num(1), Num(8)),
        reply_of(&mut tables, Kind::Bump, Num(3), Num(4)),
        reply_of(&mut tables, Kind::Put, Num(5), Nil),
        reply_of(&mut tables, Kind::Get, Num(3), Nil),
        reply_of(&mut tables, Kind::Has, Num(2), Nil),
        reply_of(&mut tables, Kind::Count, Nil, Nil),
    ];
    let first = [Some(Num(7)), Some(Nil), None];
    let later = [Some(Num(4)), Some(Num(1)), Some(Num(1))];
    assert!(rt; &replies[..3] == &first[..]);
    assert!(rt; &replies[3..] == &later[..]);
    let mut lengths = [0; 2];
    for (i, part) in tables.parts().iter().enumerate() {
        if i < 2 {
            lengths[i] = part.len();
        }
    }
    assert!(rt; lengths == [2, 1]);
}

#[test]
fn a_full_part_wants_memory_until_it_grows(rt: HostRuntime) {
    let alloc = rt.alloc();
    let mut part = Part::with_room(alloc, TableKind::Set, 1).expect(&rt, "memory");
    assert!(rt; part.enter(Num(1), Nil).is_ok());
    assert!(rt; part.enter(Num(2), Nil).is_err());
    let mut wide = part.grown(alloc, 3).expect(&rt, "memory");
    let room = [
        part.has_room(Kind::Has),
        part.has_room(Kind::Add),
        wide.has_room(Kind::Add),
    ];
    assert!(rt; room == [true, false, true]);
    assert!(rt; wide.enter(Num(2), Nil).is_ok());
    assert!(rt; [part.spare(), wide.spare(), wide.len()] == [0, 1, 2]);
}

#[test]
fn whole_tables_take_parts(rt: HostRuntime) {
    let alloc = rt.alloc();
    let mut tables = WholeTables::new(alloc);
    let mut part = Part::with_seed(alloc, TableKind::Map, 2, 9).expect(&rt, "memory");
    assert!(rt; part.enter(Num(1), Num(7)).is_ok());
    tables.push(part).expect(&rt, "memory");
    for part in tables.parts() {
        if part.len() > 0 {
            assert!(rt; part.entry(0) == (Num(1), Num(7)));
        }
    }
    assert!(rt; tables.parts().len() == 1);
}
