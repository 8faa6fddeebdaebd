// The eleven operations, each by its reply and by what the next ones see.

ghost use Rattle.std.specs.Prelude.{◌≡◌, [], ◌∷◌, Some, map, slice_get};
ghost use Rattle.session_values.specs.declared.kind.TableKind.TheVariants.{Map, Set};
ghost use Rattle.session_values.specs.Op.{IsOp};
ghost use Rattle.session_values.specs.Kinds.{home};
ghost use Rattle.session_values.specs.Tables.{kind_of};

use plain_tables::PlainTables;
use session_values::Value::{Nil, Num, Sym};
use session_values::{Kind, Op, TableKind, Value};
use std::alloc::Global;
use std::process::Abort;

// An operation that fits a map, a set, a map and a set, and its reply.
#[derive(Clone, Copy)]
struct Case {
    op: Op,
    reply: Value,
    ghost fits: { slice_get (Map ∷ Set ∷ Map ∷ Set ∷ []) op.table ≡ Some (home op.kind) },
}

fn case_of(kind: Kind, table: u32, key: Value, value: Value, reply: Value) -> Case
    requires op { IsOp kind key value }
    requires fits { slice_get (Map ∷ Set ∷ Map ∷ Set ∷ []) table ≡ Some (home kind) }
{
    let op = Op::new(kind, table, key, value);
    Case { op, reply }
}

// Each case has its reply, done in order on these tables.
fn have_replies<R: Abort>(rt: &R, tables: &mut PlainTables, cases: &[Case])
    requires { map kind_of tables.old ≡ Map ∷ Set ∷ Map ∷ Set ∷ [] }
{
    for case in cases {
        let reply = tables.apply(case.op).expect(rt, "memory");
        assert!(rt; reply == case.reply);
    }
}

// Each case has its reply, done in order on two maps and two sets.
fn reply_so<R: Abort>(rt: &R, alloc: Global, cases: &[Case]) {
    let shape = [
        TableKind::Map,
        TableKind::Set,
        TableKind::Map,
        TableKind::Set,
    ];
    let mut tables = PlainTables::new(alloc, &shape).expect(rt, "memory");
    have_replies(rt, &mut tables, cases);
}

#[test]
fn maps_bind_and_unbind(rt: HostRuntime) {
    let cases = [
        case_of(Kind::Size, 0, Nil, Nil, Num(0)),
        case_of(Kind::Get, 0, Num(1), Nil, Nil),
        case_of(Kind::Put, 0, Num(1), Num(5), Nil),
        case_of(Kind::Get, 0, Num(1), Nil, Num(5)),
        case_of(Kind::Swap, 0, Num(1), Sym(3), Num(5)),
        case_of(Kind::Swap, 0, Num(2), Num(7), Nil),
        case_of(Kind::Size, 0, Nil, Nil, Num(2)),
        case_of(Kind::Del, 0, Num(1), Nil, Nil),
        case_of(Kind::Get, 0, Num(1), Nil, Nil),
        case_of(Kind::Size, 0, Nil, Nil, Num(1)),
        // A key that is bound to nil is bound.
        case_of(Kind::Put, 0, Nil, Nil, Nil),
        case_of(Kind::Get, 0, Nil, Nil, Nil),
        case_of(Kind::Size, 0, Nil, Nil, Num(2)),
        // The other map has bindings of its own.
        case_of(Kind::Get, 2, Num(2), Nil, Nil),
        case_of(Kind::Put, 2, Num(2), Num(6), Nil),
        case_of(Kind::Get, 0, Num(2), Nil, Num(7)),
    ];
    reply_so(&rt, rt.alloc(), &cases);
}

#[test]
fn bumps_add_up(rt: HostRuntime) {
    let cases = [
        case_of(Kind::Bump, 0, Num(1), Num(2), Nil),
        case_of(Kind::Bump, 0, Num(1), Num(3), Nil),
        case_of(Kind::Get, 0, Num(1), Nil, Num(5)),
        // By no number nothing changes, also where the key is unbound.
        case_of(Kind::Bump, 0, Num(1), Nil, Nil),
        case_of(Kind::Bump, 0, Num(2), Sym(3), Nil),
        case_of(Kind::Get, 0, Num(1), Nil, Num(5)),
        case_of(Kind::Size, 0, Nil, Nil, Num(1)),
        // Sums stay in the range of 64 bits.
        case_of(Kind::Bump, 0, Num(1), Num(9223372036854775807), Nil),
        case_of(Kind::Get, 0, Num(1), Nil, Num(-9223372036854775804)),
        // What is bound to no number stays.
        case_of(Kind::Put, 0, Num(3), Nil, Nil),
        case_of(Kind::Bump, 0, Num(3), Num(7), Nil),
        case_of(Kind::Get, 0, Num(3), Nil, Nil),
        case_of(Kind::Put, 0, Num(4), Sym(6), Nil),
        case_of(Kind::Bump, 0, Num(4), Num(7), Nil),
        case_of(Kind::Get, 0, Num(4), Nil, Sym(6)),
    ];
    reply_so(&rt, rt.alloc(), &cases);
}

#[test]
fn sets_take_in_and_drop(rt: HostRuntime) {
    let cases = [
        case_of(Kind::Add, 1, Num(1), Nil, Num(1)),
        case_of(Kind::Add, 1, Num(1), Nil, Num(0)),
        case_of(Kind::Count, 1, Nil, Nil, Num(1)),
        case_of(Kind::Has, 1, Nil, Nil, Num(0)),
        case_of(Kind::Mark, 1, Nil, Nil, Nil),
        case_of(Kind::Has, 1, Nil, Nil, Num(1)),
        case_of(Kind::Drop, 1, Num(1), Nil, Nil),
        case_of(Kind::Has, 1, Num(1), Nil, Num(0)),
        case_of(Kind::Count, 1, Nil, Nil, Num(1)),
        // The other set has members of its own.
        case_of(Kind::Has, 3, Nil, Nil, Num(0)),
        case_of(Kind::Count, 3, Nil, Nil, Num(0)),
    ];
    reply_so(&rt, rt.alloc(), &cases);
}
