// Thirty-two callers bump one key, and what the closed hall's table has is the sum.

ghost use Rattle.std.specs.Prelude.{◌≡◌, ◌∷◌, [], IfOk};
ghost use Rattle.session_values.specs.declared.kind.TableKind.TheVariants.{Map};
ghost use Rattle.session_values.specs.Tables.{Fits};

use crate::four_callers::served_by;
use repeated_calls::RepeatedCalls;
use session_hall::Closed;
use session_values::{Kind, NoMemory, Op, TableKind, Value};
use shard_tables::Part;
use std::alloc::Global;
use std::process::Abort;

const TICKETS: u32 = 20000;

/// What a ticket calls: it adds its number to the one key.
pub(crate) fn op_of(ticket: u32) -> Op
    ensures { Fits (Map ∷ []) result }
{
    Op::new(Kind::Bump, 0, Value::Num(0), Value::Num(i64::from(ticket)))
}

fn tickets(alloc: Global) -> Result<RepeatedCalls, NoMemory>
    ensures { IfOk result (λ l. l.list.shape ≡ Map ∷ []) }
{
    let mut list = RepeatedCalls::with_room(alloc, &[TableKind::Map], TICKETS, 1)?;
    for ticket in 0..TICKETS {
        list.add(op_of(ticket));
    }
    Ok(list)
}

/// The one key and its value, in the first shard of a closed hall.
pub(crate) fn first_entry<R: Abort>(rt: &R, closed: &Closed) -> (Value, Value) {
    if closed.parts().len() == 0 {
        rt.panic("no shard")
    }
    match closed.parts().get(0) {
        Part::Bindings(shard) => {
            if shard.len() != 1 {
                rt.panic("not one key")
            }
            shard.entry(0)
        }
        Part::Members(_) => rt.panic("a set"),
    }
}

#[test]
fn bumps_of_one_key_add_up(rt: HostRuntime) {
    let list = tickets(rt.alloc()).expect(&rt, "memory");
    let closed = served_by(&rt, rt.alloc(), &list, &[TableKind::Map], 8, 32);
    assert!(rt; first_entry(&rt, &closed) == (Value::Num(0), Value::Num(199990000)));
}
