// Replies that are kept in any order come out in the order of tickets.

ghost use Rattle.std.specs.Prelude.{◌≡◌, ◌+◌, length};

use reply_sheet::Pending;
use session_values::{Reply, Value};
use std::process::Abort;

fn reply(n: i64) -> Reply {
    Reply::new(1, Value::Num(n), Value::Nil, Value::Nil, Value::Nil)
}

/// The number that the next reply answers, if it is the one of this ticket.
fn next_number(pending: &mut Pending, ticket: u32) -> Option<Value>
    ensures { pending.new.next + length pending.new.waiting
        ≡ pending.old.next + length pending.old.waiting }
{
    let (owner, reply) = pending.take_next()?;
    if owner == ticket {
        Some(reply.a())
    } else {
        None
    }
}

#[test]
fn replies_wait_for_their_turn(rt: HostRuntime) {
    let mut pending = Pending::with_room(rt.alloc(), 3).expect(&rt, "memory");
    assert!(rt; pending.take_next().is_none());
    pending.keep(1, reply(11));
    assert!(rt; pending.take_next().is_none());
    pending.keep(0, reply(10));
    pending.keep(0, reply(20));
    assert!(rt; next_number(&mut pending, 0) == Some(Value::Num(10)));
    assert!(rt; next_number(&mut pending, 1) == Some(Value::Num(11)));
    assert!(rt; pending.take_next().is_none());
    pending.keep(0, reply(30));
    pending.keep(2, reply(12));
    assert!(rt; next_number(&mut pending, 2) == Some(Value::Num(12)));
    assert!(rt; pending.take_next().is_none());
}
