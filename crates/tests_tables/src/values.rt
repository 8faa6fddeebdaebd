// Names, the error of running out of memory, operations and replies.

use session_values::{Kind, Names, NoMemory, Op, Reply, Value};
use std::process::Abort;

// The text gets this place, where it is found again, and there are so many names then.
fn is_placed<R: Abort>(rt: &R, names: &mut Names, text: &str, wanted: u32, count: u32) {
    assert!(rt; names.len() < 10);
    let place = names.place(text).expect(rt, "memory");
    let found = names.find(text).unwrap_or(10);
    assert!(rt; [place, found, names.len()] == [wanted, wanted, count]);
}

// What becomes of four texts, the third of which is known.
fn four_are_placed<R: Abort>(rt: &R, names: &mut Names) {
    is_placed(rt, names, "m", 0, 1);
    is_placed(rt, names, "set5", 1, 2);
    is_placed(rt, names, "m", 0, 2);
    is_placed(rt, names, "k", 2, 3);
}

#[test]
fn names_have_places(rt: HostRuntime) {
    let mut names = Names::new(rt.alloc()).expect(&rt, "memory");
    four_are_placed(&rt, &mut names);
}

#[test]
fn seeded_names_have_places(rt: HostRuntime) {
    let mut names = Names::with_seed(rt.alloc(), 7);
    four_are_placed(&rt, &mut names);
}

#[test]
fn want_of_memory_is_printed(rt: HostRuntime) {
    let text = format!(in rt.alloc(); "{NoMemory}").expect(&rt, "memory");
    assert!(rt; text.as_str() == "no memory");
}

fn put(table: u32, value: i64) -> Op {
    Op::new(Kind::Put, table, Value::Nil, Value::Num(value))
}

fn one_value(n: i64) -> Reply {
    Reply::new(1, Value::Num(n), Value::Nil, Value::Nil, Value::Nil)
}

#[test]
fn operations_and_replies_are_compared(rt: HostRuntime) {
    assert!(rt; put(1, 5) == put(1, 5) && put(1, 5) != put(0, 5));
    assert!(rt; one_value(5) == one_value(5) && one_value(5) != one_value(6));
}
