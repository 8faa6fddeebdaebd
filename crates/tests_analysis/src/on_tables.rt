// A handler run on plain tables.

ghost use Rattle.std.specs.Prelude.{◌≡◌, map};
ghost use Rattle.handler_check.specs.Resolved.{shape_of as shape_spec};
ghost use Rattle.session_values.specs.Tables.{kind_of};

use crate::sessions::{reply_of, session};
use handler_check::Checked;
use handler_machine::{TablesAnswerer, run_handler};
use plain_tables::PlainTables;
use session_journal::Scratch;
use session_values::{Reply, Value};
use std::process::Abort;

/// Runs the first handler with two arguments.
fn run_first<R: Abort>(
    rt: &R,
    checked: &Checked,
    args: [Value; 2],
    scratch: &mut Scratch,
    tables: &mut TablesAnswerer,
) -> Reply
    requires shape { map kind_of tables.old.tables ≡ shape_spec checked.now }
    ensures shape { map kind_of tables.new.tables ≡ shape_spec checked.now }
{
    if checked.handlers() == 0 || checked.handler(0).params != 2 {
        rt.panic("another handler")
    }
    run_handler(checked, 0, &args, scratch, tables).expect(rt, "memory")
}

/// Two operations one after another: the second one sees what the first one left.
#[test]
fn a_handler_on_plain_tables(rt: HostRuntime) {
    let loaded = session(&rt, rt.alloc());
    let checked = loaded.program.checked();
    let shape = checked.shape(rt.alloc()).expect(&rt, "memory");
    let tables = PlainTables::new(rt.alloc(), shape.as_slice()).expect(&rt, "memory");
    let mut tables = TablesAnswerer { tables };
    let mut scratch = Scratch::new(rt.alloc()).expect(&rt, "memory");
    let (key, ten) = (Value::Num(1), Value::Num(10));
    let first = run_first(&rt, checked, [key, ten], &mut scratch, &mut tables);
    let second = run_first(
        &rt,
        checked,
        [key, Value::Num(20)],
        &mut scratch,
        &mut tables,
    );
    assert!(rt; first == reply_of(Value::Nil, 1) && second == reply_of(ten, 1));
}
