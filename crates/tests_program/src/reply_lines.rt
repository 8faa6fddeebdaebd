// The longest line of a reply. Other lines are stored runs, in `checks/`.

use reply_sheet::{LineBuf, line};
use session_values::{Names, Reply, Value};
use std::alloc::Global;
use std::test::Fail;

const SYMBOL: &str = "abcdefghijklmnopqrstuvwxyzabcdefghijklmnopqrstuvwxyzabcdefghijkl";

const LINE: &str = "19999 \
    abcdefghijklmnopqrstuvwxyzabcdefghijklmnopqrstuvwxyzabcdefghijkl \
    abcdefghijklmnopqrstuvwxyzabcdefghijklmnopqrstuvwxyzabcdefghijkl \
    abcdefghijklmnopqrstuvwxyzabcdefghijklmnopqrstuvwxyzabcdefghijkl \
    abcdefghijklmnopqrstuvwxyzabcdefghijklmnopqrstuvwxyzabcdefghijkl\n";

/// Whether the longest line is printed, and how long it is.
fn prints_the_longest(alloc: Global) -> Result<(bool, usize), Fail> {
    let mut names = Names::with_seed(alloc, 0);
    let a = Value::Sym(names.place(SYMBOL)?);
    let reply = Reply::new(4, a, a, a, a);
    let mut out = LineBuf::new();
    line(19999, &reply, &names, &mut out);
    Ok((out.bytes() == LINE.as_bytes(), out.bytes().len()))
}

#[test]
fn the_longest_line_fits(rt: HostRuntime) -> Result<(), Fail> {
    let printed = prints_the_longest(rt.alloc())?;
    assert_eq!(rt; printed, (true, 266));
    Ok(())
}
