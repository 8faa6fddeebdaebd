// What the checker tells of files that break no rule. Refusals are stored runs, in `checks/`.

use handler_check::{Checked, check};
use handler_syntax::parse;
use session_values::{MAX_INPUT, Names};
use std::alloc::Global;
use std::test::Fail;

/// A source, checked.
fn checked_of(alloc: Global, source: &str) -> Result<Checked, Fail> {
    if source.len() > MAX_INPUT {
        return Err("too long")?;
    }
    let mut names = Names::with_seed(alloc, 0);
    let file = parse(alloc, source, &mut names)?;
    Ok(check(alloc, file.into_tree())?)
}

/// The bounds of the first handler, on its calls and its work.
fn first_bounds(checked: &Checked) -> Option<(u32, u32)> {
    if checked.handlers() == 0 {
        return None;
    }
    Some((checked.calls_bound(0), checked.work_bound(0)))
}

/// The bounds of the first handler of a source.
fn bounds(alloc: Global, source: &str) -> Result<Option<(u32, u32)>, Fail> {
    let checked = checked_of(alloc, source)?;
    Ok(first_bounds(&checked))
}

#[test]
fn bounds_of_handlers(rt: HostRuntime) -> Result<(), Fail> {
    for (source, want) in [
        (
            "map m; handler f() { repeat 1000 as i { repeat 10 as j { get(m, j); } } }",
            (10_000, 22_001),
        ),
        (
            "handler spin() { repeat 1000 as i { repeat 48 as j { let x = j; } } }",
            (0, 98_001),
        ),
        (
            "handler spin() { repeat 1000 as i { repeat 48 as j { let x = j; } } repeat 999 as k { } repeat 998 as l { } }",
            (0, 100_000),
        ),
        (
            "map m; handler f(a) { if a == 1 { put(m, a, 1); del(m, a); } else { get(m, a); } reply a; get(m, a); }",
            (3, 5),
        ),
    ] {
        let found = bounds(rt.alloc(), source)?;
        assert_eq!(rt; found, Some(want), "{source}");
    }
    Ok(())
}

/// What is known of the handler whose name is the second of the list: its number, its parameters,
/// its points, its adding calls on the first table, its variables and the name of the first one.
fn second_known(checked: &Checked) -> Option<[u32; 6]> {
    let h = checked.find(1)?;
    if h >= checked.handlers() {
        return None;
    }
    let adds = checked.adds_bound(h, 0);
    let handler = checked.handler(h);
    let count = handler.variables.len();
    if count == 0 {
        return None;
    }
    let first = *handler.variables.get(0);
    Some([h, handler.params, handler.points, adds, count, first])
}

/// What is known of such a handler of a source.
fn known(alloc: Global, source: &str) -> Result<Option<[u32; 6]>, Fail> {
    let checked = checked_of(alloc, source)?;
    Ok(second_known(&checked))
}

#[test]
fn tells_of_handlers(rt: HostRuntime) -> Result<(), Fail> {
    for (source, want) in [
        ("map m; handler m() { }", None),
        (
            "map m; handler f(a) { if a == 1 { put(m, a, 1); del(m, a); } else { get(m, a); } } handler m() { }",
            Some([0, 1, 6, 1, 1, 2]),
        ),
        (
            "set s; handler f(a, b) { repeat 3 as i { let x = add(s, i); mark(s, x); } let y = 1; }",
            Some([0, 2, 4, 6, 5, 2]),
        ),
    ] {
        let found = known(rt.alloc(), source)?;
        assert_eq!(rt; found, want, "{source}");
    }
    Ok(())
}
