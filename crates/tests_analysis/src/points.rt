// What a program knows of its points.

use crate::lists::program_of;
use declaration_insertion::Program;
use std::alloc::Global;
use std::test::Fail;

/// A handler whose branches change nothing of what is declared; its first lists name two marks.
const BRANCHES: &str = "map m; set s; handler f(k, d) { \
    let v = get(m, k); mark(s, k); if v == nil { v = 1; } else { v = 2; } put(m, k, 7); mark(s, d); }";

/// Of each point of the first handler, one at which the same is declared, how many kinds are, and
/// whether each of them is named once.
fn points_of(alloc: Global, program: &Program) -> Result<Vec<(u32, u32, bool)>, Fail> {
    let mut found = Vec::new(alloc);
    let checked = program.checked();
    if checked.handlers() == 0 {
        return Ok(found);
    }
    for point in 0..checked.handler(0).points {
        let alike = program.alike(0, point);
        let kinds = program.kinds(0, point);
        found.push((alike, kinds, program.names_each_once(0, point)))?;
    }
    Ok(found)
}

/// Whether the points of the handler are these.
fn has_points(alloc: Global, want: &[(u32, u32, bool)]) -> Result<bool, Fail> {
    let program = program_of(alloc, BRANCHES)?;
    let found = points_of(alloc, &program)?;
    Ok(found.as_slice() == want)
}

#[test]
fn points_of_branches_are_alike(rt: HostRuntime) -> Result<(), Fail> {
    let want = [
        (0, 3, false),
        (1, 2, false),
        (2, 2, true),
        (2, 2, true),
        (2, 2, true),
        (5, 1, true),
        (6, 0, true),
    ];
    assert_eq!(rt; has_points(rt.alloc(), &want)?, true);
    Ok(())
}
