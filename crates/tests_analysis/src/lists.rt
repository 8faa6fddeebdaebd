// The lists of small handlers against their trails.

use crate::small_handlers::Made;
use crate::trails::{Shown, shown_at, trails_of};
use declaration_insertion::{Program, insert};
use handler_check::check;
use handler_syntax::parse;
use may_use_analysis::later_sets;
use session_values::{MAX_INPUT, Names};
use std::alloc::Global;
use std::test::Fail;
use symbolic_ops::Symbol;

/// The program of a source.
pub(crate) fn program_of(alloc: Global, source: &str) -> Result<Program, Fail> {
    if source.len() > MAX_INPUT {
        return Err(Fail::from("too long"));
    }
    let mut names = Names::new(alloc)?;
    let file = parse(alloc, source, &mut names)?;
    let checked = check(alloc, file.into_tree())?;
    let later = later_sets(alloc, &checked)?;
    Ok(insert(alloc, checked, later)?)
}

/// The list of a point of the first handler.
fn list_at(program: &Program, point: u32) -> &[Symbol] {
    let checked = program.checked();
    if checked.handlers() > 0 && point < checked.handler(0).points {
        program.declaration(0, point)
    } else {
        &[]
    }
}

/// Whether a list has these symbols and no others, where none of them stands twice.
fn is_list_of(list: &[Symbol], found: &[Shown]) -> bool {
    if list.len() != found.len() {
        return false;
    }
    for s in list {
        if !found.contains(&(s.kind, s.table, s.key(), s.value())) {
            return false;
        }
    }
    true
}

/// How many points a made handler has, and how many of them have the list that its trails show;
/// none of either where it has too many trails.
fn compared(alloc: Global, made: &mut Made) -> Result<(u32, u32), Fail> {
    let source = made.file(alloc)?;
    let program = program_of(alloc, source.as_str())?;
    if program.checked().handlers() == 0 {
        return Err(Fail::from("no handler"));
    }
    let handler = program.checked().handler(0);
    let Some(trails) = trails_of(alloc, handler.body.as_slice())? else {
        return Ok((0, 0));
    };
    let mut right: u32 = 0;
    for point in 0..handler.points {
        let found = shown_at(alloc, trails.as_slice(), point)?;
        if is_list_of(list_at(&program, point), found.as_slice()) {
            right = right.saturating_add(1);
        }
    }
    Ok((handler.points, right))
}

/// The points of many made handlers, and how many of them are right.
fn compared_all(alloc: Global, handlers: u32) -> Result<(u32, u32), Fail> {
    let mut made = Made { state: 1, loops: 0 };
    let (mut points, mut right): (u32, u32) = (0, 0);
    for _ in 0..handlers {
        let (more, more_right) = compared(alloc, &mut made)?;
        points = points.saturating_add(more);
        right = right.saturating_add(more_right);
    }
    Ok((points, right))
}

#[test]
fn lists_are_those_of_trails(rt: HostRuntime) -> Result<(), Fail> {
    let (points, right) = compared_all(rt.alloc(), 60)?;
    assert_eq!(rt; (points, right), (289, 289));
    Ok(())
}
