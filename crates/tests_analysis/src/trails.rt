// The trails of a handler, one by one.

use check_meaning::{CheckedAtom, CheckedCall, CheckedExpr, CheckedStmt};
use session_values::Kind;
use std::alloc::Global;
use std::test::Fail;
use symbolic_ops::Arg;

/// An operation's kind, its table and its two arguments.
pub(crate) type Shown = (Kind, u32, Arg, Arg);

/// A step of a trail: a point is passed, an operation is done, or a variable is stored, which
/// before was this.
#[derive(Clone, Copy, PartialEq, Eq)]
pub(crate) enum Step {
    Point(u32),
    Call(Shown),
    Store { x: u32, before: Arg },
}

#[derive(Drop)]
pub(crate) struct Trail {
    pub(crate) steps: Vec<Step>,
    is_ended: bool,
}

/// How many turns of a loop there are at most.
const TURNS: u32 = 4;

/// How many trails are looked at.
const MOST: usize = 200;

fn arg_of(atom: CheckedAtom) -> Arg {
    match atom {
        CheckedAtom::Lit(v) => Arg::Known(v),
        CheckedAtom::Var(x) => Arg::Var(x),
    }
}

fn shown_of(call: &CheckedCall) -> Shown {
    (call.kind, call.table, arg_of(call.key), arg_of(call.value))
}

fn stored(right: &CheckedExpr) -> Arg {
    match right {
        CheckedExpr::Leaf(atom) => arg_of(*atom),
        CheckedExpr::Binary { .. } => Arg::Any,
    }
}

/// Appends a step to each trail that hasn't ended.
fn add(trails: &mut [Trail], step: Step) -> Result<(), Fail> {
    for trail in trails {
        if !trail.is_ended {
            trail.steps.push(step)?;
        }
    }
    Ok(())
}

fn end(trails: &mut [Trail]) {
    for trail in trails {
        trail.is_ended = true;
    }
}

/// Copies of the trails that haven't ended.
fn open(alloc: Global, trails: &[Trail]) -> Result<Vec<Trail>, Fail> {
    let mut copies = Vec::new(alloc);
    for trail in trails {
        if !trail.is_ended {
            let steps = Vec::from_slice(alloc, trail.steps.as_slice())?;
            let is_ended = false;
            copies.push(Trail { steps, is_ended })?;
        }
    }
    Ok(copies)
}

/// Goes through a block on each trail.
#[cycle(going)]
fn go_through(alloc: Global, block: &[CheckedStmt], trails: &mut Vec<Trail>) -> Result<(), Fail> {
    for stmt in block {
        if trails.len() > MOST {
            return Ok(());
        }
        step_through(alloc, stmt, trails)?;
    }
    Ok(())
}

#[cycle(going)]
fn step_through(alloc: Global, stmt: &CheckedStmt, trails: &mut Vec<Trail>) -> Result<(), Fail> {
    match stmt {
        CheckedStmt::Store { var, right } => {
            let before = stored(right);
            add(trails.as_mut_slice(), Step::Store { x: *var, before })
        }
        CheckedStmt::Perform {
            point,
            var,
            call,
            ..
        } => {
            add(trails.as_mut_slice(), Step::Call(shown_of(call)))?;
            if let Some(x) = var {
                let before = Arg::Any;
                add(trails.as_mut_slice(), Step::Store { x: *x, before })?;
            }
            add(trails.as_mut_slice(), Step::Point(*point))
        }
        CheckedStmt::Choose {
            yes_point,
            no_point,
            yes,
            no,
            ..
        } => {
            let mut others = open(alloc, trails.as_slice())?;
            add(others.as_mut_slice(), Step::Point(*no_point))?;
            go_through(alloc, no.as_slice(), &mut others)?;
            add(trails.as_mut_slice(), Step::Point(*yes_point))?;
            go_through(alloc, yes.as_slice(), trails)?;
            trails.append(&mut others)?;
            Ok(())
        }
        CheckedStmt::Repeat {
            point,
            var,
            body,
            ..
        } => {
            let mut turned = open(alloc, trails.as_slice())?;
            for _ in 0..TURNS {
                let (x, before) = (*var, Arg::Any);
                add(turned.as_mut_slice(), Step::Store { x, before })?;
                go_through(alloc, body.as_slice(), &mut turned)?;
                let next = open(alloc, turned.as_slice())?;
                trails.append(&mut turned)?;
                turned = next;
            }
            add(trails.as_mut_slice(), Step::Point(*point))
        }
        CheckedStmt::Answer { .. } => {
            end(trails.as_mut_slice());
            Ok(())
        }
    }
}

/// The trails of a handler from its entry, each loop with a few turns at most; none where there are
/// too many.
pub(crate) fn trails_of(alloc: Global, body: &[CheckedStmt]) -> Result<Option<Vec<Trail>>, Fail> {
    let mut steps = Vec::new(alloc);
    steps.push(Step::Point(0))?;
    let mut trails = Vec::new(alloc);
    trails.push(Trail {
        steps,
        is_ended: false,
    })?;
    go_through(alloc, body, &mut trails)?;
    if trails.len() > MOST {
        return Ok(None);
    }
    Ok(Some(trails))
}

fn arg_before(x: u32, before: Arg, a: Arg) -> Arg {
    if a == Arg::Var(x) { before } else { a }
}

/// An operation carried back over these steps, the last one first.
fn carried(steps: &[Step], call: Shown) -> Shown {
    let mut shown = call;
    for i in (0..steps.len()).rev() {
        if let Step::Store { x, before } = steps[i] {
            let (kind, table, key, value) = shown;
            shown = (
                kind,
                table,
                arg_before(x, before, key),
                arg_before(x, before, value),
            );
        }
    }
    shown
}

/// Takes the operations of a trail behind a place of it in, carried back to that place.
fn add_from(steps: &[Step], found: &mut Vec<Shown>) -> Result<(), Fail> {
    for j in 0..steps.len() {
        if let Step::Call(call) = steps[j] {
            let shown = carried(&steps[..j], call);
            if !found.contains(&shown) {
                found.push(shown)?;
            }
        }
    }
    Ok(())
}

/// The operations behind a point on all of these trails, each once.
pub(crate) fn shown_at(alloc: Global, trails: &[Trail], point: u32) -> Result<Vec<Shown>, Fail> {
    let mut found = Vec::new(alloc);
    for trail in trails {
        let steps = trail.steps.as_slice();
        for i in 0..steps.len() {
            if steps[i] == Step::Point(point) {
                add_from(&steps[i..], &mut found)?;
            }
        }
    }
    Ok(found)
}
