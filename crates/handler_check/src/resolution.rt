// Resolution: the names of tables and variables become numbers, and points are counted.

mod expr;

ghost use Rattle.std.specs.Prelude.{◌≡◌, ◌≢◌, ◌+◌, ◌++◌, ◌∷◌, [], IfOk, MatchResult, OnOk};
ghost use Rattle.std.specs.List.{AllZip};
ghost use Rattle.handler_check.specs.Resolved as spec;
ghost use Rattle.check_meaning.specs.Code.{Code, Ask, block_code, stmt_code};
ghost use Rattle.handler_check.specs.declared.refusal.CheckRefusal.TheVariants as refusal;
ghost use Rattle.handler_check.specs.FirstFault.{IsFirstFault, KeepsRules};
ghost use Rattle.syntax_trees.specs.Rising.{PlacesRise};
ghost use Rattle.syntax_trees.specs.Marks.{handler_marks};
ghost use Rattle.handler_check.specs.Scan.{Found, declared_fault, file_fault, of_handlers, of_variables, or_else, scan, scan_handlers};
ghost use Rattle.syntax_trees.specs.Source.{Source, block_source, stmt_source};

pub(crate) use self::expr::listed;
use self::expr::{number_in, resolve_call, resolve_cond, resolve_expr, resolve_values};
use crate::CheckRefusal;
use crate::faults::{declare, find_in_handler, find_in_tables};
use crate::rule_laws::walk_finds_first;
use check_meaning::{CheckedBlock, CheckedHandler, CheckedStmt};
use session_values::{Listed, MAX_HANDLERS, NoMemory};
use std::alloc::Global;
use syntax_trees::{Call, File, Handler, Right, Stmt, TableDecl};

/// Takes the number of the next point.
fn next_point(points: &mut u32) -> Result<u32, NoMemory>
    ensures at { IfOk result (λ at. at ≡ points.old) }
    ensures points { OnOk result (points.new ≡ points.old + 1) }
{
    let at = *points;
    match at.checked_add(1) {
        Some(more) => {
            *points = more;
            Ok(at)
        }
        None => Err(NoMemory),
    }
}

fn resolve_perform(
    tables: &Listed<u32>,
    variables: &Listed<u32>,
    var: Option<u32>,
    call: &Call,
    points: &mut u32,
) -> Result<CheckedStmt, NoMemory>
    ensures code { IfOk result (λ found. (rest : Code) → stmt_code found rest
        ≡ Ask call.now.at points.old var (spec.call_of tables.now variables.now call.now) rest) }
    ensures points { OnOk result (points.new ≡ points.old + 1) }
{
    let point = next_point(points)?;
    Ok(CheckedStmt::Perform {
        at: call.at,
        point,
        var,
        call: resolve_call(tables, variables, call),
    })
}

/// A variable is given its right side.
fn resolve_store(
    alloc: Global,
    tables: &Listed<u32>,
    variables: &Listed<u32>,
    name: u32,
    right: &Right,
    points: &mut u32,
) -> Result<CheckedStmt, NoMemory>
    ensures code { IfOk result (λ found. (rest : Code) → stmt_code found rest
        ≡ spec.stored tables.now variables.now name right.now points.old rest) }
    ensures points { OnOk result (points.new ≡ points.old + spec.right_points right.now) }
{
    let var = number_in(variables, name);
    match right {
        Right::Plain(e) => {
            let right = resolve_expr(alloc, variables, e)?;
            Ok(CheckedStmt::Store { var, right })
        }
        Right::Result(call) => resolve_perform(tables, variables, Some(var), call, points),
    }
}

/// A number of turns that a rule allows.
fn counted(turns: u64) -> Result<u32, NoMemory>
    ensures { IfOk result (λ count. count ≡ turns) }
{
    // Where it is larger the file has been refused.
    if turns > u32::MAX as u64 {
        return Err(NoMemory);
    }
    Ok(turns as u32)
}

#[cycle(resolution)]
fn resolve_stmt(
    alloc: Global,
    tables: &Listed<u32>,
    variables: &Listed<u32>,
    s: &Stmt,
    points: &mut u32,
) -> Result<CheckedStmt, NoMemory>
    ensures code { IfOk result (λ found. (rest : Source)
        → stmt_code found (spec.code_of tables.now variables.now rest points.new)
        ≡ spec.code_of tables.now variables.now (stmt_source s.now rest) points.old) }
    ensures points { OnOk result ((rest : Source) → points.new + spec.points_of rest
        ≡ points.old + spec.points_of (stmt_source s.now rest)) }
{
    match s {
        Stmt::Let { name, right, .. } => {
            resolve_store(alloc, tables, variables, *name, right, points)
        }
        Stmt::Assign { name, right, .. } => {
            resolve_store(alloc, tables, variables, *name, right, points)
        }
        Stmt::Perform { call } => resolve_perform(tables, variables, None, call, points),
        Stmt::Choose { at, cond, yes, no } => {
            let cond = resolve_cond(alloc, variables, cond.get())?;
            let yes_point = next_point(points)?;
            let yes = resolve_block(alloc, tables, variables, yes.as_slice(), points)?;
            let no_point = next_point(points)?;
            let no = resolve_block(alloc, tables, variables, no.as_slice(), points)?;
            Ok(CheckedStmt::Choose {
                at: *at,
                yes_point,
                no_point,
                cond,
                yes,
                no,
            })
        }
        Stmt::Repeat {
            at,
            turns,
            name,
            body,
            ..
        } => {
            let turns = counted(*turns)?;
            let var = number_in(variables, *name);
            let body = resolve_block(alloc, tables, variables, body.as_slice(), points)?;
            let point = next_point(points)?;
            Ok(CheckedStmt::Repeat {
                at: *at,
                point,
                turns,
                var,
                body,
            })
        }
        Stmt::Answer { values, .. } => {
            let values = resolve_values(alloc, variables, values.as_slice())?;
            Ok(CheckedStmt::Answer { values })
        }
    }
}

#[cycle(resolution)]
fn resolve_block(
    alloc: Global,
    tables: &Listed<u32>,
    variables: &Listed<u32>,
    block: &[Stmt],
    points: &mut u32,
) -> Result<CheckedBlock, NoMemory>
    ensures code { IfOk result (λ found. block_code found
        ≡ spec.code_of tables.now variables.now (block_source block.now) points.old) }
    ensures points { OnOk result (points.new
        ≡ points.old + spec.points_of (block_source block.now)) }
{
    let mut found = Vec::with_capacity(alloc, block.len())?;
    for s in block {
        let one = resolve_stmt(alloc, tables, variables, s, points)?;
        found.push(one)?;
    }
    listed(found)
}

/// A handler, or its first fault.
pub(crate) fn resolve_handler(
    alloc: Global,
    declared: &[TableDecl],
    tables: &Listed<u32>,
    handler: &Handler,
) -> Result<CheckedHandler, CheckRefusal>
    ensures found { Found (scan of_variables declared.now [] [] (handler_marks handler.now))
        result }
    ensures handler { IfOk result (spec.IsResolved tables.now handler.now) }
{
    let variables = find_in_handler(alloc, declared, handler)?;
    let mut points: u32 = 1;
    let source = handler.body.as_slice();
    let body = resolve_block(alloc, tables, &variables, source, &mut points)?;
    Ok(CheckedHandler {
        name: handler.name,
        at: handler.at,
        params: handler.params.len(),
        points,
        variables,
        body,
    })
}

/// The next handler, behind those that have these names, or its first fault.
pub(crate) fn resolve_next(
    alloc: Global,
    declared: &[TableDecl],
    tables: &Listed<u32>,
    earlier: &mut Vec<u32>,
    handler: &Handler,
) -> Result<CheckedHandler, CheckRefusal>
    ensures found { Found (or_else
        (declared_fault of_handlers.limit of_handlers.past earlier.old.items
        handler.now.name handler.now.at)
        (scan of_variables declared.now [] [] (handler_marks handler.now))) result }
    ensures names { OnOk result (earlier.new.items ≡ earlier.old.items ++ handler.now.name ∷ []) }
    ensures handler { IfOk result (spec.IsResolved tables.now handler.now) }
{
    let past = CheckRefusal::TooManyHandlers { at: handler.at };
    declare(earlier, MAX_HANDLERS, past, handler.name, handler.at)?;
    resolve_handler(alloc, declared, tables, handler)
}

/// All handlers, or the first fault among them.
fn resolve_handlers(
    alloc: Global,
    declared: &[TableDecl],
    tables: &Listed<u32>,
    handlers: &[Handler],
) -> Result<Listed<CheckedHandler>, CheckRefusal>
    ensures found { Found (scan_handlers declared.now [] handlers.now) result }
    ensures handlers { IfOk result (AllZip (spec.IsResolved tables.now) handlers.now) }
{
    let mut earlier = Vec::new(alloc);
    let mut found = Vec::new(alloc);
    for handler in handlers {
        let one = resolve_next(alloc, declared, tables, &mut earlier, handler)?;
        found.push(one)?;
    }
    Ok(listed(found)?)
}

fn resolve_file(alloc: Global, file: &File) -> Result<Listed<CheckedHandler>, CheckRefusal>
    ensures found { Found (file_fault file.now) result }
    ensures handlers { IfOk result (AllZip (spec.IsResolved
        (spec.table_names file.now)) file.now.handlers) }
{
    let declared = file.tables.as_slice();
    let tables = find_in_tables(alloc, declared)?;
    resolve_handlers(alloc, declared, &tables, file.handlers.as_slice())
}

/// The resolved handlers of a file, in its order, or the first place where it breaks a rule on
/// names, arguments or numbers, if its places rise in the order of the text.
pub fn resolve(alloc: Global, file: &File) -> Result<Listed<CheckedHandler>, CheckRefusal>
    ensures rules { PlacesRise file.now
        → MatchResult result (λ _. KeepsRules file.now) (λ e. e ≢ refusal.NoMemory
        → IsFirstFault file.now e) }
    ensures handlers { IfOk result (AllZip (spec.IsResolved
        (spec.table_names file.now)) file.now.handlers) }
{
    walk_finds_first();
    resolve_file(alloc, file)
}
