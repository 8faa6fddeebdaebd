// Expressions, conditions and operations with their names resolved.

ghost use Rattle.std.specs.Prelude.{◌≡◌, IfOk, map};
ghost use Rattle.handler_check.specs.Resolved as spec;
ghost use Rattle.check_meaning.specs.Code.{cond_test, expr_term};

use check_meaning::{CheckedAtom, CheckedCall, CheckedCond, CheckedExpr, CheckedExprs};
use session_values::{Boxed, Listed, NoMemory, Value};
use std::alloc::Global;
use syntax_trees::{Atom, Call, Cond, Expr};

/// What stands in the place of an argument that an operation doesn't have.
const NIL: CheckedAtom = CheckedAtom::Lit(Value::Nil);

/// The number of a name's first declaration, or how many there are where it is none of them.
pub(super) fn number_in(names: &Listed<u32>, name: u32) -> u32
    ensures { result ≡ spec.number_in names.now name }
{
    let count = names.len();
    for number in 0..count {
        if *names.get(number) == name {
            return number;
        }
    }
    count
}

fn resolve_atom(variables: &Listed<u32>, atom: &Atom) -> CheckedAtom
    ensures { result ≡ spec.atom_of variables.now atom.now }
{
    match atom {
        Atom::Lit(literal) => CheckedAtom::Lit(literal.value()),
        Atom::Name { name, .. } => CheckedAtom::Var(number_in(variables, *name)),
    }
}

pub(super) fn resolve_expr(
    alloc: Global,
    variables: &Listed<u32>,
    e: &Expr,
) -> Result<CheckedExpr, NoMemory>
    ensures { IfOk result (λ found. expr_term found ≡ spec.term_of variables.now e.now) }
{
    match e {
        Expr::Lit(literal) => Ok(CheckedExpr::Leaf(CheckedAtom::Lit(literal.value()))),
        Expr::Name { name, .. } => {
            Ok(CheckedExpr::Leaf(CheckedAtom::Var(number_in(variables, *name))))
        }
        Expr::Binary { calc, sides } => {
            let (left, right) = sides.get();
            let left = resolve_expr(alloc, variables, left)?;
            let right = resolve_expr(alloc, variables, right)?;
            let left = Boxed::new(alloc, left)?;
            let right = Boxed::new(alloc, right)?;
            Ok(CheckedExpr::Binary {
                calc: *calc,
                left,
                right,
            })
        }
    }
}

pub(super) fn resolve_values(
    alloc: Global,
    variables: &Listed<u32>,
    values: &[Expr],
) -> Result<CheckedExprs, NoMemory>
    ensures { IfOk result (λ found. map expr_term found
        ≡ map (spec.term_of variables.now) values.now) }
{
    let mut found = Vec::with_capacity(alloc, values.len())?;
    for value in values {
        let one = resolve_expr(alloc, variables, value)?;
        found.push(one)?;
    }
    listed(found)
}

/// The list, if it is short enough for one: else out of memory.
pub(crate) fn listed<T: Drop>(items: Vec<T>) -> Result<Listed<T>, NoMemory>
    ensures { IfOk result (λ found. found ≡ items.items) }
{
    if items.len() <= u32::MAX as usize {
        Ok(Listed::from_vec(items))
    } else {
        Err(NoMemory)
    }
}

pub(super) fn resolve_cond(
    alloc: Global,
    variables: &Listed<u32>,
    cond: &Cond,
) -> Result<CheckedCond, NoMemory>
    ensures { IfOk result (λ found. cond_test found ≡ spec.test_of variables.now cond.now) }
{
    let left = resolve_expr(alloc, variables, &cond.left)?;
    let right = resolve_expr(alloc, variables, &cond.right)?;
    Ok(CheckedCond {
        compare: cond.compare,
        left,
        right,
    })
}

fn resolve_key(variables: &Listed<u32>, args: &[Atom]) -> CheckedAtom
    ensures { result ≡ spec.key_of variables.now args.now }
{
    if args.len() < 1 {
        NIL
    } else {
        resolve_atom(variables, &args[0])
    }
}

fn resolve_value(variables: &Listed<u32>, args: &[Atom]) -> CheckedAtom
    ensures { result ≡ spec.value_of variables.now args.now }
{
    if args.len() < 2 {
        NIL
    } else {
        resolve_atom(variables, &args[1])
    }
}

pub(super) fn resolve_call(
    tables: &Listed<u32>,
    variables: &Listed<u32>,
    call: &Call,
) -> CheckedCall
    ensures { result ≡ spec.call_of tables.now variables.now call.now }
{
    CheckedCall {
        kind: call.kind,
        table: number_in(tables, call.table),
        key: resolve_key(variables, call.args.as_slice()),
        value: resolve_value(variables, call.args.as_slice()),
    }
}
