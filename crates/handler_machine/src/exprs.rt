// Values of expressions and conditions, and the operations of calls.

ghost use Rattle.std.specs.Prelude.{◌≡◌, length};
ghost use Rattle.session_values.specs.declared.value.Value.TheVariants.{Num};
ghost use Rattle.session_values.specs.Values.{value_eq};
ghost use Rattle.syntax_trees.specs.declared.expr.Calc.{Calc};
ghost use Rattle.syntax_trees.specs.declared.stmt.Compare.{Compare};
ghost use Rattle.check_meaning.specs.Code.{cond_test, expr_term};
ghost use Rattle.check_meaning.specs.Dialogue as meaning;
ghost use Rattle.check_meaning.specs.Dialogue.{env_of};
ghost use Rattle.check_meaning.specs.Within.{AtomWithin, TermWithin};
ghost use Rattle.handler_machine.specs.Numbers as numbers;
ghost use Rattle.handler_machine.specs.Runnable.{IsCallWithin};

use check_meaning::{CheckedAtom, CheckedCall, CheckedCond, CheckedExpr};
use session_values::{Op, Value};
use syntax_trees::{Calc, Compare};

/// The number that a value is; none where it is another value.
#[inline(always)]
fn number_of(value: Value) -> Option<i64>
    ensures { result ≡ numbers.number_of value }
{
    match value {
        Value::Num(n) => Some(n),
        _ => None,
    }
}

/// A number, or nil where there is none.
#[inline(always)]
fn number_or_nil(n: Option<i64>) -> Value
    ensures { result ≡ numbers.number_or_nil n }
{
    match n {
        Some(n) => Value::Num(n),
        None => Value::Nil,
    }
}

#[inline(always)]
fn plus(a: i64, b: i64) -> Option<i64>
    ensures { numbers.number_or_nil result ≡ meaning.calculated Calc.Plus (Num a) (Num b) }
{
    a.checked_add(b)
}

#[inline(always)]
fn minus(a: i64, b: i64) -> Option<i64>
    ensures { numbers.number_or_nil result ≡ meaning.calculated Calc.Minus (Num a) (Num b) }
{
    a.checked_sub(b)
}

#[inline(always)]
fn times(a: i64, b: i64) -> Option<i64>
    ensures { numbers.number_or_nil result ≡ meaning.calculated Calc.Times (Num a) (Num b) }
{
    a.checked_mul(b)
}

/// A sum, a difference or a product; none where it leaves 64 bits or a side is no number.
#[inline(always)]
fn calculate(calc: Calc, left: Option<i64>, right: Option<i64>) -> Option<i64>
    ensures { numbers.number_or_nil result ≡ meaning.calculated calc (numbers.number_or_nil left)
        (numbers.number_or_nil right) }
{
    match (left, right) {
        (Some(a), Some(b)) => match calc {
            Calc::Plus => plus(a, b),
            Calc::Minus => minus(a, b),
            Calc::Times => times(a, b),
        },
        _ => None,
    }
}

#[inline(always)]
fn value_of_atom(env: &[Value], atom: CheckedAtom) -> Value
    requires { AtomWithin (length env.now) atom }
    ensures { result ≡ meaning.atom_value atom (env_of env.now) }
{
    match atom {
        CheckedAtom::Lit(value) => value,
        CheckedAtom::Var(var) => env[var as usize],
    }
}

/// The number that an expression is. What is calculated is a number or nil, so the sides of a
/// calculation are asked for their numbers alone, which a machine hands on in registers.
#[cycle(numbers)]
#[inline(always)]
fn number_in(env: &[Value], expr: &CheckedExpr) -> Option<i64>
    requires { TermWithin (length env.now) (expr_term expr.now) }
    ensures { result
        ≡ numbers.number_of (meaning.value_of (expr_term expr.now) (env_of env.now)) }
{
    match expr {
        CheckedExpr::Leaf(atom) => number_of(value_of_atom(env, *atom)),
        CheckedExpr::Binary { calc, left, right } => {
            calculated(env, *calc, left.get(), right.get())
        }
    }
}

/// The number that a calculation gives. Where no side is one itself, it takes no further call.
#[cycle(numbers)]
fn calculated(env: &[Value], calc: Calc, left: &CheckedExpr, right: &CheckedExpr) -> Option<i64>
    requires left { TermWithin (length env.now) (expr_term left.now) }
    requires right { TermWithin (length env.now) (expr_term right.now) }
    ensures { numbers.number_or_nil result ≡ meaning.calculated calc
        (meaning.value_of (expr_term left.now) (env_of env.now))
        (meaning.value_of (expr_term right.now) (env_of env.now)) }
{
    match (left, right) {
        (CheckedExpr::Leaf(a), CheckedExpr::Leaf(b)) => calculate(
            calc,
            number_of(value_of_atom(env, *a)),
            number_of(value_of_atom(env, *b)),
        ),
        _ => nested(env, calc, left, right),
    }
}

/// The number that a calculation gives, of whose sides some are calculations.
#[cycle(numbers)]
#[inline(never)]
fn nested(env: &[Value], calc: Calc, left: &CheckedExpr, right: &CheckedExpr) -> Option<i64>
    requires left { TermWithin (length env.now) (expr_term left.now) }
    requires right { TermWithin (length env.now) (expr_term right.now) }
    ensures { numbers.number_or_nil result ≡ meaning.calculated calc
        (meaning.value_of (expr_term left.now) (env_of env.now))
        (meaning.value_of (expr_term right.now) (env_of env.now)) }
{
    let a = number_in(env, left);
    let b = number_in(env, right);
    calculate(calc, a, b)
}

/// The value of an expression.
#[inline(always)]
pub(crate) fn value_of(env: &[Value], expr: &CheckedExpr) -> Value
    requires { TermWithin (length env.now) (expr_term expr.now) }
    ensures { result ≡ meaning.value_of (expr_term expr.now) (env_of env.now) }
{
    match expr {
        CheckedExpr::Leaf(atom) => value_of_atom(env, *atom),
        CheckedExpr::Binary { calc, left, right } => {
            number_or_nil(calculated(env, *calc, left.get(), right.get()))
        }
    }
}

/// Whether two values are the same.
#[inline(always)]
fn same(left: Value, right: Value) -> bool
    ensures { result ≡ value_eq left right }
{
    match (left, right) {
        (Value::Nil, Value::Nil) => true,
        (Value::Num(a), Value::Num(b)) => a == b,
        (Value::Sym(a), Value::Sym(b)) => a == b,
        _ => false,
    }
}

/// Whether both are numbers, and the first is less.
#[inline(always)]
fn less(left: Option<i64>, right: Option<i64>) -> bool
    ensures { result ≡ meaning.compared Compare.Less (numbers.number_or_nil left)
        (numbers.number_or_nil right) }
{
    match (left, right) {
        (Some(a), Some(b)) => a < b,
        _ => false,
    }
}

/// Whether both are numbers, and the first isn't greater.
#[inline(always)]
fn less_or_same(left: Option<i64>, right: Option<i64>) -> bool
    ensures { result ≡ meaning.compared Compare.LessOrSame (numbers.number_or_nil left)
        (numbers.number_or_nil right) }
{
    match (left, right) {
        (Some(a), Some(b)) => a <= b,
        _ => false,
    }
}

/// Whether a condition holds. What orders numbers asks for the sides' numbers alone.
#[inline(always)]
pub(crate) fn holds(env: &[Value], cond: &CheckedCond) -> bool
    requires left { TermWithin (length env.now) (expr_term cond.now.left) }
    requires right { TermWithin (length env.now) (expr_term cond.now.right) }
    ensures { result ≡ meaning.holds (cond_test cond.now) (env_of env.now) }
{
    let left = &cond.left;
    let right = &cond.right;
    match cond.compare {
        Compare::Same => same(value_of(env, left), value_of(env, right)),
        Compare::Differ => !same(value_of(env, left), value_of(env, right)),
        Compare::Less => less(number_in(env, left), number_in(env, right)),
        Compare::LessOrSame => less_or_same(number_in(env, left), number_in(env, right)),
    }
}

/// The operation that a call makes.
#[inline]
pub(crate) fn op_of(env: &[Value], call: CheckedCall) -> Op
    requires { IsCallWithin (length env.now) call }
    ensures { result ≡ meaning.op_of call (env_of env.now) }
{
    Op::new(
        call.kind,
        call.table,
        value_of_atom(env, call.key),
        value_of_atom(env, call.value),
    )
}
