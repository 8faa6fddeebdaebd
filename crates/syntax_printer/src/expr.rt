// Expressions.

ghost use Rattle.std.specs.Prelude.{◌≡◌, map};
ghost use Rattle.std.specs.List.{flat_map};
ghost use Rattle.syntax_printer.specs.Canonical as spec;
ghost use Rattle.syntax_trees.specs.Mentions.{AreNamed, expr_mentions};
ghost use Rattle.byte_ends.specs.Texts.{Adds};

use crate::piece::{put_literal, put_name};
use byte_ends::TextSink;
use session_values::Names;
use syntax_trees::{Calc, Expr};

/// How an expression stands in another one, in the terms of the grammar.
#[derive(Clone, Copy, Debug, PartialEq, Eq)]
pub enum Level {
    /// Alone, or on the left of `+` or `-`.
    Whole,
    /// On the right of `+` or `-`, or on the left of `*`.
    Term,
    /// On the right of `*`.
    Factor,
}

impl Level {
    /// Whether an expression with this operator needs parentheses here.
    fn is_bracketed(self, calc: Calc) -> bool
        ensures { result ≡ spec.is_bracketed self calc }
    {
        match self {
            Level::Whole => false,
            Level::Term => !matches!(calc, Calc::Times),
            Level::Factor => true,
        }
    }

    fn opening(self, calc: Calc) -> &'static str
        ensures { result.now ≡ spec.opening self calc }
    {
        if self.is_bracketed(calc) { "(" } else { "" }
    }

    fn closing(self, calc: Calc) -> &'static str
        ensures { result.now ≡ spec.closing self calc }
    {
        if self.is_bracketed(calc) { ")" } else { "" }
    }
}

fn left_level(calc: Calc) -> Level
    ensures { result ≡ spec.left_level calc }
{
    match calc {
        Calc::Plus | Calc::Minus => Level::Whole,
        Calc::Times => Level::Term,
    }
}

fn right_level(calc: Calc) -> Level
    ensures { result ≡ spec.right_level calc }
{
    match calc {
        Calc::Plus | Calc::Minus => Level::Term,
        Calc::Times => Level::Factor,
    }
}

fn operator(calc: Calc) -> &'static str
    ensures { result.now ≡ spec.operator_text calc }
{
    match calc {
        Calc::Plus => " + ",
        Calc::Minus => " - ",
        Calc::Times => " * ",
    }
}

/// Appends an expression.
pub(crate) fn put_expr<T: TextSink>(e: &Expr, level: Level, names: &Names, out: &mut T)
    requires { AreNamed names.now (expr_mentions e.now) }
    ensures { Adds T.IsDue
        (spec.expr_text names.now e.now level)
        out.old out.new }
{
    match e {
        Expr::Lit(literal) => put_literal(literal.value(), names, out),
        Expr::Name { name, .. } => put_name(*name, names, out),
        Expr::Binary { calc, sides } => {
            let (left, right) = sides.get();
            out.put(level.opening(*calc));
            put_expr(left, left_level(*calc), names, out);
            out.put(operator(*calc));
            put_expr(right, right_level(*calc), names, out);
            out.put(level.closing(*calc))
        }
    }
}

/// Appends expressions that stand alone, with a comma and a space between them.
pub(crate) fn put_values<T: TextSink>(values: &[Expr], names: &Names, out: &mut T)
    requires { AreNamed names.now (flat_map expr_mentions values.now) }
    ensures { Adds T.IsDue
        (spec.listed (map (spec.whole_text names.now) values.now))
        out.old out.new }
{
    match values {
        [] => {}
        [first, more @ ..] => {
            put_expr(first, Level::Whole, names, out);
            put_more_values(more, names, out)
        }
    }
}

/// Appends a comma, a space and the expression, for each expression.
fn put_more_values<T: TextSink>(values: &[Expr], names: &Names, out: &mut T)
    requires { AreNamed names.now (flat_map expr_mentions values.now) }
    ensures { Adds T.IsDue
        (spec.further (map (spec.whole_text names.now) values.now))
        out.old out.new }
{
    for value in values {
        out.put(", ");
        put_expr(value, Level::Whole, names, out);
    }
}
