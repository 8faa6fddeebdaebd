// Lines that stand at points.

ghost use Rattle.std.specs.Prelude.{◌≡◌, ◌+◌, ◌<◌, ◌^◌, map};
ghost use Rattle.syntax_printer.specs.Canonical.{further};
ghost use Rattle.syntax_printer.specs.Points.{arg_text, args_of, point_text, symbol_text, symbols_text};
ghost use Rattle.syntax_printer.specs.Put.{put_point_text, put_right_text};
ghost use Rattle.syntax_printer.specs.Lines.{right_points};
ghost use Rattle.byte_ends.specs.Texts.{Adds};

use crate::declarations::Declarations;
use crate::piece::{put_indent, put_literal, put_named};
use crate::spot::Spot;
use byte_ends::TextSink;
use session_values::Names;
use symbolic_ops::{Arg, Symbol};
use syntax_trees::Right;

/// Appends an argument of a symbol.
fn put_arg<D: Declarations, T: TextSink>(arg: Arg, handler: u32, at: &D, names: &Names, out: &mut T)
    ensures { Adds T.IsDue
        (arg_text names.now ((D.at_points at.now).variables handler) arg)
        out.old out.new }
{
    match arg {
        Arg::Known(value) => put_literal(value, names, out),
        Arg::Var(x) => put_named(at.variable(handler, x), names, out),
        Arg::Any => out.put("any"),
    }
}

/// Appends a comma, a space and the argument, for each of the first so many arguments of a symbol.
fn put_args<D: Declarations, T: TextSink>(
    s: &Symbol,
    handler: u32,
    at: &D,
    names: &Names,
    out: &mut T,
)
    ensures { Adds T.IsDue
        (further (map (arg_text names.now ((D.at_points at.now).variables handler))
        (args_of s.now)))
        out.old out.new }
{
    let count = s.kind.arguments();
    if count == 0 {
        return;
    }
    out.put(", ");
    put_arg(s.key(), handler, at, names, out);
    if count == 1 {
        return;
    }
    out.put(", ");
    put_arg(s.value(), handler, at, names, out)
}

/// Appends a symbol.
fn put_symbol<D: Declarations, T: TextSink>(
    s: &Symbol,
    handler: u32,
    at: &D,
    names: &Names,
    out: &mut T,
)
    ensures { Adds T.IsDue
        (symbol_text names.now (D.at_points at.now).tables
        ((D.at_points at.now).variables handler) s.now)
        out.old out.new }
{
    out.put(s.kind.word());
    out.put("(");
    put_named(at.table(s.table), names, out);
    put_args(s, handler, at, names, out);
    out.put(")")
}

/// Appends a comma, a space and the symbol, for each symbol.
fn put_more_symbols<D: Declarations, T: TextSink>(
    symbols: &[Symbol],
    handler: u32,
    at: &D,
    names: &Names,
    out: &mut T,
)
    ensures { Adds T.IsDue
        (further (map (symbol_text names.now (D.at_points at.now).tables
        ((D.at_points at.now).variables handler)) symbols.now))
        out.old out.new }
{
    for symbol in symbols {
        out.put(", ");
        put_symbol(symbol, handler, at, names, out);
    }
}

/// Appends symbols, with a comma and a space between them, or that there is none.
fn put_symbols<D: Declarations, T: TextSink>(
    symbols: &[Symbol],
    handler: u32,
    at: &D,
    names: &Names,
    out: &mut T,
)
    ensures { Adds T.IsDue
        (symbols_text names.now (D.at_points at.now).tables
        ((D.at_points at.now).variables handler) symbols.now)
        out.old out.new }
{
    match symbols {
        [] => out.put("nothing"),
        [first, more @ ..] => {
            put_symbol(first, handler, at, names, out);
            put_more_symbols(more, handler, at, names, out)
        }
    }
}

/// Appends the declaration of a point.
fn put_declaration<D: Declarations, T: TextSink>(spot: Spot, at: &D, names: &Names, out: &mut T)
    ensures { Adds T.IsDue
        (point_text names.now (D.at_points at.now) spot.handler spot.depth spot.point)
        out.old out.new }
{
    put_indent(spot.depth, out);
    out.put("mayuse ");
    put_symbols(
        at.symbols(spot.handler, spot.point),
        spot.handler,
        at,
        names,
        out,
    );
    out.put(";\n")
}

/// Appends what stands at the point, if lines are shown.
fn put_line<D: Declarations, T: TextSink>(spot: Spot, at: &D, names: &Names, out: &mut T)
    ensures { Adds T.IsDue
        (put_point_text names.now (D.at_points at.now) spot)
        out.old out.new }
{
    if at.is_shown() {
        put_declaration(spot, at, names, out)
    }
}

/// Appends what stands at the point, and gives the number of the one behind it.
pub(crate) fn put_point<D: Declarations, T: TextSink>(
    spot: Spot,
    at: &D,
    names: &Names,
    out: &mut T,
) -> u32
    requires { spot.point + 1 < 2 ^ 32 }
    ensures text { Adds T.IsDue
        (put_point_text names.now (D.at_points at.now) spot)
        out.old out.new }
    ensures next { result ≡ spot.point + 1 }
{
    put_line(spot, at, names, out);
    spot.next()
}

/// Appends what stands behind an assignment: the point of its operation, if it has one.
pub(crate) fn put_right_point<D: Declarations, T: TextSink>(
    right: &Right,
    spot: Spot,
    at: &D,
    names: &Names,
    out: &mut T,
) -> u32
    requires { spot.point + 1 < 2 ^ 32 }
    ensures text { Adds T.IsDue
        (put_right_text names.now (D.at_points at.now) spot right.now)
        out.old out.new }
    ensures next { result ≡ spot.point + right_points right.now }
{
    match right {
        Right::Plain(_) => spot.point,
        Right::Result(_) => put_point(spot, at, names, out),
    }
}
