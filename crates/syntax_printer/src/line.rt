// Lines of statements, without what stands inside them.

ghost use Rattle.std.specs.Prelude.{◌≡◌, ◌<◌, length, map};
ghost use Rattle.std.specs.List.{flat_map};
ghost use Rattle.syntax_printer.specs.Canonical as spec;
ghost use Rattle.syntax_printer.specs.Lines.{call_line_text, close_text, else_text, if_text, indented, let_text, repeat_head_text, reply_text};
ghost use Rattle.syntax_trees.specs.Mentions.{AreNamed, call_mentions, cond_mentions, expr_mentions, right_mentions};
ghost use Rattle.byte_ends.specs.Texts.{Adds};

use crate::expr::{Level, put_expr, put_values};
use crate::piece::{put_call, put_indent, put_name};
use byte_ends::TextSink;
use itoa::Buffer;
use session_values::Names;
use syntax_trees::{Call, Compare, Cond, Expr, Right};

fn comparison(compare: Compare) -> &'static str
    ensures { result.now ≡ spec.compare_text compare }
{
    match compare {
        Compare::Same => " == ",
        Compare::Differ => " != ",
        Compare::Less => " < ",
        Compare::LessOrSame => " <= ",
    }
}

/// Appends a comparison.
fn put_cond<T: TextSink>(cond: &Cond, names: &Names, out: &mut T)
    requires { AreNamed names.now (cond_mentions cond.now) }
    ensures { Adds T.IsDue
        (spec.cond_text names.now cond.now)
        out.old out.new }
{
    put_expr(&cond.left, Level::Whole, names, out);
    out.put(comparison(cond.compare));
    put_expr(&cond.right, Level::Whole, names, out)
}

/// Appends a right side.
fn put_right<T: TextSink>(right: &Right, names: &Names, out: &mut T)
    requires { AreNamed names.now (right_mentions right.now) }
    ensures { Adds T.IsDue
        (spec.right_text names.now right.now)
        out.old out.new }
{
    match right {
        Right::Plain(e) => put_expr(e, Level::Whole, names, out),
        Right::Result(call) => put_call(call, names, out),
    }
}

/// Appends a name, its right side, and the line's end.
fn put_assignment<T: TextSink>(name: u32, right: &Right, names: &Names, out: &mut T)
    requires name { name < length names.now }
    requires right { AreNamed names.now (right_mentions right.now) }
    ensures { Adds T.IsDue
        (spec.assignment_text names.now name right.now)
        out.old out.new }
{
    put_name(name, names, out);
    out.put(" = ");
    put_right(right, names, out);
    out.put(";\n")
}

/// Appends an assignment inside so many blocks.
pub(crate) fn put_assign<T: TextSink>(
    name: u32,
    right: &Right,
    depth: u32,
    names: &Names,
    out: &mut T,
)
    requires name { name < length names.now }
    requires right { AreNamed names.now (right_mentions right.now) }
    ensures { Adds T.IsDue
        (indented depth (spec.assignment_text names.now name right.now))
        out.old out.new }
{
    put_indent(depth, out);
    put_assignment(name, right, names, out)
}

/// Appends a `let` inside so many blocks.
pub(crate) fn put_let<T: TextSink>(name: u32, right: &Right, depth: u32, names: &Names, out: &mut T)
    requires name { name < length names.now }
    requires right { AreNamed names.now (right_mentions right.now) }
    ensures { Adds T.IsDue
        (indented depth (let_text names.now name right.now))
        out.old out.new }
{
    put_indent(depth, out);
    out.put("let ");
    put_assignment(name, right, names, out)
}

/// Appends an operation that stands alone, inside so many blocks.
pub(crate) fn put_call_line<T: TextSink>(call: &Call, depth: u32, names: &Names, out: &mut T)
    requires { AreNamed names.now (call_mentions call.now) }
    ensures { Adds T.IsDue
        (indented depth (call_line_text names.now call.now))
        out.old out.new }
{
    put_indent(depth, out);
    put_call(call, names, out);
    out.put(";\n")
}

/// Appends a reply inside so many blocks.
pub(crate) fn put_reply<T: TextSink>(values: &[Expr], depth: u32, names: &Names, out: &mut T)
    requires { AreNamed names.now (flat_map expr_mentions values.now) }
    ensures { Adds T.IsDue
        (indented depth (reply_text names.now values.now))
        out.old out.new }
{
    put_indent(depth, out);
    out.put("reply ");
    put_values(values, names, out);
    out.put(";\n")
}

/// Appends the line that opens an `if`.
pub(crate) fn put_if<T: TextSink>(cond: &Cond, depth: u32, names: &Names, out: &mut T)
    requires { AreNamed names.now (cond_mentions cond.now) }
    ensures { Adds T.IsDue
        (indented depth (if_text names.now cond.now))
        out.old out.new }
{
    put_indent(depth, out);
    out.put("if ");
    put_cond(cond, names, out);
    out.put(" {\n")
}

/// Appends the line between the blocks of an `if`.
pub(crate) fn put_else<T: TextSink>(depth: u32, out: &mut T)
    ensures { Adds T.IsDue
        (indented depth else_text)
        out.old out.new }
{
    put_indent(depth, out);
    out.put("} else {\n")
}

/// Appends the line that opens a `repeat`.
pub(crate) fn put_repeat_head<T: TextSink>(
    turns: u64,
    name: u32,
    depth: u32,
    names: &Names,
    out: &mut T,
)
    requires { name < length names.now }
    ensures { Adds T.IsDue
        (indented depth (repeat_head_text names.now turns name))
        out.old out.new }
{
    let mut buffer = Buffer::new();
    put_indent(depth, out);
    out.put("repeat ");
    out.put(buffer.format(turns));
    out.put(" as ");
    put_name(name, names, out);
    out.put(" {\n")
}

/// Appends the line that closes a block.
pub(crate) fn put_close<T: TextSink>(depth: u32, out: &mut T)
    ensures { Adds T.IsDue
        (indented depth close_text)
        out.old out.new }
{
    put_indent(depth, out);
    out.put("}\n")
}
