// Texts, names, literals and calls.

ghost use Rattle.std.specs.Prelude.{◌<◌, ◌++◌, length, map};
ghost use Rattle.std.specs.List.{flat_map};
ghost use Rattle.syntax_printer.specs.Canonical.{name_text, literal_text, atom_text, call_text, further, indent};
ghost use Rattle.syntax_trees.specs.Mentions.{AreNamed, atom_mentions, call_mentions};
ghost use Rattle.syntax_printer.specs.Points.{named_text};
ghost use Rattle.byte_ends.specs.Texts.{Adds};

use byte_ends::TextSink;
use itoa::Buffer;
use session_values::{Names, Value};
use syntax_trees::{Atom, Call};

/// Appends two spaces for each block around the line.
pub(crate) fn put_indent<T: TextSink>(depth: u32, out: &mut T)
    ensures { Adds T.IsDue (indent depth) out.old out.new }
{
    'blocks: for _ in 0..depth {
        out.put("  ");
    }
}

/// Appends the text at a place.
pub(crate) fn put_name<T: TextSink>(place: u32, names: &Names, out: &mut T)
    requires { place < length names.now }
    ensures { Adds T.IsDue
        (name_text names.now place)
        out.old out.new }
{
    out.put(names.text(place))
}

/// Appends the text at a place, if the list has the place.
fn put_place<T: TextSink>(place: u32, names: &Names, out: &mut T)
    ensures { Adds T.IsDue
        (name_text names.now place)
        out.old out.new }
{
    if place < names.len() {
        put_name(place, names, out)
    }
}

/// Appends a name, if there is one.
pub(crate) fn put_named<T: TextSink>(place: Option<u32>, names: &Names, out: &mut T)
    ensures { Adds T.IsDue
        (named_text names.now place)
        out.old out.new }
{
    match place {
        Some(place) => put_place(place, names, out),
        None => {}
    }
}

/// Appends a literal.
pub(crate) fn put_literal<T: TextSink>(value: Value, names: &Names, out: &mut T)
    ensures { Adds T.IsDue
        (literal_text names.now value)
        out.old out.new }
{
    match value {
        Value::Nil => out.put("nil"),
        Value::Num(n) => {
            let mut buffer = Buffer::new();
            out.put(buffer.format(n))
        }
        Value::Sym(place) => {
            out.put("'");
            put_place(place, names, out)
        }
    }
}

/// Appends what stands alone in an expression.
pub(crate) fn put_atom<T: TextSink>(atom: &Atom, names: &Names, out: &mut T)
    requires { AreNamed names.now (atom_mentions atom.now) }
    ensures { Adds T.IsDue
        (atom_text names.now atom.now)
        out.old out.new }
{
    match atom {
        Atom::Lit(literal) => put_literal(literal.value(), names, out),
        Atom::Name { name, .. } => put_name(*name, names, out),
    }
}

/// Appends an operation with its table and arguments.
pub(crate) fn put_call<T: TextSink>(call: &Call, names: &Names, out: &mut T)
    requires { AreNamed names.now (call_mentions call.now) }
    ensures { Adds T.IsDue
        (call_text names.now call.now)
        out.old out.new }
{
    out.put(call.kind.word());
    out.put("(");
    put_name(call.table, names, out);
    put_arguments(call.args.as_slice(), names, out);
    out.put(")")
}

/// Appends a comma, a space and the argument, for each argument.
fn put_arguments<T: TextSink>(args: &[Atom], names: &Names, out: &mut T)
    requires { AreNamed names.now (flat_map atom_mentions args.now) }
    ensures { Adds T.IsDue
        (further (map (atom_text names.now) args.now))
        out.old out.new }
{
    'args: for atom in args {
        out.put(", ");
        put_atom(atom, names, out);
    }
}
