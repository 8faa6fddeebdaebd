// Files of handlers.

ghost use Rattle.std.specs.Prelude.{◌≡◌, ◌+◌, ◌<◌, ◌^◌, IfOk, length, map, string_bytes};
ghost use Rattle.std.specs.List.{AllByRecursion, flat_map};
ghost use Rattle.syntax_printer.specs.Canonical as spec;
ghost use Rattle.syntax_printer.specs.Canonical.{canonical_text};
ghost use Rattle.syntax_printer.specs.Lines.{head_text, shown_text};
ghost use Rattle.syntax_printer.specs.Put.{put_handler_text, put_handlers_text};
ghost use Rattle.syntax_trees.specs.Mentions.{AreNamed, table_mentions, param_mentions, handler_mentions, file_mentions};
ghost use Rattle.syntax_grammar.specs.Texts.{AreReadable};
ghost use Rattle.syntax_printer.specs.Readable.{ReadsBack};
ghost use Rattle.byte_ends.specs.Texts.{Adds, Ends};
ghost use Rattle.syntax_printer.specs.Countable.{FitsAt, IsCountable, IsCountableHandler};
ghost use Rattle.syntax_trees.proofs.Sizes.{block_size};

use crate::countable::is_countable;
use crate::declarations::{Declarations, Undeclared};
use crate::line::put_close;
use crate::piece::put_name;
use crate::spot::Spot;
use crate::stmt::put_branch;
use byte_ends::{PutsText, TextSink, text_in_memory};
use session_values::{Names, NoMemory, TableKind};
use std::alloc::Global;
use syntax_trees::{File, Handler, Param, TableDecl};

/// The canonical text of a file, whose names and symbols are those of the list. `room` bytes are
/// reserved for it ahead; it may be longer.
pub fn print(alloc: Global, room: usize, file: &File, names: &Names) -> Result<String, NoMemory>
    requires { AreNamed names.now (file_mentions file.now) }
    ensures text { IfOk result (λ text. string_bytes text ≡ canonical_text names.now file.now) }
    // Where names, symbols and numbers can be read, the text gives the words of the file again.
    ensures words { IfOk result (λ text.
        AreReadable names.now (file_mentions file.now)
        → ReadsBack names.now file.now (string_bytes text)) }
{
    // That the texts of the list are different is what `len` says of it.
    let _count = names.len();
    let text = print_with_declarations(alloc, room, file, &Undeclared, names)?;
    Ok(text)
}

/// The text of a file with a line at each point of its handlers, if these are shown; else its
/// canonical text. A place that a list doesn't have gives no text. `room` is as for `print`. A file
/// that isn't countable counts as out of memory.
pub fn print_with_declarations<D: Declarations>(
    alloc: Global,
    room: usize,
    file: &File,
    at: &D,
    names: &Names,
) -> Result<String, NoMemory>
    requires { AreNamed names.now (file_mentions file.now) }
    ensures { IfOk result (λ text.
        string_bytes text ≡ shown_text names.now (D.at_points at.now) file.now) }
{
    if !is_countable(file) {
        return Err(NoMemory);
    }
    text_in_memory(alloc, room, &FileText { file, at, names })
}

/// A file, what stands at its points, and its names.
#[derive(Drop)]
struct FileText<'a, D: Declarations> {
    file: &'a File,
    at: &'a D,
    names: &'a Names,
}

impl<'a, D: Declarations> PutsText for FileText<'a, D> {
    ghost use Rattle.syntax_printer.specs.Countable.{IsCountable};
    ghost use Rattle.syntax_printer.specs.Lines.{shown_text};
    ghost use Rattle.syntax_trees.specs.Mentions.{AreNamed, file_mentions};

    ghost text = { λ t. shown_text t.names.now (D.at_points t.at.now) t.file.now };

    ghost CanPut = { λ t. AreNamed t.names.now (file_mentions t.file.now)
        × IsCountable t.file.now };

    fn put_text<T: TextSink>(&self, out: &mut T) {
        put_with_declarations(self.file, self.at, self.names, out)
    }
}

/// Puts the canonical text of a file.
pub fn put_canonical<T: TextSink>(file: &File, names: &Names, out: &mut T)
    requires named { AreNamed names.now (file_mentions file.now) }
    requires countable { IsCountable file.now }
    ensures { Ends T.IsDue (canonical_text names.now file.now) out.old out.new }
{
    put_with_declarations(file, &Undeclared, names, out)
}

/// Puts the text of a file with a line at each point, as `print_with_declarations` makes it.
pub fn put_with_declarations<D: Declarations, T: TextSink>(
    file: &File,
    at: &D,
    names: &Names,
    out: &mut T,
)
    requires named { AreNamed names.now (file_mentions file.now) }
    requires countable { IsCountable file.now }
    ensures { Ends T.IsDue (shown_text names.now (D.at_points at.now) file.now) out.old out.new }
{
    put_tables(file.tables.as_slice(), names, out);
    put_handlers(file.handlers.as_slice(), at, names, out);
}

fn table_word(kind: TableKind) -> &'static str
    ensures { result.now ≡ spec.table_word kind }
{
    match kind {
        TableKind::Map => "map ",
        TableKind::Set => "set ",
    }
}

/// Appends a line for each table.
fn put_tables<T: TextSink>(tables: &[TableDecl], names: &Names, out: &mut T)
    requires { AreNamed names.now (flat_map table_mentions tables.now) }
    ensures { Adds T.IsDue
        (spec.each (map (spec.table_text names.now) tables.now))
        out.old out.new }
{
    for table in tables {
        out.put(table_word(table.kind));
        put_name(table.name, names, out);
        out.put(";\n");
    }
}

/// Appends the lines of each handler.
fn put_handlers<D: Declarations, T: TextSink>(
    handlers: &[Handler],
    at: &D,
    names: &Names,
    out: &mut T,
)
    requires named { AreNamed names.now (flat_map handler_mentions handlers.now) }
    requires few { length handlers.now < 2 ^ 32 }
    requires countable { AllByRecursion IsCountableHandler handlers.now }
    ensures { Adds T.IsDue
        (put_handlers_text names.now (D.at_points at.now) 0 handlers.now)
        out.old out.new }
{
    let mut spot = Spot::first();
    for handler in handlers {
        put_handler(handler, spot, at, names, out);
        spot = spot.next_handler();
    }
}

/// Appends the lines of a handler.
fn put_handler<D: Declarations, T: TextSink>(
    handler: &Handler,
    spot: Spot,
    at: &D,
    names: &Names,
    out: &mut T,
)
    requires start { (spot.depth ≡ 0) × (spot.point ≡ 0) }
    requires named { AreNamed names.now (handler_mentions handler.now) }
    requires countable { IsCountableHandler handler.now }
    ensures { Adds T.IsDue
        (put_handler_text names.now (D.at_points at.now) spot.handler handler.now)
        out.old out.new }
{
    put_head(handler, names, out);
    put_branch(handler.body.as_slice(), spot, at, names, out);
    put_close(0, out);
}

/// Appends the line that opens a handler.
fn put_head<T: TextSink>(handler: &Handler, names: &Names, out: &mut T)
    requires { AreNamed names.now (handler_mentions handler.now) }
    ensures { Adds T.IsDue
        (head_text names.now handler.now)
        out.old out.new }
{
    out.put("handler ");
    put_name(handler.name, names, out);
    out.put("(");
    put_params(handler.params.as_slice(), names, out);
    out.put(") {\n")
}

/// Appends parameters, with a comma and a space between them.
fn put_params<T: TextSink>(params: &[Param], names: &Names, out: &mut T)
    requires { AreNamed names.now (flat_map param_mentions params.now) }
    ensures { Adds T.IsDue
        (spec.listed (map (spec.param_text names.now) params.now))
        out.old out.new }
{
    match params {
        [] => {}
        [first, more @ ..] => {
            put_name(first.name, names, out);
            put_more_params(more, names, out)
        }
    }
}

/// Appends a comma, a space and the parameter, for each parameter.
fn put_more_params<T: TextSink>(params: &[Param], names: &Names, out: &mut T)
    requires { AreNamed names.now (flat_map param_mentions params.now) }
    ensures { Adds T.IsDue
        (spec.further (map (spec.param_text names.now) params.now))
        out.old out.new }
{
    for param in params {
        out.put(", ");
        put_name(param.name, names, out);
    }
}
