// An entry's line.

ghost use Rattle.std.specs.Prelude.{◌≡◌, ◌+◌, ◌≤◌, ◌∷◌, ◌++◌};
ghost use Rattle.session_values.specs.Names.{IsNamed};
ghost use Rattle.session_values.specs.ReplyText.{IsPrintable};
ghost use Rattle.table_lines.specs.Written.{text_at, word, written};
ghost use Rattle.table_lines.specs.TableText as spec;
ghost use Rattle.table_lines.specs.TableText.{told, told_text};

use itoa::Buffer;
use reply_sheet::{LineBuf, TextRoom};
use session_values::{Names, TableKind, Value};

/// The line of an entry, in place of what the buffer held.
pub fn table_line(
    table: u32,
    kind: TableKind,
    key: Value,
    value: Value,
    names: &Names,
    out: &mut LineBuf,
)
    requires table { IsNamed names.now table }
    requires key { IsPrintable names.now key }
    requires value { IsPrintable names.now value }
    ensures { out.new ≡ spec.table_line (text_at names.now table) (written names.now key)
        (told kind (written names.now value)) }
{
    *out = LineBuf::new();
    push_table_line(table, kind, key, value, names, out);
}

/// Appends the line of an entry: the name of its table, by its place, the key, of a map the value,
/// and a line feed.
pub fn push_table_line<T: TextRoom>(
    table: u32,
    kind: TableKind,
    key: Value,
    value: Value,
    names: &Names,
    out: &mut T,
)
    requires table { IsNamed names.now table }
    requires key { IsPrintable names.now key }
    requires value { IsPrintable names.now value }
    requires room { 195 ≤ T.spare out.old }
    ensures text { T.held out.new ≡ T.held out.old ++ spec.table_line (text_at names.now table)
        (written names.now key) (told kind (written names.now value)) }
    ensures len { T.spare out.old ≤ T.spare out.new + 195 }
{
    push_name(table, names, out);
    push_word(key, names, out);
    push_told(kind, value, names, out);
    out.push(b"\n");
}

/// Appends the text at a place.
fn push_name<T: TextRoom>(place: u32, names: &Names, out: &mut T)
    requires named { IsNamed names.now place }
    requires room { 64 ≤ T.spare out.old }
    ensures text { T.held out.new ≡ T.held out.old ++ text_at names.now place }
    ensures len { T.spare out.old ≤ T.spare out.new + 64 }
{
    out.push(names.text(place).as_bytes());
}

/// Appends a space, and a value as it is written.
fn push_word<T: TextRoom>(value: Value, names: &Names, out: &mut T)
    requires printable { IsPrintable names.now value }
    requires room { 65 ≤ T.spare out.old }
    ensures text { T.held out.new ≡ T.held out.old ++ 32 ∷ word (written names.now value) }
    ensures len { T.spare out.old ≤ T.spare out.new + 65 }
{
    out.push(b" ");
    match value {
        Value::Nil => out.push(b"nil"),
        Value::Num(n) => {
            let mut buffer = Buffer::new();
            out.push(buffer.format(n).as_bytes());
        }
        Value::Sym(place) => push_name(place, names, out),
    }
}

/// Appends what a line tells of an entry's value: of a member of a set nothing.
fn push_told<T: TextRoom>(kind: TableKind, value: Value, names: &Names, out: &mut T)
    requires printable { IsPrintable names.now value }
    requires room { 65 ≤ T.spare out.old }
    ensures text { T.held out.new ≡ T.held out.old
        ++ told_text (told kind (written names.now value)) }
    ensures len { T.spare out.old ≤ T.spare out.new + 65 }
{
    match kind {
        TableKind::Map => push_word(value, names, out),
        TableKind::Set => {}
    }
}
