// A reply's line.

ghost use Rattle.std.specs.Prelude.{◌≡◌, ◌+◌, ◌*◌, ◌<◌, ◌≤◌, ◌++◌, length};
ghost use Rattle.std.specs.List.{AllByRecursion};
ghost use Rattle.session_values.specs.Limits.{max_requests};
ghost use Rattle.session_values.specs.Reply.{values_of};
ghost use Rattle.session_values.specs.ReplyText.{IsPrintable, value_text, values_text, line_text};

use crate::line_buf::LineBuf;
use crate::text_room::TextRoom;
use itoa::Buffer;
use session_values::{Names, Reply, Value};

/// The longest line: a ticket of 5 digits, a space and 64 bytes for each of 4 values, a line feed.
pub(crate) const LONGEST: usize = 266;

/// The line of a ticket and its reply, in place of what the buffer held.
pub fn line(ticket: u32, reply: &Reply, names: &Names, out: &mut LineBuf)
    requires ticket { ticket < max_requests }
    requires printable { AllByRecursion (IsPrintable names.now) (values_of reply.now) }
    ensures { out.new ≡ line_text names.now ticket reply.now }
{
    out.clear();
    push_line(ticket, reply, names, out);
}

/// Appends the line of a ticket and its reply.
pub fn push_line<T: TextRoom>(ticket: u32, reply: &Reply, names: &Names, out: &mut T)
    requires ticket { ticket < max_requests }
    requires printable { AllByRecursion (IsPrintable names.now) (values_of reply.now) }
    requires room { 266 ≤ T.spare out.old }
    ensures { T.held out.new ≡ T.held out.old ++ line_text names.now ticket reply.now }
{
    let count = reply.count as usize;
    let values = [reply.a(), reply.b(), reply.c(), reply.d()];
    let mut buffer = Buffer::new();
    out.push(buffer.format(ticket).as_bytes());
    push_values(&values[..count], names, out);
    out.push(b"\n");
}

/// Appends a space and the text of each value.
fn push_values<T: TextRoom>(values: &[Value], names: &Names, out: &mut T)
    requires printable { AllByRecursion (IsPrintable names.now) values.now }
    requires room { 65 * length values.now ≤ T.spare out.old }
    ensures text { T.held out.new ≡ T.held out.old ++ values_text names.now values.now }
    ensures len { T.spare out.old ≤ T.spare out.new + 65 * length values.now }
{
    'values: for value in values {
        out.push(b" ");
        push_value(*value, names, out);
    }
}

/// Appends the text of a value.
fn push_value<T: TextRoom>(value: Value, names: &Names, out: &mut T)
    requires printable { IsPrintable names.now value }
    requires room { 64 ≤ T.spare out.old }
    ensures text { T.held out.new ≡ T.held out.old ++ value_text names.now value }
    ensures len { T.spare out.old ≤ T.spare out.new + 64 }
{
    match value {
        Value::Nil => out.push(b"nil"),
        Value::Num(n) => {
            let mut buffer = Buffer::new();
            out.push(buffer.format(n).as_bytes());
        }
        Value::Sym(place) => out.push(names.text(place).as_bytes()),
    }
}
