// A reply's line.

ghost use Rattle.std.specs.Prelude.{◌≡◌, ◌++◌, ◌≤◌, length};
ghost use Rattle.std.specs.List.{AllByRecursion};
ghost use Rattle.session_values.specs.Reply.{values_of};
ghost use Rattle.session_values.specs.ReplyText.{IsPrintable};
ghost use Rattle.live_session.specs.Answers.{reply_line};

use reply_sheet::{LineBuf, TextRoom, line};
use session_values::{Names, Reply};

/// For how many bytes a room that is given for one reply must have place: no reply line has more.
pub const LONGEST_REPLY: usize = 264;

/// Appends a reply's line: that of `serve` without its ticket and the blank behind it.
pub(crate) fn push_reply<T: TextRoom>(reply: &Reply, names: &Names, out: &mut T)
    requires printable { AllByRecursion (IsPrintable names.now) (values_of reply.now) }
    requires room { 264 ≤ T.spare out.old }
    ensures text { T.held out.new ≡ T.held out.old ++ reply_line names.now reply.now }
    ensures short { length (reply_line names.now reply.now) ≤ 264 }
{
    let mut buffer = LineBuf::new();
    line(0, reply, names, &mut buffer);
    // It has at most 266 bytes.
    let _len = buffer.len();
    let (_, text) = buffer.bytes().split_at(2);
    out.push(text);
}
