// The replies that are kept of tickets.

ghost use Rattle.std.specs.Prelude.{◌≡◌, ◌<◌, Some, None, IsSome, IfOk, length, map, replicate, slice_index_or, slice_set};
ghost use Rattle.std.specs.List.{AllByRecursion};

use session_values::{Listed, NoMemory, Reply, Value};
use std::alloc::Global;
use std::marker::Model;

/// The replies of all tickets, in their order.
pub type Replies = Listed<Reply>;

/// For each ticket of a script the reply with which it ended, or none until then. The replies stand
/// side by side, so that they are handed out as they are; one of nil stands in for each to come.
#[derive(Drop)]
pub(crate) struct KeptReplies {
    replies: Vec<Reply>,
    ended: Vec<bool>,
}

impl Model for KeptReplies {
    ghost use Rattle.std.specs.Prelude.{◌≡◌, ◌<◌, ◌^◌, List, Option, length};
    ghost use Rattle.session_values.specs.declared.reply.Reply.{Reply as AnyReply};
    ghost use Rattle.admission_book.specs.KeptReplies.{kept_list};

    ghost Value = { List (Option AnyReply) };

    ghost view = { λ k. kept_list k.ended.items k.replies.items };

    ghost invariant = { λ k. (length k.ended.items ≡ length k.replies.items)
        × (length k.replies.items < 2 ^ 32) };
}

impl KeptReplies {
    /// Those of so many tickets of which none has ended.
    pub(crate) fn none(alloc: Global, tickets: u32) -> Result<KeptReplies, NoMemory>
        ensures { IfOk result (λ k. k ≡ replicate tickets None) }
    {
        let nil = Reply::new(1, Value::Nil, Value::Nil, Value::Nil, Value::Nil);
        let replies = vec![in alloc; nil; tickets as usize]?;
        let ended = vec![in alloc; false; tickets as usize]?;
        Ok(KeptReplies { replies, ended })
    }

    /// Keeps the reply of a ticket.
    pub(crate) fn keep(&mut self, t: u32, reply: Reply)
        requires { t < length self.old }
        ensures { self.new ≡ slice_set self.old t (Some reply) }
    {
        self.replies[t as usize] = reply;
        self.ended[t as usize] = true;
    }

    /// The reply that is kept of a ticket, if there is one.
    pub(crate) fn reply(&self, t: u32) -> Option<Reply>
        ensures { result ≡ slice_index_or self.now t None }
    {
        let at = t as usize;
        if at >= self.ended.len() {
            return None;
        }
        if !self.ended[at] {
            return None;
        }
        Some(self.replies[at])
    }

    /// All of them, where each ticket has ended.
    pub(crate) fn all(self) -> Replies
        requires { AllByRecursion (λ r. IsSome r) self }
        ensures { map (λ r. Some r) result ≡ self }
    {
        let KeptReplies { replies, ended: _ } = self;
        Listed::from_vec(replies)
    }
}
