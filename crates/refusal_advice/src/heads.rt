// What a text of handlers declares.

ghost use Rattle.std.specs.Prelude.{◌≤◌, length};
ghost use Rattle.session_values.specs.Limits.{max_input};

use session_values::NoMemory;
use std::alloc::Global;
use syntax_grammar::{Token, TokenKind, Tokens};

/// What a name is declared as.
#[derive(Clone, Copy, Debug, PartialEq, Eq)]
pub(crate) enum Declared {
    Map,
    Set,
    Handler,
}

/// A table or a handler.
#[derive(Clone, Copy, Debug)]
pub(crate) struct Head<'a> {
    pub(crate) name: &'a str,
    pub(crate) declared: Declared,
    /// The byte place of the name.
    pub(crate) at: u32,
    /// How many parameters it has.
    pub(crate) params: u32,
}

/// The head that begins with a name behind this token.
fn begun<'a>(last: &str, token: Token<'a>) -> Option<Head<'a>> {
    let declared = match last {
        "map" => Declared::Map,
        "set" => Declared::Set,
        "handler" => Declared::Handler,
        _ => return None,
    };
    Some(Head {
        name: token.text,
        declared,
        at: token.start,
        params: 0,
    })
}

/// All tables and handlers that a text declares, in their order.
pub(crate) fn heads(alloc: Global, source: &str) -> Result<Vec<Head<'_>>, NoMemory>
    requires { length source.now ≤ max_input }
{
    let mut heads: Vec<Head<'_>> = Vec::new(alloc);
    let mut last = "";
    let mut in_head = false;
    for token in Tokens::over(source) {
        if token.kind == TokenKind::Name {
            match begun(last, token) {
                Some(head) => {
                    in_head = head.declared == Declared::Handler;
                    heads.push(head)?;
                }
                None if in_head => {
                    if let Some(head) = heads.last_mut() {
                        head.params = head.params.saturating_add(1);
                    }
                }
                None => {}
            }
        }
        in_head = in_head && token.text != "{";
        last = token.text;
    }
    Ok(heads)
}

/// The first of these with this name, if there is one.
pub(crate) fn head_of<'a>(heads: &[Head<'a>], name: &str, handler: bool) -> Option<Head<'a>> {
    for head in heads {
        if head.name == name && (head.declared == Declared::Handler) == handler {
            return Some(*head);
        }
    }
    None
}

/// How many are handlers, or tables.
pub(crate) fn count(heads: &[Head<'_>], handler: bool) -> u32 {
    let mut count: u32 = 0;
    for head in heads {
        if (head.declared == Declared::Handler) == handler {
            count = count.saturating_add(1);
        }
    }
    count
}

/// The byte place behind the last handler, which is the first token that begins neither a table
/// nor a handler where one should, or the end.
pub(crate) fn end_of_handlers(source: &str) -> Option<u32>
    requires { length source.now ≤ max_input }
{
    let mut depth: u32 = 0;
    let mut ended = true;
    for token in Tokens::over(source) {
        if ended && !matches!(token.text, "map" | "set" | "handler" | "") {
            return Some(token.start);
        }
        match token.text {
            "{" => depth = depth.saturating_add(1),
            "}" => depth = depth.saturating_sub(1),
            _ => {}
        }
        ended = depth == 0 && matches!(token.text, ";" | "}");
    }
    None
}
