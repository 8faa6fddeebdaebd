// The variables of a handler at a place.

ghost use Rattle.std.specs.Prelude.{◌≤◌, length};
ghost use Rattle.session_values.specs.Limits.{max_input};

use session_values::NoMemory;
use std::alloc::Global;
use syntax_grammar::{Token, TokenKind, Tokens};

/// A variable, a parameter or the name of a loop's turn.
#[derive(Clone, Copy, Debug)]
pub(crate) struct Variable<'a> {
    pub(crate) name: &'a str,
    /// The byte place of its declaration.
    pub(crate) at: u32,
    /// Whether it was declared by `let`.
    pub(crate) by_let: bool,
    /// In how many blocks that stands, the handler's own being the first.
    depth: u32,
}

/// The variables that a handler has declared before a place.
#[derive(Drop)]
pub(crate) struct Scope<'a> {
    /// Those that are visible there, in the order of their declarations.
    pub(crate) visible: Vec<Variable<'a>>,
    /// Those whose block has ended.
    pub(crate) ended: Vec<Variable<'a>>,
    /// The one whose `let` isn't at its end.
    pending: Option<Variable<'a>>,
    depth: u32,
    /// Whether the place is between `handler` and the block.
    in_head: bool,
}

impl<'a> Scope<'a> {
    /// Before all handlers.
    fn new(alloc: Global) -> Scope<'a> {
        Scope {
            visible: Vec::new(alloc),
            ended: Vec::new(alloc),
            pending: None,
            depth: 0,
            in_head: false,
        }
    }

    /// Goes on behind a name, which stands behind another token.
    fn pass_name(&mut self, last: &str, token: Token<'a>) -> Result<(), NoMemory> {
        let inner = Variable {
            name: token.text,
            at: token.start,
            by_let: false,
            depth: self.depth.saturating_add(1),
        };
        if last == "let" {
            self.pending = Some(Variable {
                by_let: true,
                depth: self.depth,
                ..inner
            });
        } else if last == "as" || (self.in_head && (last == "(" || last == ",")) {
            self.visible.push(inner)?;
        }
        Ok(())
    }

    /// Ends the block that was begun last.
    fn end_block(&mut self) -> Result<(), NoMemory> {
        for _ in 0..self.visible.len() {
            match self.visible.pop() {
                Some(variable) if variable.depth < self.depth => {
                    self.visible.push(variable)?;
                    break;
                }
                Some(variable) => self.ended.push(variable)?,
                None => break,
            }
        }
        self.depth = self.depth.saturating_sub(1);
        Ok(())
    }

    /// Goes on behind another token.
    fn pass_mark(&mut self, text: &str) -> Result<(), NoMemory> {
        match text {
            "handler" => {
                self.visible.clear();
                self.ended.clear();
                self.pending = None;
                self.depth = 0;
                self.in_head = true;
            }
            "{" => {
                self.in_head = false;
                self.depth = self.depth.saturating_add(1);
            }
            "}" => self.end_block()?,
            ";" => {
                if let Some(variable) = self.pending {
                    self.visible.push(variable)?;
                }
                self.pending = None;
            }
            _ => {}
        }
        Ok(())
    }

    /// The first declaration of this name, and whether its block has ended.
    pub(crate) fn declared(&self, name: &str) -> Option<(Variable<'a>, bool)> {
        let open = first_of(self.visible.as_slice(), name);
        match (open, first_of(self.ended.as_slice(), name)) {
            (Some(open), Some(ended)) if open.at < ended.at => Some((open, false)),
            (_, Some(ended)) => Some((ended, true)),
            (Some(open), None) => Some((open, false)),
            (None, None) => None,
        }
    }
}

/// The first of these declarations with this name.
fn first_of<'a>(variables: &[Variable<'a>], name: &str) -> Option<Variable<'a>> {
    let mut first: Option<Variable<'a>> = None;
    for variable in variables {
        if variable.name == name {
            first = match first {
                Some(before) if before.at < variable.at => Some(before),
                _ => Some(*variable),
            };
        }
    }
    first
}

/// What the handler around a byte place of a text of handlers has declared before it.
pub(crate) fn scope_at(alloc: Global, source: &str, at: u32) -> Result<Scope<'_>, NoMemory>
    requires { length source.now ≤ max_input }
{
    let mut scope = Scope::new(alloc);
    let mut last = "";
    for token in Tokens::over(source) {
        if token.start >= at {
            return Ok(scope);
        }
        match token.kind {
            TokenKind::Name => scope.pass_name(last, token)?,
            _ => scope.pass_mark(token.text)?,
        }
        last = token.text;
    }
    Ok(scope)
}
