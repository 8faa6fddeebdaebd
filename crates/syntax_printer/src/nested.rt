// Statements that hold blocks.

use syntax_trees::{Cond, Stmt};

/// What an `if` is made of: its condition, and the blocks of both answers.
#[derive(Clone, Copy)]
pub(crate) struct Choice<'a> {
    pub(crate) cond: &'a Cond,
    pub(crate) yes: &'a [Stmt],
    pub(crate) no: &'a [Stmt],
}

/// What a `repeat` is made of: how often it goes round, its variable, and its block.
#[derive(Clone, Copy)]
pub(crate) struct Repeat<'a> {
    pub(crate) turns: u64,
    pub(crate) name: u32,
    pub(crate) body: &'a [Stmt],
}
