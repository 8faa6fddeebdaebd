// Statements of a file of handlers.

use crate::expr::{Atoms, Expr, Exprs};
use session_values::{Boxed, Kind, Listed};

pub type Block = Listed<Stmt>;

/// A statement. Names are places in the list of names, and each `at` is a byte place in the source.
#[derive(Debug, Drop)]
pub enum Stmt {
    /// A new variable.
    Let {
        name: u32,
        at: u32,
        right: Right,
    },
    /// A variable that is there.
    Assign {
        name: u32,
        at: u32,
        right: Right,
    },
    /// An operation whose result is dropped.
    Perform {
        call: Call,
    },
    /// One of two blocks. The condition is boxed, since no other statement is as large as the two
    /// would be with it.
    Choose {
        at: u32,
        cond: Boxed<Cond>,
        yes: Block,
        no: Block,
    },
    /// The body so many times, with the turn's number from 0 in the named variable.
    Repeat {
        at: u32,
        turns: u64,
        turns_at: u32,
        name: u32,
        name_at: u32,
        body: Block,
    },
    /// The reply, which ends the handler.
    Answer {
        at: u32,
        values: Exprs,
    },
}

/// The right side of `=`.
#[derive(Debug, Drop)]
pub enum Right {
    Plain(Expr),
    Result(Call),
}

/// An operation on a table, with its arguments as written.
#[derive(Debug, Drop)]
pub struct Call {
    pub kind: Kind,
    pub at: u32,
    pub table: u32,
    pub table_at: u32,
    pub args: Atoms,
}

#[derive(Clone, Copy, Debug, PartialEq, Eq)]
pub enum Compare {
    Same,
    Differ,
    Less,
    LessOrSame,
}

#[derive(Debug, Drop)]
pub struct Cond {
    pub compare: Compare,
    pub left: Expr,
    pub right: Expr,
}
