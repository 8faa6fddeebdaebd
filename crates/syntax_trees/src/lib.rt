//! The tree of a file of handlers.
#![tactic(auto)]

mod expr;
mod file;
mod literal;
mod stmt;

pub use expr::{Atom, Atoms, Calc, Expr, Exprs};
pub use file::{File, Handler, Handlers, Param, Params, TableDecl, TableDecls};
pub use literal::Literal;
pub use stmt::{Block, Call, Compare, Cond, Right, Stmt};
