//! The parser of a file of handlers, for the whole language. It makes no list of words or tokens;
//! it is proved against a stack of parts still to come, and laws tie that to the grammar.
#![tactic(auto)]

mod file;
mod input;
mod list;
mod parse_atom;
mod parse_block;
mod parse_call;
mod parse_expr;
mod parse_handler;
mod parse_stmt;
mod parse_table;
mod parse_words;

pub use file::parse;
pub use syntax_grammar::SyntaxRefusal;
pub use syntax_trees::{
    Atom, Atoms, Block, Calc, Call, Compare, Cond, Expr, Exprs, File, Handler, Handlers, Param,
    Params, Right, Stmt, TableDecl, TableDecls,
};
