//! The handler language: its tokens, its trees, its parser and its printer.
#![tactic(auto)]

mod again;
mod file;
pub mod laws;
mod printing;
mod reading;

pub use again::reprint;
pub use file::File;
pub use printing::print;
pub use reading::parse;
pub use syntax_grammar::{Token, TokenKind, Tokens};
pub use syntax_parser::SyntaxRefusal;
pub use syntax_printer::{
    Declarations, is_countable, print as print_tree, print_with_declarations, put_canonical,
};
pub use syntax_trees::{
    Atom, Atoms, Block, Calc, Call, Compare, Cond, Expr, Exprs, File as Tree, Handler, Handlers,
    Param, Params, Right, Stmt, TableDecl, TableDecls,
};
