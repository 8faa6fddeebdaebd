//! Handlers with their names resolved, and what they do: the dialogue of a handler with the tables,
//! the points that it passes, and the bounds by its text.
#![tactic(auto)]

pub mod laws;
mod tree;

pub use tree::{
    CheckedAtom, CheckedBlock, CheckedCall, CheckedCond, CheckedExpr, CheckedExprs, CheckedHandler,
    CheckedStmt, VarNames,
};
