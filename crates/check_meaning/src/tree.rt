// Handlers with their names resolved.

use session_values::{Boxed, Kind, Listed, Value};
use syntax_trees::{Calc, Compare};

/// The names of a handler's variables, as places in the list of names, by the variables' numbers.
pub type VarNames = Listed<u32>;

pub type CheckedBlock = Listed<CheckedStmt>;

pub type CheckedExprs = Listed<CheckedExpr>;

/// A literal, or a variable by its number.
#[derive(Clone, Copy, Debug, PartialEq, Eq)]
pub enum CheckedAtom {
    Lit(Value),
    Var(u32),
}

/// An operation. An argument that its kind doesn't have is the literal nil.
#[derive(Clone, Copy, Debug, PartialEq, Eq)]
pub struct CheckedCall {
    pub kind: Kind,
    /// The table's number, from 0 in the order of the file.
    pub table: u32,
    pub key: CheckedAtom,
    pub value: CheckedAtom,
}

/// An expression.
#[derive(Debug, Drop)]
pub enum CheckedExpr {
    Leaf(CheckedAtom),
    Binary {
        calc: Calc,
        left: Boxed<CheckedExpr>,
        right: Boxed<CheckedExpr>,
    },
}

/// A condition: a comparison of two expressions.
#[derive(Debug, Drop)]
pub struct CheckedCond {
    pub compare: Compare,
    pub left: CheckedExpr,
    pub right: CheckedExpr,
}

/// A statement. Each `at` is a byte place in the source, each point a number of the handler's
/// points, which are counted from 0 in the order of the text.
#[derive(Debug, Drop)]
pub enum CheckedStmt {
    /// Gives a variable a value.
    Store {
        var: u32,
        right: CheckedExpr,
    },
    /// Does an operation, and keeps its reply in the variable, if one is named. The point stands
    /// behind it.
    Perform {
        at: u32,
        point: u32,
        var: Option<u32>,
        call: CheckedCall,
    },
    /// Does one of two blocks, at whose starts the two points stand.
    Choose {
        at: u32,
        yes_point: u32,
        no_point: u32,
        cond: CheckedCond,
        yes: CheckedBlock,
        no: CheckedBlock,
    },
    /// Does a block so many times, with the turn's number from 0 in the variable. The point stands
    /// behind it.
    Repeat {
        at: u32,
        point: u32,
        turns: u32,
        var: u32,
        body: CheckedBlock,
    },
    /// Ends the handler with 1 to 4 values.
    Answer {
        values: CheckedExprs,
    },
}

/// A handler. Its parameters are its first variables.
#[derive(Debug, Drop)]
pub struct CheckedHandler {
    /// The handler's name, as a place in the list of names.
    pub name: u32,
    /// The byte place of its name.
    pub at: u32,
    pub params: u32,
    /// How many points it has; its entry is point 0.
    pub points: u32,
    pub variables: VarNames,
    pub body: CheckedBlock,
}
