// A file of handlers.

use crate::stmt::Block;
use session_values::{Listed, TableKind};

pub type TableDecls = Listed<TableDecl>;

pub type Handlers = Listed<Handler>;

pub type Params = Listed<Param>;

/// Tables, then handlers. Names are places in the list of names, and each `at` is a byte place in
/// the source.
#[derive(Debug, Drop)]
pub struct File {
    pub tables: TableDecls,
    pub handlers: Handlers,
}

#[derive(Clone, Copy, Debug, PartialEq, Eq)]
pub struct TableDecl {
    pub kind: TableKind,
    pub name: u32,
    pub at: u32,
}

#[derive(Clone, Copy, Debug, PartialEq, Eq)]
pub struct Param {
    pub name: u32,
    pub at: u32,
}

#[derive(Debug, Drop)]
pub struct Handler {
    pub name: u32,
    pub at: u32,
    pub params: Params,
    pub body: Block,
}
