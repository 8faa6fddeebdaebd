// The words that stand for operations, comparisons and kinds of tables.

ghost use Rattle.std.specs.Prelude.{◌≡◌};
ghost use Rattle.syntax_grammar.specs.Sorts as spec;

use crate::Sort;
use session_values::{Kind, TableKind};
use syntax_trees::Compare;

/// What a statement begins with.
#[derive(Clone, Copy)]
pub enum Start {
    Let,
    Assign(u32),
    Call(Kind),
    If,
    Repeat,
    Reply,
}

/// The operation that a word names.
pub fn operation(sort: Sort) -> Option<Kind>
    ensures { result ≡ spec.operation sort }
{
    match sort {
        Sort::Do(kind) => Some(kind),
        _ => None,
    }
}

/// The comparison that a sign is.
pub fn comparison(sort: Sort) -> Option<Compare>
    ensures { result ≡ spec.comparison sort }
{
    match sort {
        Sort::Compare(compare) => Some(compare),
        _ => None,
    }
}

/// The kind of table that a word begins.
pub fn table_kind(sort: Sort) -> Option<TableKind>
    ensures { result ≡ spec.table_kind sort }
{
    match sort {
        Sort::Table(kind) => Some(kind),
        _ => None,
    }
}

/// The statement that a word begins.
pub fn statement_start(sort: Sort) -> Option<Start>
    ensures { result ≡ spec.statement_start sort }
{
    match sort {
        Sort::Let => Some(Start::Let),
        Sort::Name(name) => Some(Start::Assign(name)),
        Sort::If => Some(Start::If),
        Sort::Repeat => Some(Start::Repeat),
        Sort::Reply => Some(Start::Reply),
        sort => operation(sort).map(Start::Call),
    }
}
