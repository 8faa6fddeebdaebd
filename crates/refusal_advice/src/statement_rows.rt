// What is left of tables, handlers, blocks and statements behind a word.

ghost use Rattle.std.specs.Prelude.{◌≡◌};
ghost use Rattle.syntax_grammar.specs.Next as next;
ghost use Rattle.syntax_grammar.specs.Sorts as sorts;
ghost use Rattle.refusal_advice.specs.Parts.{IsRow};

use crate::part::Part;
use crate::word_rows::ALONE;
use syntax_grammar::{Sort, Start, comparison, statement_start, table_kind};

const TABLE: [Part; 3] = [Part::Tables, Part::Semicolon, Part::Name];

const HANDLER: [Part; 6] = [
    Part::Handlers,
    Part::Block,
    Part::RightParen,
    Part::FirstParam,
    Part::LeftParen,
    Part::Name,
];

const MORE_PARAMS: [Part; 1] = [Part::MoreParams];

const IN_BLOCK: [Part; 2] = [Part::RightBrace, Part::Statements];

const BLOCK: [Part; 1] = [Part::Block];

const LET: [Part; 5] = [
    Part::Statements,
    Part::Semicolon,
    Part::Right,
    Part::Assign,
    Part::Name,
];

const ASSIGN: [Part; 4] = [Part::Statements, Part::Semicolon, Part::Right, Part::Assign];

const CALL: [Part; 6] = [
    Part::Statements,
    Part::Semicolon,
    Part::RightParen,
    Part::TwoArguments,
    Part::Name,
    Part::LeftParen,
];

const IF: [Part; 6] = [
    Part::Statements,
    Part::OrElse,
    Part::Block,
    Part::Expression,
    Part::Compare,
    Part::Expression,
];

const REPEAT: [Part; 5] = [
    Part::Statements,
    Part::Block,
    Part::Name,
    Part::As,
    Part::Count,
];

const REPLY: [Part; 4] = [
    Part::Statements,
    Part::Semicolon,
    Part::ThreeValues,
    Part::Expression,
];

pub(crate) fn handlers_row(sort: Sort) -> Option<&'static [Part]>
    ensures { IsRow (next.handlers_row sort) result }
{
    match sort {
        Sort::Handler => Some(&HANDLER),
        _ => None,
    }
}

pub(crate) fn first_param_row(sort: Sort) -> Option<&'static [Part]>
    ensures { IsRow (next.first_param_row sort) result }
{
    match sort {
        Sort::Name(_) => Some(&MORE_PARAMS),
        _ => None,
    }
}

pub(crate) fn block_row(sort: Sort) -> Option<&'static [Part]>
    ensures { IsRow (next.block_row sort) result }
{
    match sort {
        Sort::LeftBrace => Some(&IN_BLOCK),
        _ => None,
    }
}

pub(crate) fn else_row(sort: Sort) -> Option<&'static [Part]>
    ensures { IsRow (next.else_row sort) result }
{
    match sort {
        Sort::Else => Some(&BLOCK),
        _ => None,
    }
}

pub(crate) fn tables_row(sort: Sort) -> Option<&'static [Part]>
    ensures { IsRow (next.where_table (sorts.table_kind sort)) result }
{
    match table_kind(sort) {
        Some(_) => Some(&TABLE),
        None => None,
    }
}

pub(crate) fn compare_row(sort: Sort) -> Option<&'static [Part]>
    ensures { IsRow (next.where_comparison (sorts.comparison sort)) result }
{
    match comparison(sort) {
        Some(_) => Some(&ALONE),
        None => None,
    }
}

pub(crate) fn statement_row(sort: Sort) -> Option<&'static [Part]>
    ensures { IsRow (next.where_statement (sorts.statement_start sort)) result }
{
    match statement_start(sort) {
        Some(Start::Let) => Some(&LET),
        Some(Start::Assign(_)) => Some(&ASSIGN),
        Some(Start::Call(_)) => Some(&CALL),
        Some(Start::If) => Some(&IF),
        Some(Start::Repeat) => Some(&REPEAT),
        Some(Start::Reply) => Some(&REPLY),
        None => None,
    }
}
