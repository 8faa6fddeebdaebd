// Statements without a block of their own.

ghost use Rattle.std.specs.Prelude.{◌≡◌, ◌≤◌, ◌<◌, ◌∷◌, [], length, OnOk, Some};
ghost use Rattle.syntax_grammar.specs.Words.{first_word};
ghost use Rattle.syntax_grammar.specs.declared.word.Sort.TheVariants as sort;
ghost use Rattle.syntax_grammar.specs.Next.{Opened, Inside, expression, more_values, statements};
ghost use Rattle.syntax_grammar.specs.Phrase as spec;
ghost use Rattle.syntax_grammar.specs.Sorts as sorts;
ghost use Rattle.syntax_grammar.specs.Tree as tree;
ghost use Rattle.syntax_parser.specs.Reads.{Reads, ReadsOneMore};

use crate::input::Input;
use crate::list::list;
use crate::parse_call::{operands, right_side};
use crate::parse_expr::expression;
use crate::parse_words::{mark, name};
use session_values::Kind;
use std::alloc::Global;
use syntax_grammar::{Sort, SyntaxRefusal};
use syntax_trees::{Exprs, Stmt};

/// A `let` statement in hand.
pub(crate) fn let_statement(
    alloc: Global,
    input: &mut Input<'_>,
    depth: u32,
) -> Result<Stmt, SyntaxRefusal>
    requires { (first_word input.old.reader.end input.old.reader.words).sort ≡ sort.Let }
    ensures { ReadsOneMore spec.stmt_words tree.stmt_tree (Inside depth) statements
        input.old result input.new }
{
    input.take()?;
    let (name, at) = name(input)?;
    mark(input, Sort::Assign)?;
    let right = right_side(alloc, input)?;
    mark(input, Sort::Semicolon)?;
    Ok(Stmt::Let { name, at, right })
}

/// An assignment to the name in hand.
pub(crate) fn assignment(
    alloc: Global,
    input: &mut Input<'_>,
    depth: u32,
    name: u32,
) -> Result<Stmt, SyntaxRefusal>
    requires { (first_word input.old.reader.end input.old.reader.words).sort ≡ sort.Name name }
    ensures { ReadsOneMore spec.stmt_words tree.stmt_tree (Inside depth) statements
        input.old result input.new }
{
    let word = input.take()?;
    mark(input, Sort::Assign)?;
    let right = right_side(alloc, input)?;
    mark(input, Sort::Semicolon)?;
    Ok(Stmt::Assign {
        name,
        at: word.at,
        right,
    })
}

/// An operation in hand whose result is dropped.
pub(crate) fn call_statement(
    alloc: Global,
    input: &mut Input<'_>,
    depth: u32,
    kind: Kind,
) -> Result<Stmt, SyntaxRefusal>
    requires { sorts.operation (first_word input.old.reader.end input.old.reader.words).sort ≡ Some
        kind }
    ensures { ReadsOneMore spec.stmt_words tree.stmt_tree (Inside depth) statements
        input.old result input.new }
{
    let word = input.take()?;
    let call = operands(alloc, input, kind, word.at)?;
    mark(input, Sort::Semicolon)?;
    Ok(Stmt::Perform { call })
}

/// The one to four values of a reply.
fn values(alloc: Global, input: &mut Input<'_>) -> Result<Exprs, SyntaxRefusal>
    ensures { Reads spec.values_words tree.values_trees (Opened 0)
        (expression ∷ more_values 3 ∷ []) [] input.old result input.new }
{
    let first = expression(alloc, input)?;
    let mut values = vec![in alloc; first]?;
    for turn in 0..3u32 {
        match input.peek()?.sort {
            Sort::Comma => {
                input.take()?;
                let value = expression(alloc, input)?;
                values.push(value)?;
            }
            _ => return Ok(list(values)),
        }
    }
    Ok(list(values))
}

/// A `reply` statement in hand.
pub(crate) fn reply_statement(
    alloc: Global,
    input: &mut Input<'_>,
    depth: u32,
) -> Result<Stmt, SyntaxRefusal>
    requires { (first_word input.old.reader.end input.old.reader.words).sort ≡ sort.Reply }
    ensures { ReadsOneMore spec.stmt_words tree.stmt_tree (Inside depth) statements
        input.old result input.new }
{
    let word = input.take()?;
    let values = values(alloc, input)?;
    mark(input, Sort::Semicolon)?;
    Ok(Stmt::Answer {
        at: word.at,
        values,
    })
}
