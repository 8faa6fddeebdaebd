// Blocks, and the statements that have blocks of their own.

ghost use Rattle.std.specs.Prelude.{◌≡◌, ◌≤◌, ◌<◌, ◌^◌, ◌∷◌, [], length, OnOk, Some};
ghost use Rattle.session_values.specs.Limits.{max_depth};
ghost use Rattle.syntax_grammar.specs.Words.{first_word};
ghost use Rattle.syntax_grammar.specs.declared.word.Sort.TheVariants as sort;
ghost use Rattle.syntax_grammar.specs.Next.{Inside, a_block, or_else, statements};
ghost use Rattle.syntax_grammar.specs.Phrase as spec;
ghost use Rattle.syntax_grammar.specs.Sorts as sorts;
ghost use Rattle.syntax_grammar.specs.Tree as tree;
ghost use Rattle.syntax_parser.specs.Reads.{Reads, ReadsOneMore};

use crate::input::Input;
use crate::list::list;
use crate::parse_call::{condition, repeat_head};
use crate::parse_stmt::{assignment, call_statement, let_statement, reply_statement};
use crate::parse_words::mark;
use session_values::{Boxed, Listed, MAX_DEPTH};
use std::alloc::Global;
use syntax_grammar::{Sort, Start, SyntaxRefusal, refusal, statement_start};
use syntax_trees::{Block, Stmt};

/// A block inside so many others.
#[cycle(block)]
pub(crate) fn block(
    alloc: Global,
    input: &mut Input<'_>,
    depth: u32,
) -> Result<Block, SyntaxRefusal>
    requires few { length input.old.reader.words < 2 ^ 32 }
    requires depth { depth ≤ max_depth }
    ensures { Reads spec.block_words tree.block_trees (Inside depth) (a_block ∷ []) []
        input.old result input.new }
{
    let word = input.take()?;
    match word.sort {
        Sort::LeftBrace => {
            if depth >= MAX_DEPTH {
                return Err(SyntaxRefusal::TooDeep { at: word.at });
            }
            let body = statements(alloc, input, depth + 1)?;
            mark(input, Sort::RightBrace)?;
            Ok(body)
        }
        _ => Err(refusal(word)),
    }
}

/// The block behind `else`, which is empty where there is none.
#[cycle(block)]
fn otherwise(alloc: Global, input: &mut Input<'_>, depth: u32) -> Result<Block, SyntaxRefusal>
    requires few { length input.old.reader.words < 2 ^ 32 }
    requires depth { depth ≤ max_depth }
    ensures { Reads spec.else_words tree.else_trees (Inside depth) (or_else ∷ []) []
        input.old result input.new }
{
    match input.peek()?.sort {
        Sort::Else => {
            input.take()?;
            let body = block(alloc, input, depth)?;
            Ok(body)
        }
        _ => Ok(Listed::from_vec(Vec::new(alloc))),
    }
}

/// An `if` in hand.
#[cycle(block)]
fn choice(alloc: Global, input: &mut Input<'_>, depth: u32) -> Result<Stmt, SyntaxRefusal>
    requires few { length input.old.reader.words < 2 ^ 32 }
    requires depth { depth ≤ max_depth }
    requires first { (first_word input.old.reader.end input.old.reader.words).sort ≡ sort.If }
    ensures { ReadsOneMore spec.stmt_words tree.stmt_tree (Inside depth) statements
        input.old result input.new }
{
    let word = input.take()?;
    let cond = Boxed::new(alloc, condition(alloc, input)?)?;
    let yes = block(alloc, input, depth)?;
    let no = otherwise(alloc, input, depth)?;
    Ok(Stmt::Choose {
        at: word.at,
        cond,
        yes,
        no,
    })
}

/// A `repeat` in hand.
#[cycle(block)]
fn repetition(alloc: Global, input: &mut Input<'_>, depth: u32) -> Result<Stmt, SyntaxRefusal>
    requires few { length input.old.reader.words < 2 ^ 32 }
    requires depth { depth ≤ max_depth }
    requires first { (first_word input.old.reader.end input.old.reader.words).sort ≡ sort.Repeat }
    ensures { ReadsOneMore spec.stmt_words tree.stmt_tree (Inside depth) statements
        input.old result input.new }
{
    let word = input.take()?;
    let head = repeat_head(input)?;
    let body = block(alloc, input, depth)?;
    Ok(Stmt::Repeat {
        at: word.at,
        turns: head.turns,
        turns_at: head.turns_at,
        name: head.name,
        name_at: head.name_at,
        body,
    })
}

/// A statement whose first word is in hand.
#[cycle(block)]
fn statement(
    alloc: Global,
    input: &mut Input<'_>,
    depth: u32,
    start: Start,
) -> Result<Stmt, SyntaxRefusal>
    requires few { length input.old.reader.words < 2 ^ 32 }
    requires depth { depth ≤ max_depth }
    requires first { sorts.statement_start (first_word input.old.reader.end
        input.old.reader.words).sort ≡ Some start }
    ensures { ReadsOneMore spec.stmt_words tree.stmt_tree (Inside depth) statements
        input.old result input.new }
{
    match start {
        Start::Let => let_statement(alloc, input, depth),
        Start::Assign(name) => assignment(alloc, input, depth, name),
        Start::Call(kind) => call_statement(alloc, input, depth, kind),
        Start::If => choice(alloc, input, depth),
        Start::Repeat => repetition(alloc, input, depth),
        Start::Reply => reply_statement(alloc, input, depth),
    }
}

/// The statements of a block.
#[cycle(block)]
fn statements(alloc: Global, input: &mut Input<'_>, depth: u32) -> Result<Block, SyntaxRefusal>
    requires few { length input.old.reader.words < 2 ^ 32 }
    requires depth { depth ≤ max_depth }
    ensures { Reads spec.stmts_words tree.stmts_trees (Inside depth) (statements ∷ []) []
        input.old result input.new }
{
    let mut items = Vec::new(alloc);
    'statements: loop {
        match statement_start(input.peek()?.sort) {
            Some(start) => {
                let next = statement(alloc, input, depth, start)?;
                items.push(next)?;
            }
            None => return Ok(list(items)),
        }
    }
}
