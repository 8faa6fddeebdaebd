// Operations, right sides, conditions and the head of a repeat.

ghost use Rattle.std.specs.Prelude.{◌≡◌, ◌≤◌, ◌∷◌, []};
ghost use Rattle.syntax_grammar.specs.Next.{Anywhere, Opened, mark, call_parts, more_arguments, a_right, expression, a_compare, a_count, a_name};
ghost use Rattle.syntax_grammar.specs.Phrase as spec;
ghost use Rattle.syntax_grammar.specs.Tree as tree;
ghost use Rattle.syntax_parser.specs.Reads.{Reads};
ghost use Rattle.syntax_grammar.specs.declared.word.Sort.TheVariants as sort;

use crate::input::Input;
use crate::list::list;
use crate::parse_atom::{MAX_NUMBER, atom};
use crate::parse_expr::expression;
use crate::parse_words::{mark, name};
use session_values::Kind;
use std::alloc::Global;
use syntax_grammar::{Sort, SyntaxRefusal, Turns, comparison, operation, refusal};
use syntax_trees::{Atoms, Call, Compare, Cond, Right};

/// At most two arguments, each behind a comma.
fn arguments(alloc: Global, input: &mut Input<'_>) -> Result<Atoms, SyntaxRefusal>
    ensures { Reads spec.arguments_words tree.arguments_trees Anywhere
        (more_arguments 2 ∷ []) [] input.old result input.new }
{
    let mut items = Vec::with_capacity(alloc, 2)?;
    for turn in 0..2u32 {
        match input.peek()?.sort {
            Sort::Comma => {
                input.take()?;
                let argument = atom(input)?;
                items.push(argument)?;
            }
            _ => return Ok(list(items)),
        }
    }
    Ok(list(items))
}

/// What follows the word of an operation, which stands at this place.
pub(crate) fn operands(
    alloc: Global,
    input: &mut Input<'_>,
    kind: Kind,
    at: u32,
) -> Result<Call, SyntaxRefusal>
    ensures { Reads spec.operands_words (tree.call_of kind at) Anywhere call_parts []
        input.old result input.new }
{
    mark(input, Sort::LeftParen)?;
    let (table, table_at) = name(input)?;
    let args = arguments(alloc, input)?;
    mark(input, Sort::RightParen)?;
    Ok(Call {
        kind,
        at,
        table,
        table_at,
        args,
    })
}

/// What stands behind `=`.
pub(crate) fn right_side(alloc: Global, input: &mut Input<'_>) -> Result<Right, SyntaxRefusal>
    ensures { Reads spec.right_words tree.right_tree (Opened 0) (a_right ∷ []) [] input.old
        result input.new }
{
    let word = input.peek()?;
    match operation(word.sort) {
        Some(kind) => {
            input.take()?;
            // No expression is open here.
            input.signs = 0;
            let call = operands(alloc, input, kind, word.at)?;
            Ok(Right::Result(call))
        }
        None => {
            let value = expression(alloc, input)?;
            Ok(Right::Plain(value))
        }
    }
}

/// A comparison's sign, with its place.
fn compare_sign(input: &mut Input<'_>) -> Result<(Compare, u32), SyntaxRefusal>
    ensures { Reads spec.compare_words (λ c. c) Anywhere (a_compare ∷ []) [] input.old result
        input.new }
{
    let word = input.take()?;
    match comparison(word.sort) {
        Some(compare) => Ok((compare, word.at)),
        None => Err(refusal(word)),
    }
}

/// Two expressions that are compared.
pub(crate) fn condition(alloc: Global, input: &mut Input<'_>) -> Result<Cond, SyntaxRefusal>
    ensures { Reads spec.cond_words tree.cond_tree (Opened 0)
        (expression ∷ a_compare ∷ expression ∷ []) [] input.old result input.new }
{
    let left = expression(alloc, input)?;
    let (compare, _) = compare_sign(input)?;
    let right = expression(alloc, input)?;
    Ok(Cond {
        compare,
        left,
        right,
    })
}

/// How often a repeat runs, with the number's place.
fn turn_count(input: &mut Input<'_>) -> Result<(u64, u32), SyntaxRefusal>
    ensures { Reads spec.number_words tree.count_of Anywhere (a_count ∷ []) [] input.old
        result input.new }
{
    let word = input.take()?;
    match word.sort {
        Sort::Number(value) => {
            if value > MAX_NUMBER {
                return Err(SyntaxRefusal::NumberTooLarge { at: word.at });
            }
            Ok((value, word.at))
        }
        _ => Err(refusal(word)),
    }
}

/// What stands between `repeat` and its block.
pub(crate) fn repeat_head(input: &mut Input<'_>) -> Result<Turns, SyntaxRefusal>
    ensures { Reads spec.turns_words tree.turns_of Anywhere
        (a_count ∷ mark sort.As ∷ a_name ∷ []) [] input.old result input.new }
{
    let (turns, turns_at) = turn_count(input)?;
    mark(input, Sort::As)?;
    let (name, name_at) = name(input)?;
    Ok(Turns {
        turns,
        turns_at,
        name,
        name_at,
    })
}
