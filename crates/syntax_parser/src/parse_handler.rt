// Handlers and their parameters.

ghost use Rattle.std.specs.Prelude.{◌≡◌, ◌≤◌, ◌<◌, ◌^◌, ◌∷◌, [], length, OnOk};
ghost use Rattle.syntax_grammar.specs.Words.{first_word};
ghost use Rattle.syntax_grammar.specs.declared.word.Sort.TheVariants as sort;
ghost use Rattle.syntax_grammar.specs.Next.{Anywhere, Inside, a_name, first_param, more_params, handlers};
ghost use Rattle.syntax_grammar.specs.Phrase as spec;
ghost use Rattle.syntax_grammar.specs.Tree as tree;
ghost use Rattle.syntax_parser.specs.Reads.{Reads, ReadsOneMore};

use crate::input::Input;
use crate::list::list;
use crate::parse_block::block;
use crate::parse_words::{mark, name};
use session_values::Listed;
use std::alloc::Global;
use syntax_grammar::{Sort, SyntaxRefusal};
use syntax_trees::{Handler, Handlers, Param, Params};

/// One parameter, and those behind it.
fn some_params(alloc: Global, input: &mut Input<'_>) -> Result<Params, SyntaxRefusal>
    requires { length input.old.reader.words < 2 ^ 32 }
    ensures { Reads spec.some_params_words tree.some_params_trees Anywhere
        (a_name ∷ more_params ∷ []) [] input.old result input.new }
{
    let (first, first_at) = name(input)?;
    let mut params = vec![in alloc;
        Param {
            name: first,
            at: first_at
        },
    ]?;
    'params: loop {
        match input.peek()?.sort {
            Sort::Comma => {
                input.take()?;
                let (name, at) = name(input)?;
                params.push(Param { name, at })?;
            }
            _ => return Ok(list(params)),
        }
    }
}

fn params(alloc: Global, input: &mut Input<'_>) -> Result<Params, SyntaxRefusal>
    requires { length input.old.reader.words < 2 ^ 32 }
    ensures { Reads spec.params_words tree.params_trees Anywhere (first_param ∷ []) []
        input.old result input.new }
{
    match input.peek()?.sort {
        Sort::Name(_) => {
            let params = some_params(alloc, input)?;
            Ok(params)
        }
        _ => Ok(Listed::from_vec(Vec::new(alloc))),
    }
}

/// A handler in hand.
fn handler(alloc: Global, input: &mut Input<'_>) -> Result<Handler, SyntaxRefusal>
    requires few { length input.old.reader.words < 2 ^ 32 }
    requires first { (first_word input.old.reader.end input.old.reader.words).sort ≡ sort.Handler }
    ensures { ReadsOneMore spec.handler_words tree.handler_tree (Inside 0) handlers
        input.old result input.new }
{
    input.take()?;
    let (name, at) = name(input)?;
    mark(input, Sort::LeftParen)?;
    let params = params(alloc, input)?;
    mark(input, Sort::RightParen)?;
    let body = block(alloc, input, 0)?;
    Ok(Handler {
        name,
        at,
        params,
        body,
    })
}

/// The handlers of a file.
pub(crate) fn handlers(alloc: Global, input: &mut Input<'_>) -> Result<Handlers, SyntaxRefusal>
    requires { length input.old.reader.words < 2 ^ 32 }
    ensures { Reads spec.handlers_words tree.handlers_trees (Inside 0) (handlers ∷ []) []
        input.old result input.new }
{
    let mut items = Vec::new(alloc);
    'handlers: loop {
        match input.peek()?.sort {
            Sort::Handler => {
                let next = handler(alloc, input)?;
                items.push(next)?;
            }
            _ => return Ok(list(items)),
        }
    }
}
