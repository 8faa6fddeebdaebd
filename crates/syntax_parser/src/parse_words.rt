// Single words of the grammar.

ghost use Rattle.std.specs.Prelude.{◌≡◌, ◌≤◌, ◌∷◌, [], Some, is_some};
ghost use Rattle.syntax_grammar.specs.Next.{Anywhere, mark, mark_row, a_name};
ghost use Rattle.syntax_grammar.specs.Phrase as spec;
ghost use Rattle.syntax_grammar.specs.Tree.{name_of};
ghost use Rattle.syntax_parser.specs.Reads.{Reads};

use crate::input::Input;
use syntax_grammar::{Sort, SyntaxRefusal, refusal};

#[tactic(auto, using(syntax_grammar::proofs::Rows::mark_none))]
fn is_mark(sort: Sort, mark: Sort) -> bool
    ensures { result ≡ is_some (mark_row mark sort) }
{
    match mark {
        Sort::Semicolon => matches!(sort, Sort::Semicolon),
        Sort::Assign => matches!(sort, Sort::Assign),
        Sort::LeftParen => matches!(sort, Sort::LeftParen),
        Sort::RightParen => matches!(sort, Sort::RightParen),
        Sort::RightBrace => matches!(sort, Sort::RightBrace),
        Sort::As => matches!(sort, Sort::As),
        _ => false,
    }
}

/// The place of one given word.
pub(crate) fn mark(input: &mut Input<'_>, sort: Sort) -> Result<u32, SyntaxRefusal>
    requires { mark_row sort sort ≡ Some [] }
    ensures { Reads (spec.mark_words sort) (λ at. at) Anywhere (mark sort ∷ []) [] input.old
        result input.new }
{
    let word = input.take()?;
    if is_mark(word.sort, sort) {
        Ok(word.at)
    } else {
        Err(refusal(word))
    }
}

/// A name's place in the list of names, and its place in the source.
pub(crate) fn name(input: &mut Input<'_>) -> Result<(u32, u32), SyntaxRefusal>
    ensures { Reads spec.name_words name_of Anywhere (a_name ∷ []) [] input.old result
        input.new }
{
    let word = input.take()?;
    match word.sort {
        Sort::Name(name) => Ok((name, word.at)),
        _ => Err(refusal(word)),
    }
}
