// Literals and names where a value stands.

ghost use Rattle.std.specs.Prelude.{◌≡◌, ◌≤◌, ◌∷◌, []};
ghost use Rattle.syntax_grammar.specs.Next.{Anywhere, an_atom, after_minus};
ghost use Rattle.syntax_grammar.specs.Phrase as spec;
ghost use Rattle.syntax_grammar.specs.Tree.{atom_tree, negative_of};
ghost use Rattle.syntax_parser.specs.Reads.{Reads};

use crate::input::Input;
use session_values::Value;
use syntax_grammar::{Sort, SyntaxRefusal, refusal};
use syntax_trees::{Atom, Literal};

pub(crate) const MAX_NUMBER: u64 = 9_223_372_036_854_775_807;

const MAX_NEGATIVE: u64 = 9_223_372_036_854_775_808;

/// The number behind a literal's minus.
fn negative(input: &mut Input<'_>) -> Result<i64, SyntaxRefusal>
    ensures { Reads spec.number_words negative_of Anywhere (after_minus ∷ []) [] input.old
        result input.new }
{
    let word = input.take()?;
    match word.sort {
        Sort::Number(value) => {
            if value > MAX_NEGATIVE {
                return Err(SyntaxRefusal::NumberTooLarge { at: word.at });
            }
            Ok(if value > MAX_NUMBER {
                i64::MIN
            } else {
                -(value as i64)
            })
        }
        _ => Err(refusal(word)),
    }
}

pub(crate) fn atom(input: &mut Input<'_>) -> Result<Atom, SyntaxRefusal>
    ensures { Reads spec.atom_words atom_tree Anywhere (an_atom ∷ []) [] input.old result
        input.new }
{
    let word = input.take()?;
    match word.sort {
        Sort::Name(name) => Ok(Atom::Name { name, at: word.at }),
        Sort::Nil => Ok(Atom::Lit(Literal::of(Value::Nil))),
        Sort::Symbol(place) => Ok(Atom::Lit(Literal::of(Value::Sym(place)))),
        Sort::Number(value) => {
            if value > MAX_NUMBER {
                return Err(SyntaxRefusal::NumberTooLarge { at: word.at });
            }
            Ok(Atom::Lit(Literal::of(Value::Num(value as i64))))
        }
        Sort::Minus => Ok(Atom::Lit(Literal::of(Value::Num(negative(input)?)))),
        _ => Err(refusal(word)),
    }
}
