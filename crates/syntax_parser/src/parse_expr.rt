// Expressions, where `*` binds tighter than `+` and `-`.

ghost use Rattle.std.specs.Prelude.{◌≡◌, ◌≤◌, ◌∷◌, [], IfOk};
ghost use Rattle.session_values.specs.Limits.{max_open};
ghost use Rattle.syntax_grammar.specs.Next.{Anywhere, Opened, expression, operand, more_factors, more_terms, closing};
ghost use Rattle.syntax_grammar.specs.Phrase as spec;
ghost use Rattle.syntax_grammar.specs.Tree.{factor_tree, term_tree, expr_tree};
ghost use Rattle.syntax_parser.specs.Reads.{Reads};
ghost use Rattle.syntax_grammar.specs.declared.word.Sort.TheVariants as sort;
ghost use Rattle.syntax_trees.specs.declared.expr.Expr.TheVariants as expr;

use crate::input::Input;
use crate::parse_atom::atom;
use session_values::{Boxed, MAX_OPEN, NoMemory};
use std::alloc::Global;
use syntax_grammar::{Sort, SyntaxRefusal, refusal};
use syntax_trees::{Calc, Expr};

fn binary(alloc: Global, calc: Calc, left: Expr, right: Expr) -> Result<Expr, NoMemory>
    ensures { IfOk result (λ e. e ≡ expr.Binary calc (left, right)) }
{
    let sides = Boxed::new(alloc, (left, right))?;
    Ok(Expr::Binary { calc, sides })
}

/// The parenthesis that ends a group.
fn close(input: &mut Input<'_>) -> Result<u32, SyntaxRefusal>
    ensures { Reads (spec.mark_words sort.RightParen) (λ at. at) Anywhere (closing ∷ []) []
        input.old result input.new }
{
    let word = input.take()?;
    match word.sort {
        Sort::RightParen => Ok(word.at),
        _ => Err(refusal(word)),
    }
}

#[cycle(expression)]
fn factor(alloc: Global, input: &mut Input<'_>, opened: u32) -> Result<Expr, SyntaxRefusal>
    requires { opened ≤ max_open }
    ensures { Reads spec.factor_words factor_tree (Opened opened) (operand ∷ []) [] input.old
        result input.new }
{
    let word = input.peek()?;
    match word.sort {
        Sort::LeftParen => {
            if opened >= MAX_OPEN {
                return Err(SyntaxRefusal::TooDeep { at: word.at });
            }
            input.take()?;
            let inner = sum(alloc, input, opened + 1)?;
            close(input)?;
            Ok(inner)
        }
        _ => {
            let atom = atom(input)?;
            Ok(atom.alone())
        }
    }
}

#[cycle(expression)]
fn term(alloc: Global, input: &mut Input<'_>, opened: u32) -> Result<Expr, SyntaxRefusal>
    requires { opened ≤ max_open }
    ensures { Reads spec.term_words term_tree (Opened opened)
        (operand ∷ more_factors ∷ []) [] input.old result input.new }
{
    let mut left = factor(alloc, input, opened)?;
    'factors: loop {
        match input.peek()?.sort {
            Sort::Times => {
                input.take_sign()?;
                let right = factor(alloc, input, opened)?;
                left = binary(alloc, Calc::Times, left, right)?;
            }
            _ => return Ok(left),
        }
    }
}

#[cycle(expression)]
fn sum(alloc: Global, input: &mut Input<'_>, opened: u32) -> Result<Expr, SyntaxRefusal>
    requires { opened ≤ max_open }
    ensures { Reads spec.expr_words expr_tree (Opened opened)
        (operand ∷ more_factors ∷ more_terms ∷ []) [] input.old result input.new }
{
    let mut left = term(alloc, input, opened)?;
    'terms: loop {
        let calc = match input.peek()?.sort {
            Sort::Plus => Calc::Plus,
            Sort::Minus => Calc::Minus,
            _ => return Ok(left),
        };
        input.take_sign()?;
        let right = term(alloc, input, opened)?;
        left = binary(alloc, calc, left, right)?;
    }
}

/// A whole expression.
pub(crate) fn expression(alloc: Global, input: &mut Input<'_>) -> Result<Expr, SyntaxRefusal>
    ensures { Reads spec.expr_words expr_tree (Opened 0) (expression ∷ []) [] input.old
        result input.new }
{
    input.signs = 0;
    sum(alloc, input, 0)
}
