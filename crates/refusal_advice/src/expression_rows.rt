// What is left of expressions and of right sides behind a word.

ghost use Rattle.std.specs.Prelude.{◌≡◌};
ghost use Rattle.syntax_grammar.specs.Next as next;
ghost use Rattle.refusal_advice.specs.Parts.{IsRow};

use crate::part::Part;
use crate::word_rows::ALONE;
use syntax_grammar::{Sort, operation};

const MINUS: [Part; 1] = [Part::AfterMinus];

const GROUP: [Part; 4] = [
    Part::Closing,
    Part::MoreTerms,
    Part::MoreFactors,
    Part::Operand,
];

const FACTOR: [Part; 2] = [Part::MoreFactors, Part::Operand];

const TERM: [Part; 3] = [Part::MoreTerms, Part::MoreFactors, Part::Operand];

const BEHIND_OPERAND: [Part; 2] = [Part::MoreTerms, Part::MoreFactors];

const BEHIND_MINUS: [Part; 3] = [Part::MoreTerms, Part::MoreFactors, Part::AfterMinus];

const BEHIND_PAREN: [Part; 6] = [
    Part::MoreTerms,
    Part::MoreFactors,
    Part::Closing,
    Part::MoreTerms,
    Part::MoreFactors,
    Part::Operand,
];

const CALL: [Part; 4] = [
    Part::RightParen,
    Part::TwoArguments,
    Part::Name,
    Part::LeftParen,
];

pub(crate) fn atom_row(sort: Sort) -> Option<&'static [Part]>
    ensures { IsRow (next.atom_row sort) result }
{
    match sort {
        Sort::Name(_) | Sort::Symbol(_) | Sort::Number(_) | Sort::Nil => Some(&ALONE),
        Sort::Minus => Some(&MINUS),
        _ => None,
    }
}

pub(crate) fn operand_row(sort: Sort) -> Option<&'static [Part]>
    ensures { IsRow (next.operand_row sort) result }
{
    match sort {
        Sort::LeftParen => Some(&GROUP),
        _ => atom_row(sort),
    }
}

pub(crate) fn factors_row(sort: Sort) -> Option<&'static [Part]>
    ensures { IsRow (next.factors_row sort) result }
{
    match sort {
        Sort::Times => Some(&FACTOR),
        _ => None,
    }
}

pub(crate) fn terms_row(sort: Sort) -> Option<&'static [Part]>
    ensures { IsRow (next.terms_row sort) result }
{
    match sort {
        Sort::Plus | Sort::Minus => Some(&TERM),
        _ => None,
    }
}

pub(crate) fn expression_row(sort: Sort) -> Option<&'static [Part]>
    ensures { IsRow (next.expression_row sort) result }
{
    match sort {
        Sort::Name(_) | Sort::Symbol(_) | Sort::Number(_) | Sort::Nil => Some(&BEHIND_OPERAND),
        Sort::Minus => Some(&BEHIND_MINUS),
        Sort::LeftParen => Some(&BEHIND_PAREN),
        _ => None,
    }
}

pub(crate) fn right_row(sort: Sort) -> Option<&'static [Part]>
    ensures { IsRow (next.right_row sort) result }
{
    match operation(sort) {
        Some(_) => Some(&CALL),
        None => expression_row(sort),
    }
}
