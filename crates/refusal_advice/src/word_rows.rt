// Parts that are one word, and lists behind commas: what is left of them behind a word.

ghost use Rattle.std.specs.Prelude.{◌≡◌};
ghost use Rattle.syntax_grammar.specs.Next as next;
ghost use Rattle.syntax_grammar.specs.declared.word.Sort.TheVariants as word_sort;
ghost use Rattle.refusal_advice.specs.Parts.{IsRow};

use crate::part::Part;
use syntax_grammar::Sort;

/// Nothing is left.
pub(crate) const ALONE: [Part; 0] = [];

const NEXT_PARAM: [Part; 2] = [Part::MoreParams, Part::Name];

const SECOND_ARGUMENT: [Part; 2] = [Part::OneArgument, Part::Atom];

const LAST_ARGUMENT: [Part; 2] = [Part::NoArgument, Part::Atom];

const SECOND_VALUE: [Part; 2] = [Part::TwoValues, Part::Expression];

const THIRD_VALUE: [Part; 2] = [Part::OneValue, Part::Expression];

const LAST_VALUE: [Part; 2] = [Part::NoValue, Part::Expression];

pub(crate) fn name_row(sort: Sort) -> Option<&'static [Part]>
    ensures { IsRow (next.name_row sort) result }
{
    match sort {
        Sort::Name(_) => Some(&ALONE),
        _ => None,
    }
}

pub(crate) fn number_row(sort: Sort) -> Option<&'static [Part]>
    ensures { IsRow (next.number_row sort) result }
{
    match sort {
        Sort::Number(_) => Some(&ALONE),
        _ => None,
    }
}

pub(crate) fn closing_row(sort: Sort) -> Option<&'static [Part]>
    ensures { IsRow (next.closing_row sort) result }
{
    match sort {
        Sort::RightParen => Some(&ALONE),
        _ => None,
    }
}

pub(crate) fn more_params_row(sort: Sort) -> Option<&'static [Part]>
    ensures { IsRow (next.more_params_row sort) result }
{
    match sort {
        Sort::Comma => Some(&NEXT_PARAM),
        _ => None,
    }
}

pub(crate) fn two_arguments_row(sort: Sort) -> Option<&'static [Part]>
    ensures { IsRow (next.arguments_row 2 sort) result }
{
    match sort {
        Sort::Comma => Some(&SECOND_ARGUMENT),
        _ => None,
    }
}

pub(crate) fn one_argument_row(sort: Sort) -> Option<&'static [Part]>
    ensures { IsRow (next.arguments_row 1 sort) result }
{
    match sort {
        Sort::Comma => Some(&LAST_ARGUMENT),
        _ => None,
    }
}

pub(crate) fn three_values_row(sort: Sort) -> Option<&'static [Part]>
    ensures { IsRow (next.values_row 3 sort) result }
{
    match sort {
        Sort::Comma => Some(&SECOND_VALUE),
        _ => None,
    }
}

pub(crate) fn two_values_row(sort: Sort) -> Option<&'static [Part]>
    ensures { IsRow (next.values_row 2 sort) result }
{
    match sort {
        Sort::Comma => Some(&THIRD_VALUE),
        _ => None,
    }
}

pub(crate) fn one_value_row(sort: Sort) -> Option<&'static [Part]>
    ensures { IsRow (next.values_row 1 sort) result }
{
    match sort {
        Sort::Comma => Some(&LAST_VALUE),
        _ => None,
    }
}

pub(crate) fn semicolon_row(sort: Sort) -> Option<&'static [Part]>
    ensures { IsRow (next.mark_row word_sort.Semicolon sort) result }
{
    match sort {
        Sort::Semicolon => Some(&ALONE),
        _ => None,
    }
}

pub(crate) fn assign_row(sort: Sort) -> Option<&'static [Part]>
    ensures { IsRow (next.mark_row word_sort.Assign sort) result }
{
    match sort {
        Sort::Assign => Some(&ALONE),
        _ => None,
    }
}

pub(crate) fn left_paren_row(sort: Sort) -> Option<&'static [Part]>
    ensures { IsRow (next.mark_row word_sort.LeftParen sort) result }
{
    match sort {
        Sort::LeftParen => Some(&ALONE),
        _ => None,
    }
}

pub(crate) fn right_paren_row(sort: Sort) -> Option<&'static [Part]>
    ensures { IsRow (next.mark_row word_sort.RightParen sort) result }
{
    match sort {
        Sort::RightParen => Some(&ALONE),
        _ => None,
    }
}

pub(crate) fn right_brace_row(sort: Sort) -> Option<&'static [Part]>
    ensures { IsRow (next.mark_row word_sort.RightBrace sort) result }
{
    match sort {
        Sort::RightBrace => Some(&ALONE),
        _ => None,
    }
}

pub(crate) fn as_row(sort: Sort) -> Option<&'static [Part]>
    ensures { IsRow (next.mark_row word_sort.As sort) result }
{
    match sort {
        Sort::As => Some(&ALONE),
        _ => None,
    }
}
