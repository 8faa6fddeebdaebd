// What is left of a part behind a word that begins it.

ghost use Rattle.std.specs.Prelude.{◌≡◌};
ghost use Rattle.syntax_grammar.specs.Next as next;
ghost use Rattle.refusal_advice.specs.Parts.{IsRow, part_of};

use crate::expression_rows::{
    atom_row, expression_row, factors_row, operand_row, right_row, terms_row,
};
use crate::part::Part;
use crate::statement_rows::{
    block_row, compare_row, else_row, first_param_row, handlers_row, statement_row, tables_row,
};
use crate::word_rows::{
    as_row, assign_row, closing_row, left_paren_row, more_params_row, name_row, number_row,
    one_argument_row, one_value_row, right_brace_row, right_paren_row, semicolon_row,
    three_values_row, two_arguments_row, two_values_row,
};
use syntax_grammar::Sort;

/// What is left of the part behind this word, the last part first; none where the part doesn't
/// begin with it.
pub(crate) fn row(part: Part, sort: Sort) -> Option<&'static [Part]>
    ensures { IsRow (next.row (part_of part) sort) result }
{
    match part {
        Part::Tables => tables_row(sort),
        Part::Handlers => handlers_row(sort),
        Part::FirstParam => first_param_row(sort),
        Part::MoreParams => more_params_row(sort),
        Part::Block => block_row(sort),
        Part::Statements => statement_row(sort),
        Part::OrElse => else_row(sort),
        Part::Right => right_row(sort),
        Part::Compare => compare_row(sort),
        Part::Count | Part::AfterMinus => number_row(sort),
        Part::Expression => expression_row(sort),
        Part::Operand => operand_row(sort),
        Part::MoreFactors => factors_row(sort),
        Part::MoreTerms => terms_row(sort),
        Part::Closing => closing_row(sort),
        Part::Atom => atom_row(sort),
        Part::TwoArguments => two_arguments_row(sort),
        Part::OneArgument => one_argument_row(sort),
        Part::ThreeValues => three_values_row(sort),
        Part::TwoValues => two_values_row(sort),
        Part::OneValue => one_value_row(sort),
        Part::Name => name_row(sort),
        Part::Semicolon => semicolon_row(sort),
        Part::Assign => assign_row(sort),
        Part::LeftParen => left_paren_row(sort),
        Part::RightParen => right_paren_row(sort),
        Part::RightBrace => right_brace_row(sort),
        Part::As => as_row(sort),
        Part::NoArgument | Part::NoValue => None,
    }
}
