// Parts of the grammar that are still to come.

ghost use Rattle.std.specs.Prelude.{◌≡◌};
ghost use Rattle.syntax_grammar.specs.Next as next;
ghost use Rattle.refusal_advice.specs.Parts.{part_of};

/// A part that is still to come. The last ones are one given word each.
#[derive(Clone, Copy, Debug)]
pub(crate) enum Part {
    Tables,
    Handlers,
    FirstParam,
    MoreParams,
    Block,
    Statements,
    OrElse,
    Right,
    TwoArguments,
    OneArgument,
    NoArgument,
    Compare,
    Count,
    ThreeValues,
    TwoValues,
    OneValue,
    NoValue,
    Expression,
    Operand,
    MoreFactors,
    MoreTerms,
    Closing,
    Atom,
    AfterMinus,
    Name,
    Semicolon,
    Assign,
    LeftParen,
    RightParen,
    RightBrace,
    As,
}

impl Part {
    /// Whether it may stand for no word.
    pub(crate) fn may_be_empty(self) -> bool
        ensures { result ≡ next.may_be_empty (part_of self) }
    {
        match self {
            Part::Tables
            | Part::Handlers
            | Part::FirstParam
            | Part::MoreParams
            | Part::Statements
            | Part::OrElse
            | Part::TwoArguments
            | Part::OneArgument
            | Part::NoArgument
            | Part::ThreeValues
            | Part::TwoValues
            | Part::OneValue
            | Part::NoValue
            | Part::MoreFactors
            | Part::MoreTerms => true,
            _ => false,
        }
    }
}
