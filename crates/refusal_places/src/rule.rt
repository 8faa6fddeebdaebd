// Rules of the program.

ghost use Rattle.std.specs.Prelude.{◌≡◌};
ghost use Rattle.refusal_places.specs.RuleTable as spec;

/// What the refusals of a rule name as the place at which it is broken.
#[derive(Clone, Copy, Debug, PartialEq, Eq)]
pub enum PlaceKind {
    /// Nothing.
    Nowhere,
    /// A byte of the file.
    Byte,
    /// A byte of the file, and a count.
    Counted,
    /// A line of the file.
    Line,
}

impl PlaceKind {
    /// Its word in the printed table.
    pub fn word(self) -> &'static str
        ensures { result.now ≡ spec.place_word self }
    {
        match self {
            PlaceKind::Nowhere => "nowhere",
            PlaceKind::Byte => "byte",
            PlaceKind::Counted => "counted",
            PlaceKind::Line => "line",
        }
    }
}

/// What the advice on a rule is about, by what its refusals say.
#[derive(Clone, Copy, Debug, PartialEq, Eq)]
pub enum Topic {
    /// Nothing is advised.
    Nothing,
    /// Where the handlers end.
    Halves,
    /// What was found, and what could stand there by the grammar.
    Grammar,
    /// The size of a number.
    Number,
    /// Blocks or parentheses in one another, or the signs of an expression.
    Nesting,
    /// A name that is declared a second time.
    Twice,
    /// A table that isn't declared, or a variable that isn't visible.
    Unknown,
    /// The arguments of an operation.
    Arguments,
    /// An operation on a table of the other kind.
    OtherKind,
    /// How often a loop turns.
    Turns,
    /// How many tables there are.
    TableNumber,
    /// How many handlers there are.
    HandlerNumber,
    /// How variables are counted.
    Variables,
    /// How calls are counted.
    Calls,
    /// How work is counted.
    Work,
    /// How symbols are counted.
    Symbols,
    /// The table that a line names.
    Tables,
    /// How many words stand behind a table's name in its line.
    TableWords,
    /// A word of a line that is no value.
    NoValue,
    /// A key that a table is given a second time.
    GivenKey,
    /// How many lines the tables have.
    TableLines,
    /// The handler that a request names.
    Handlers,
    /// How many arguments a request has.
    RequestWords,
}

/// A rule that an input may break.
#[derive(Clone, Copy, Debug)]
pub struct Rule {
    /// Its word in the line of a refusal.
    pub word: &'static str,
    /// What that line names.
    pub place: PlaceKind,
    /// What the advice on it is about.
    pub topic: Topic,
    /// What breaks it, in plain words.
    pub sentence: &'static str,
}
