// Hints: the language's other way, where it has one, by what was found, the word before it and
// what is wanted there. The first row that fits counts.

use crate::class::Class;
use syntax_grammar::Sort;

/// A word that can't stand where it was found.
#[derive(Clone, Copy, Debug)]
pub(crate) struct Mistake<'a> {
    pub(crate) found: Sort,
    /// Its text.
    pub(crate) token: &'a str,
    /// The word before it; none at the front.
    pub(crate) last: Option<Sort>,
    /// That one's text.
    pub(crate) before: &'a str,
    /// How many commas stand behind it before a closing parenthesis.
    pub(crate) commas: u32,
    pub(crate) wanted: &'a [Class],
}

const GREATER: &str = "there is no `>`: turn the comparison round, as `b < a` for `a > b`";

const BOTH: &str = "there is no `&&`: put one `if` into the block of the other";

const AND: &str = "there is no `and`: put one `if` into the block of the other";

const EITHER: &str = "there is no `||`: give two `if` statements the same block";

const OR: &str = "there is no `or`: give two `if` statements the same block";

const NOT: &str = "there is no `!`: use `!=`, or the other block of the `if`";

const NOT_WORD: &str = "there is no `not`: use `!=`, or the other block of the `if`";

const EQUAL: &str = "equality is `==`";

const COMMENT: &str = "a comment begins with `#`";

const DIV: &str = "there is no division: an expression has `+`, `-` and `*` alone";

const QUOTE: &str = "a symbol is written with a single quote before its letters, as `'booked`";

const FRACTION: &str = "a number has no fraction: count in the smallest unit, as cents";

const METHOD: &str = "there are no methods: an operation names its table first, as `get(seats, k)`";

const INDEX: &str = "a table has no brackets: it is read by `get(seats, k)`, written by `put`";

const LIST: &str = "there are no lists: a reply has up to 4 values, as in `reply 1, 2;`";

const TYPES: &str = "there are no types: `map seats;`, `let x = 1;`";

const MINUS: &str = "`-` stands before a number alone: write `0 - x`";

const TURNS: &str =
    "a loop's number of turns is a number from 1 to 1000, as in `repeat 3 as i { .. }`";

const CONSTANT: &str = "there are no constants: write the value where it is used";

const SMALL: &str = "reserved words have small letters: `map`, `set`, `handler`";

const TOP: &str = "a file has tables and then handlers: `map seats;`, `handler book(seat) { .. }`";

const START: &str =
    "a statement begins with `let`, `if`, `repeat`, `reply`, an operation or `NAME =`";

const SEMI: &str = "a statement ends with `;`";

const ONE_WORD: &str = "a symbol is one word: join its parts, as in `'not_found`";

const RESERVED: &str = "a reserved word is no name: take another word";

const OPERATION: &str = "an operation is no expression: give its reply a name with `let` first";

const OPEN: &str = "a block isn't closed: its `}` is missing";

const CLOSED: &str = "each block is closed: this `}` is one too many";

const ELSE_IF: &str = "there is no `else if`: write `else { if .. }`";

const TABLES: &str = "tables are declared before the handlers";

const SHOW: &str = "`show` prints it, and a file of handlers doesn't have it";

const PARENS: &str = "a comparison has no parentheses round it: `if x == 1 { .. }`";

const ONE_COMPARISON: &str = "an `if` has one comparison: put one `if` into the block of the other";

const NO_VALUE: &str = "a comparison is no value: it stands behind `if` alone";

const COND: &str = "an `if` compares two values: `if x == 1 { .. }`";

const BRACES: &str = "the block of an `if` stands in braces: `if x == 1 { .. }`";

const AS: &str = "a loop gives its turn a name: `repeat 3 as i { .. }`";

const PARAMS: &str =
    "parameters stand in parentheses, also where there are none: `handler name() { .. }`";

const KNOWN: &str = "an operation is `get put swap del size bump has add mark drop` or `count`";

const ARGUMENT: &str =
    "an argument is a name or a literal: give the expression a name with `let` first";

const TUPLE: &str =
    "a key is one value: there are no tuples; make one number of both, `let k = a * 1000 + b;`";

const SUM: &str = "there is no `+=` or `++`: write `x = x + 1;`";

const VALUES: &str = "a reply has at most 4 values, and a right side one";

const TWO: &str = "an operation has at most two arguments behind its table";

const BEHIND_BLOCK: &str = "no `;` stands behind a block";

const NIL: &str = "a reply has a value: `reply nil;` where there is none";

impl Mistake<'_> {
    /// Whether the class is wanted.
    pub(crate) fn wants(&self, class: Class) -> bool {
        for each in self.wanted {
            if *each == class {
                return true;
            }
        }
        false
    }

    /// Whether a name alone is wanted, or a name or something behind it.
    fn wants_name(&self) -> bool {
        self.wants(Class::Name) && !self.wants(Class::Nil) && !self.wants(Class::Let)
    }

    /// Whether the block of an `if` is wanted.
    fn wants_block(&self) -> bool {
        self.wants(Class::LeftBrace) && self.wants(Class::Plus) && !self.wants(Class::Comparison)
    }

    /// Whether the argument of an operation has ended.
    fn wants_end_of_argument(&self) -> bool {
        self.wants(Class::RightParen) && !self.wants(Class::Plus) && !self.wants(Class::Name)
    }

    /// The hint on the word; nothing where there is none.
    pub(crate) fn hint(&self) -> &'static str {
        let start = if self.wants(Class::Assign) {
            start_hint(self.before)
        } else {
            ""
        };
        if !start.is_empty() {
            return start;
        }
        match self.found {
            Sort::Bad => self.bad_hint(),
            Sort::Name(_) | Sort::Symbol(_) | Sort::Number(_) | Sort::Nil | Sort::Long => {
                self.name_hint()
            }
            Sort::MayUse => SHOW,
            Sort::Do(_)
            | Sort::Handler
            | Sort::If
            | Sort::Table(_)
            | Sort::Let
            | Sort::Else
            | Sort::Repeat
            | Sort::As
            | Sort::Reply
            | Sort::Nothing
            | Sort::Any => self.key_hint(),
            _ => self.sign_hint(),
        }
    }

    /// Of a character that begins no token.
    fn bad_hint(&self) -> &'static str {
        match self.token {
            ">" => GREATER,
            "&" => BOTH,
            "|" => EITHER,
            "!" => NOT,
            "/" if !self.wants(Class::Times) => COMMENT,
            "/" | "%" => DIV,
            "\"" | "'" => QUOTE,
            "." if matches!(self.last, Some(Sort::Number(_))) => FRACTION,
            "." => METHOD,
            "[" if self.wants(Class::Nil) => LIST,
            "[" => INDEX,
            ":" => TYPES,
            _ => "",
        }
    }

    /// Of a name or a literal.
    fn name_hint(&self) -> &'static str {
        match self.last {
            Some(Sort::Minus) => return MINUS,
            Some(Sort::Repeat) => return TURNS,
            _ => {}
        }
        if self.wants(Class::Handler) {
            match self.token {
                "const" => CONSTANT,
                "Map" | "MAP" | "Set" | "SET" | "Handler" | "HANDLER" => SMALL,
                _ => TOP,
            }
        } else if self.wants(Class::Assign) {
            START
        } else if self.wants(Class::Comparison) {
            match (self.before, self.token) {
                ("not", _) => NOT_WORD,
                (_, "is") => EQUAL,
                _ => "",
            }
        } else if self.wants_block() {
            match self.token {
                "and" => AND,
                "or" => OR,
                _ => BRACES,
            }
        } else if !self.wants(Class::Semicolon) {
            ""
        } else if matches!(
            (self.last, self.found),
            (Some(Sort::Symbol(_)), Sort::Name(_))
        ) {
            ONE_WORD
        } else {
            SEMI
        }
    }

    /// Of a reserved word.
    fn key_hint(&self) -> &'static str {
        match self.found {
            Sort::If if matches!(self.last, Some(Sort::Else)) => return ELSE_IF,
            Sort::Handler if self.wants(Class::Let) => return OPEN,
            Sort::Table(_) if self.wants(Class::Handler) => return TABLES,
            Sort::Do(_) if self.wants(Class::Nil) && !self.wants(Class::Operation) => {
                return OPERATION;
            }
            _ => {}
        }
        if self.wants_name() {
            RESERVED
        } else if self.wants_block() {
            BRACES
        } else if self.wants(Class::Semicolon) {
            SEMI
        } else {
            ""
        }
    }

    /// Of a sign or the end.
    fn sign_hint(&self) -> &'static str {
        match self.found {
            Sort::Assign if self.wants(Class::Comparison) => EQUAL,
            Sort::Compare(_) if self.wants(Class::Plus) => self.compare_hint(),
            Sort::LeftBrace if self.wants(Class::Comparison) => COND,
            Sort::LeftBrace if self.wants(Class::As) => AS,
            Sort::LeftBrace if self.wants(Class::LeftParen) && !self.wants(Class::Nil) => PARAMS,
            Sort::LeftParen => self.group_hint(),
            Sort::Plus | Sort::Minus | Sort::Times if self.wants_end_of_argument() => ARGUMENT,
            Sort::Plus | Sort::Minus if self.wants(Class::Assign) => SUM,
            Sort::Comma if self.wants(Class::Semicolon) && self.wants(Class::Plus) => VALUES,
            Sort::Comma if self.wants_end_of_argument() => TWO,
            Sort::Semicolon if self.wants(Class::Let) => BEHIND_BLOCK,
            Sort::Semicolon if matches!(self.last, Some(Sort::Reply)) => NIL,
            Sort::RightBrace if self.wants(Class::Handler) => CLOSED,
            Sort::End if self.wants(Class::Let) => OPEN,
            Sort::RightBrace | Sort::End if self.wants(Class::Semicolon) => SEMI,
            _ => "",
        }
    }

    /// Of a comparison.
    fn compare_hint(&self) -> &'static str {
        if self.wants(Class::RightParen) {
            PARENS
        } else if self.wants(Class::LeftBrace) {
            ONE_COMPARISON
        } else if self.wants(Class::Semicolon) {
            NO_VALUE
        } else {
            ""
        }
    }

    /// Of `(`.
    fn group_hint(&self) -> &'static str {
        let behind_name = matches!(self.last, Some(Sort::Name(_)));
        if behind_name && (self.wants(Class::Assign) || self.wants(Class::Times)) {
            KNOWN
        } else if !self.wants(Class::Nil) || self.wants(Class::LeftParen) {
            ""
        } else if self.commas > 0 {
            TUPLE
        } else {
            ARGUMENT
        }
    }
}

/// Of a name at the front of a statement, which goes on as no assignment.
fn start_hint(name: &str) -> &'static str {
    match name {
        "return" => "there is no `return`: a handler answers by `reply`, as in `reply 1;`",
        "elif" | "elsif" | "elseif" => "an `else` has no condition: write `else { if .. }`",
        "while" | "for" | "foreach" | "loop" => {
            "a loop has a fixed number of turns: `repeat 10 as i { .. }`"
        }
        "break" | "continue" => "a loop runs all its turns: put what some leave out into an `if`",
        "const" | "var" | "val" | "int" => "a variable is declared by `let`: `let x = 1;`",
        "switch" | "match" | "unless" => {
            "a choice is made by `if`: `if x == 1 { .. } else { .. }`"
        }
        _ => "",
    }
}
