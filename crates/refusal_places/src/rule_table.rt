// The table of rules.

ghost use Rattle.std.specs.Prelude.{◌≡◌, map};
ghost use Rattle.refusal_places.specs.RuleTable as spec;

use crate::rule::{PlaceKind, Rule, Topic};

/// A row of the table: a rule's word, what its refusals name, what its advice is about, and what
/// breaks it.
macro_rules! rule {
    ($word:literal $place:ident $topic:ident $sentence:literal) => {
        Rule {
            word: $word,
            place: PlaceKind::$place,
            topic: Topic::$topic,
            sentence: $sentence,
        }
    };
}

/// All rules, in the order in which their words are listed.
const RULES: [Rule; 40] = [
    rule!("T1" Nowhere Nothing "more bytes than the command reads"),
    rule!("T2" Nowhere Halves "no line %% between handlers and requests"),
    rule!("T3" Nowhere Nothing "a line %% or %% tables in a file of handlers alone"),
    rule!("T4" Nowhere Nothing "no UTF-8"),
    rule!("T5" Nowhere Nothing "no line %% trace behind the requests"),
    rule!("T6" Nowhere Nothing "more than 16 clients: a 16th line %% next"),
    rule!("S1" Byte Grammar "a character that begins no token"),
    rule!("S2" Byte Grammar "a token with which no file goes on"),
    rule!("S3" Byte Number "a number that is too large"),
    rule!("S4" Byte Grammar "a name of more than 64 bytes"),
    rule!("S5" Byte Nesting "more blocks, parentheses or operator signs than the limit"),
    rule!("K1" Byte Twice "a name is declared twice"),
    rule!("K2" Byte Unknown "no such table, or a variable that isn't visible here"),
    rule!("K3" Byte Arguments "an operation has a wrong number of arguments"),
    rule!("K4" Byte OtherKind "a map's operation on a set, or a set's on a map"),
    rule!("K5" Byte Turns "a repeat of 0 or more than 1000 turns"),
    rule!("K6" Byte TableNumber "the eighth table"),
    rule!("K7" Byte HandlerNumber "the 65th handler"),
    rule!("K8" Byte Variables "the 33rd variable of a handler"),
    rule!("K9" Byte Calls "a handler of more than 10,000 calls"),
    rule!("K10" Byte Work "a handler of more than 100,000 work"),
    rule!("A1" Counted Symbols "a point at which more than 256 symbols may still be called"),
    rule!("B1" Line Tables "no such table"),
    rule!("B2" Line TableWords
        "a map's line without one key and one value, or a set's without one key"),
    rule!("B3" Line NoValue "a word of a table line that is no value"),
    rule!("B4" Line GivenKey "the key was given for that table before"),
    rule!("B5" Line TableLines "the 100,001st table line"),
    rule!("Q1" Line Handlers "no such handler"),
    rule!("Q2" Line RequestWords "a wrong number of arguments"),
    rule!("Q3" Line NoValue "an argument that is no value"),
    rule!("Q4" Line Nothing "the 20,001st request"),
    rule!("Q5" Line Calls "more than 200,000 calls in all"),
    rule!("Q6" Line Work "more than 10,000,000 work in all"),
    rule!("G1" Line Nothing "the first word of a line, or of an operation, is none that there is"),
    rule!("G2" Line Nothing "too few or too many words of a line, an operation or a symbol"),
    rule!("G3" Line Nothing "a word that its place doesn't allow"),
    rule!("G4" Line Nothing "no such open hold"),
    rule!("G5" Line Nothing "too many lines, open holds or symbols"),
    rule!("F1" Line Nothing "a line of the trace part that is no event"),
    rule!("F2" Line Nothing "the 440,001st event"),
];

/// All rules of the program, in the order in which `--rules` prints them.
#[tactic(auto, unfolding(crate::specs::RuleTable::rules))]
pub fn rules() -> &'static [Rule]
    ensures { map spec.row_of result.now ≡ spec.rules }
{
    &RULES
}
