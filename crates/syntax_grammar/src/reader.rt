// A reader of words that looks one word ahead.

ghost use Rattle.std.specs.Prelude.{◌≡◌, ◌≢◌, ◌+◌, ◌≤◌, ◌<◌, [], length, drop, IfOk, OnOk, OnErr, None};
ghost use Rattle.std.specs.List.{AllByRecursion};
ghost use Rattle.session_values.specs.Limits.{max_input};
ghost use Rattle.session_values.specs.Names.{Begins};
ghost use Rattle.syntax_grammar.specs.Reading.{words_left, names_left, end_of};
ghost use Rattle.syntax_grammar.specs.Words.{words_of, names_of, first_word, IsNamedWord};
ghost use Rattle.syntax_grammar.specs.declared.word.Sort.TheVariants as sort;

use crate::token_kind::TokenKind;
use crate::tokens::Tokens;
use crate::word::{Sort, Word};
use crate::words::word;
use session_values::{Names, NoMemory};
use std::marker::Model;

/// The words of a source that are still to come, and the list of names, in which a name is placed
/// when its word is looked at.
#[derive(Drop)]
pub struct Reader<'a> {
    tokens: Tokens<'a>,
    names: &'a mut Names,
    ahead: Option<Word>,
}

impl<'a> Model for Reader<'a> {
    ghost use Rattle.syntax_grammar.specs.Reading.{Reading};

    ghost Value = { Reading };

    ghost use Rattle.syntax_grammar.specs.ReaderFields.{reading_of, HasRoom};

    ghost view = { reading_of };

    ghost invariant = { HasRoom };
}

impl<'a> Reader<'a> {
    #[tactic(auto, unfolding(crate::specs::Words::words_of, crate::specs::Words::names_of))]
    pub fn over(source: &'a str, names: &'a mut Names) -> Reader<'a>
        requires short { length source.now ≤ max_input }
        requires room { length names.old ≤ 4000000000 }
        ensures words { result.words ≡ words_of names.old source.now }
        ensures end { result.end ≡ length source.now }
        ensures names { result.names ≡ names_of names.old source.now }
        ensures count { result.count ≡ length names.old }
        ensures home { result.home ≡ names.entry.ghost_name }
        ensures front { Begins names.old result.names }
        ensures named { AllByRecursion (IsNamedWord result.names) result.words }
        ensures no_end { AllByRecursion (λ w. w.sort ≢ sort.End) result.words }
    {
        Reader {
            tokens: Tokens::over(source),
            names,
            ahead: None,
        }
    }

    /// The word in hand, which is `End` where none is left.
    pub fn peek(&mut self) -> Result<Word, NoMemory>
        ensures word { IfOk result (λ w. w ≡ first_word self.old.end self.old.words) }
        ensures words { self.new.words ≡ self.old.words }
        ensures end { self.new.end ≡ self.old.end }
        ensures names { self.new.names ≡ self.old.names }
        ensures count { self.old.count ≤ self.new.count }
        ensures home { self.new.home ≡ self.old.home }
    {
        load(&mut self.tokens, self.names, &mut self.ahead)
    }

    /// Goes on to the next word. The end stays.
    pub fn take(&mut self) -> Result<Word, NoMemory>
        ensures word { IfOk result (λ w. w ≡ first_word self.old.end self.old.words) }
        ensures words { OnOk result (self.new.words ≡ drop 1 self.old.words) }
        ensures no_longer { length self.new.words ≤ length self.old.words }
        ensures err { OnErr result (self.new.words ≡ self.old.words) }
        ensures end { self.new.end ≡ self.old.end }
        ensures names { self.new.names ≡ self.old.names }
        ensures count { self.old.count ≤ self.new.count }
        ensures home { self.new.home ≡ self.old.home }
    {
        let word = load(&mut self.tokens, self.names, &mut self.ahead)?;
        self.ahead = None;
        Ok(word)
    }

    /// Gives the list of names back.
    pub fn into_names(self) -> &'a mut Names
        ensures home { result.ghost_name ≡ self.entry.home }
        ensures count { length result.now ≡ self.entry.count }
        ensures front { Begins result.now self.entry.names }
        ensures all { self.entry.words ≡ [] → result.now ≡ self.entry.names }
    {
        let Reader {
            tokens: _,
            names,
            ahead: _,
        } = self;
        names
    }
}

/// The word of the next token, if there is one.
fn next_word(tokens: &mut Tokens<'_>, names: &mut Names) -> Result<Option<Word>, NoMemory>
    requires { length names.old + length tokens.old.rest.now < 4294967295 }
    ensures words { IfOk result (λ next.
        words_left next names.new tokens.new ≡ words_left None names.old tokens.old) }
    ensures names { OnOk result (names_left names.new tokens.new ≡ names_left names.old
        tokens.old) }
    ensures last { IfOk result (λ next. next ≡ None → tokens.new.rest.now ≡ []) }
    ensures end { end_of tokens.new ≡ end_of tokens.old }
    ensures room { length names.new + length tokens.new.rest.now
        ≤ length names.old + length tokens.old.rest.now }
    ensures count { length names.old ≤ length names.new }
    ensures err { OnErr result ((names.new ≡ names.old) × (tokens.new ≡ tokens.old)) }
{
    let mut after = *tokens;
    let (token, reserved) = after.cut();
    match token.kind {
        TokenKind::End => {
            *tokens = after;
            Ok(None)
        }
        _ => {
            let next = word(names, token, reserved)?;
            *tokens = after;
            Ok(Some(next))
        }
    }
}

/// The word in hand: the one that was looked at, or the next one.
fn load(
    tokens: &mut Tokens<'_>,
    names: &mut Names,
    ahead: &mut Option<Word>,
) -> Result<Word, NoMemory>
    requires { length names.old + length tokens.old.rest.now < 4294967295 }
    ensures word { IfOk result (λ w.
        w ≡ first_word (end_of tokens.old) (words_left ahead.old names.old tokens.old)) }
    ensures behind { OnOk result
        (words_left None names.new tokens.new
        ≡ drop 1 (words_left ahead.old names.old tokens.old)) }
    ensures words { words_left ahead.new names.new tokens.new
        ≡ words_left ahead.old names.old tokens.old }
    ensures names { names_left names.new tokens.new ≡ names_left names.old tokens.old }
    ensures end { end_of tokens.new ≡ end_of tokens.old }
    ensures room { length names.new + length tokens.new.rest.now
        ≤ length names.old + length tokens.old.rest.now }
    ensures count { length names.old ≤ length names.new }
{
    if ahead.is_none() {
        *ahead = next_word(tokens, names)?;
    }
    match *ahead {
        Some(next) => Ok(next),
        None => Ok(Word {
            sort: Sort::End,
            at: tokens.end(),
        }),
    }
}
