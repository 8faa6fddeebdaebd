// What the parser reads from.

ghost use Rattle.std.specs.Prelude.{◌≡◌, ◌≤◌, ◌+◌, length, drop, IfOk, IfErr, OnOk};
ghost use Rattle.session_values.specs.Limits.{max_signs};
ghost use Rattle.syntax_grammar.specs.Words.{first_word};
ghost use Rattle.syntax_grammar.specs.declared.refusals.SyntaxRefusal.TheVariants as refusal;
ghost use Rattle.syntax_parser.specs.Reads.{NamesStay};

use session_values::{MAX_SIGNS, NoMemory};
use syntax_grammar::{Reader, SyntaxRefusal, Word};

/// The words still to come, and how many operator signs the expression has so far.
#[derive(Drop)]
pub(crate) struct Input<'a> {
    pub(crate) reader: Reader<'a>,
    pub(crate) signs: u32,
}

impl<'a> Input<'a> {
    /// The word in hand, which is `End` where none is left.
    pub(crate) fn peek(&mut self) -> Result<Word, NoMemory>
        ensures word { IfOk result (λ w. w ≡ first_word self.old.reader.end self.old.reader.words) }
        ensures words { self.new.reader.words ≡ self.old.reader.words }
        ensures end { self.new.reader.end ≡ self.old.reader.end }
        ensures signs { self.new.signs ≡ self.old.signs }
        ensures kept { NamesStay self.old.reader self.new.reader }
    {
        self.reader.peek()
    }

    /// Goes on to the next word. The end stays.
    pub(crate) fn take(&mut self) -> Result<Word, NoMemory>
        ensures word { IfOk result (λ w. w ≡ first_word self.old.reader.end self.old.reader.words) }
        ensures words { OnOk result (self.new.reader.words ≡ drop 1 self.old.reader.words) }
        ensures end { self.new.reader.end ≡ self.old.reader.end }
        ensures signs { self.new.signs ≡ self.old.signs }
        ensures kept { NamesStay self.old.reader self.new.reader }
    {
        self.reader.take()
    }

    /// Goes on behind an operator sign.
    pub(crate) fn take_sign(&mut self) -> Result<Word, SyntaxRefusal>
        ensures word { IfOk result (λ w. w ≡ first_word self.old.reader.end self.old.reader.words) }
        ensures words { OnOk result (self.new.reader.words ≡ drop 1 self.old.reader.words) }
        ensures end { self.new.reader.end ≡ self.old.reader.end }
        ensures signs { OnOk result (self.new.signs ≡ self.old.signs + 1) }
        ensures kept { NamesStay self.old.reader self.new.reader }
        ensures room { OnOk result (self.old.signs + 1 ≤ max_signs) }
        ensures deep { IfErr result (λ e.
            (e ≡ refusal.NoMemory → ⊥)
            → (e ≡ refusal.TooDeep (first_word self.old.reader.end self.old.reader.words).at)
            × (max_signs ≤ self.old.signs)) }
    {
        let word = self.reader.take()?;
        if self.signs >= MAX_SIGNS {
            return Err(SyntaxRefusal::TooDeep { at: word.at });
        }
        self.signs += 1;
        Ok(word)
    }
}
