//! Laws of the definitions, each the contract of a function with an empty body: lines and words are
//! those of a text, and words, values and literals that are written on lines read back.

ghost use Rattle.std.specs.Prelude.{◌≡◌, ℕ, List, Some, map};
ghost use Rattle.std.specs.List.{AllByRecursion};
ghost use Rattle.session_values.specs.Names.{AreDistinct};
ghost use Rattle.session_values.specs.declared.value.Value.{Value};
ghost use Rattle.text_lines.specs.Laws.{AreLinesOf, AreWordsOf};
ghost use Rattle.text_lines.specs.Text.{Text, lines, words};
ghost use Rattle.text_lines.specs.Values.{value_of};
ghost use Rattle.text_lines.specs.Words.{IsWord, rows_text, spaced};
ghost use Rattle.text_lines.specs.ValueWords.{IsWritable, literal_text, literal_value, word_of};

/// The lines of a text with their line feeds are the text.
pub fn lines_of_text()
    ensures { (text : Text) → AreLinesOf text (lines text) }
{}

/// The words of a line with their blanks are the line before its comment.
pub fn words_of_line()
    ensures { (line : Text) → AreWordsOf line (words line) }
{}

/// The word of a value is that value again.
pub fn value_reads_back()
    ensures { (names : List (List ℕ)) (v : Value) → AreDistinct names → IsWritable names v
        → value_of names (word_of names v) ≡ Some v }
{}

/// Words with a space between two are these words again.
pub fn words_read_back()
    ensures { (ws : List (List ℕ)) → AllByRecursion IsWord ws → words (spaced ws) ≡ ws }
{}

/// Values that are written on a line are these values again.
pub fn values_read_back()
    ensures { (names : List (List ℕ)) (vs : List Value) → AreDistinct names
        → AllByRecursion (IsWritable names) vs
        → map (value_of names) (words (spaced (map (word_of names) vs))) ≡ map Some vs }
{}

/// Lines of words that are written are these lines of words again.
pub fn rows_read_back()
    ensures { (wss : List (List (List ℕ))) → AllByRecursion (AllByRecursion IsWord) wss
        → map words (lines (rows_text wss)) ≡ wss }
{}

/// Values that are written as literals on a line are these values again.
pub fn literals_read_back()
    ensures { (names : List (List ℕ)) (vs : List Value) → AreDistinct names
        → AllByRecursion (IsWritable names) vs
        → map (literal_value names) (words (spaced (map (literal_text names) vs))) ≡ map Some vs }
{}
