//! Laws of canonical text: each is the contract of a function with an empty body.

ghost use Rattle.std.specs.Prelude.{◌≡◌, ◌≢◌, ◌+◌, ◌⊎◌, ℕ, List, [], ◌∷◌, false, length, map, take};
ghost use Rattle.session_values.specs.Names.{AreDistinct, Begins};
ghost use Rattle.syntax_grammar.specs.declared.word.Word.{Word};
ghost use Rattle.syntax_grammar.specs.Words.{kind_of, words_of, names_of};
ghost use Rattle.syntax_trees.specs.declared.file.File.{File};
ghost use Rattle.syntax_trees.specs.declared.file.Handler.{Handler};
ghost use Rattle.syntax_trees.specs.declared.expr.Calc.{Calc};
ghost use Rattle.syntax_trees.specs.declared.expr.Expr.{Expr};
ghost use Rattle.syntax_trees.specs.declared.expr.Expr.TheVariants as expr;
ghost use Rattle.syntax_grammar.specs.Longest.{IsFirstToken, IsQuotedNil};
ghost use Rattle.syntax_grammar.specs.Scan.{scan};
ghost use Rattle.syntax_grammar.specs.Spelled.{Spell, IsNext};
ghost use Rattle.syntax_grammar.specs.Steps.{Gives};
ghost use Rattle.syntax_grammar.specs.Tokens.{Piece, pieces, with_reserved};
ghost use Rattle.syntax_grammar.specs.declared.token.Token.{Token};
ghost use Rattle.syntax_grammar.specs.declared.token_kind.TokenKind.{TokenKind};
ghost use Rattle.syntax_grammar.specs.declared.token_kind.TokenKind.TheVariants as token_kind;
ghost use Rattle.syntax_grammar.specs.declared.tokens.Tokens.{Tokens};
ghost use Rattle.syntax_grammar.specs.Limits.{FileFits, IsFileWithin};
ghost use Rattle.syntax_grammar.specs.Marked.{all_fine, file_marked};
ghost use Rattle.syntax_grammar.specs.Parsed.{IsSourceOf, HasFault};
ghost use Rattle.syntax_grammar.specs.Phrase.{FilePhrase, file_words};
ghost use Rattle.syntax_grammar.specs.declared.refusals.SyntaxRefusal.{SyntaxRefusal};
ghost use Rattle.syntax_grammar.specs.declared.refusals.SyntaxRefusal.TheVariants as syntax_refusal;
ghost use Rattle.syntax_printer.specs.Canonical.{canonical_text, whole_text};
ghost use Rattle.syntax_printer.specs.CanonicalWords.{canonical_words};
ghost use Rattle.syntax_printer.specs.Lines.{At, block_parts, block_points, count_on, file_lines, handler_lines, line_points, shown_text, written};
ghost use Rattle.syntax_printer.specs.Points.{AtPoints};
ghost use Rattle.syntax_trees.specs.Mentions.{AreNamed, file_mentions};
ghost use Rattle.syntax_grammar.specs.Texts.{IsNamedFile};
ghost use Rattle.handler_syntax.specs.Parentheses.{operands_text};
ghost use Rattle.handler_syntax.specs.SameTree.{SameTree};

/// The canonical words of a file within the limits, at whatever places, are a file within the
/// limits again, with the same tree, places aside.
pub fn canonical_is_a_file()
    ensures { (ws us : List Word) (file : File)
        → IsFileWithin ws file
        → map (λ (w : Word). w.sort) us ≡ canonical_words file
        → (g : File) × IsFileWithin us g × SameTree file g }
{}

/// The canonical text of a file within the limits is read as the same tree, places aside, and
/// brings no new name. `names` is the list of names that the file's are places in.
pub fn reads_back()
    ensures { (names : List (List ℕ)) (ws : List Word) (file : File)
        → AreDistinct names
        → IsFileWithin ws file
        → IsNamedFile names file
        → (g : File) × IsFileWithin (words_of names (canonical_text names file)) g
        × SameTree file g × (names_of names (canonical_text names file) ≡ names) }
{}

/// The tree of a source within the limits can be printed with the names behind the source, and its
/// text can be read again.
pub fn what_is_read_is_printable()
    ensures named { (names : List (List ℕ)) (source : List ℕ) (file : File)
        → IsFileWithin (words_of names source) file
        → AreNamed (names_of names source) (file_mentions file) }
    ensures readable { (names : List (List ℕ)) (source : List ℕ) (file : File)
        → IsFileWithin (words_of names source) file
        → IsNamedFile (names_of names source) file }
{}

/// What is read of a source is read again, places aside, from its canonical text with the names
/// behind the source.
pub fn source_reads_back()
    ensures { (names : List (List ℕ)) (source : List ℕ) (file : File)
        → AreDistinct names
        → IsFileWithin (words_of names source) file
        → (g : File) × IsFileWithin (words_of (names_of names source)
        (canonical_text (names_of names source) file)) g × SameTree file g
        × (names_of (names_of names source)
        (canonical_text (names_of names source) file) ≡ names_of names source) }
{}

/// A source has a tree or a first fault, one of them at most, and not both; and a fault is never
/// out of memory.
pub fn one_answer()
    ensures some { (names : List (List ℕ)) (source : List ℕ)
        → ((file : File) × IsSourceOf names source file)
        ⊎ ((e : SyntaxRefusal) × HasFault names source e) }
    ensures certain { (names : List (List ℕ)) (source : List ℕ) (e : SyntaxRefusal)
        → HasFault names source e → e ≢ syntax_refusal.NoMemory }
    ensures tree { (names : List (List ℕ)) (source : List ℕ) (f g : File)
        → IsSourceOf names source f → IsSourceOf names source g → f ≡ g }
    ensures fault { (names : List (List ℕ)) (source : List ℕ) (d e : SyntaxRefusal)
        → HasFault names source d → HasFault names source e → d ≡ e }
    ensures either { (names : List (List ℕ)) (source : List ℕ) (f : File) (e : SyntaxRefusal)
        → IsSourceOf names source f → HasFault names source e → ⊥ }
{}

/// A file is within the limits exactly where no word of it breaks one.
pub fn limits_are_of_words()
    ensures within { (p : FilePhrase)
        → FileFits p → file_marked p ≡ all_fine (file_words p []) [] }
    ensures unbroken { (p : FilePhrase)
        → file_marked p ≡ all_fine (file_words p []) [] → FileFits p }
{}

/// The kind that an unexpected word is refused with is that of its token.
pub fn found_is_the_kind_of_the_token()
    ensures { (names : List (List ℕ)) (source : List ℕ)
        → map (λ (w : Word). kind_of w.sort) (words_of names source)
        ≡ map (λ (p : Piece). p.kind) (pieces 0 0 source) }
{}

/// Parentheses stand round the right operand of a sum or a difference that is one, round an
/// operand of a product that is a sum or a difference, round its right operand that is a product,
/// and nowhere else.
pub fn parentheses_stand_where_they_are_needed()
    ensures { (names : List (List ℕ)) (c : Calc) (l r : Expr) (rest : List ℕ)
        → whole_text names (expr.Binary c (l, r)) rest ≡ operands_text names c l r rest }
{}

/// Equal trees, places aside, have equal text.
pub fn same_trees_have_the_same_text()
    ensures { (names : List (List ℕ)) (f g : File)
        → SameTree f g → canonical_text names f ≡ canonical_text names g }
{}

/// The text with declarations, without their lines and with an `if` of an empty second block
/// printed short, is the canonical text, whatever the declarations are; and where none are shown
/// it is the canonical text itself.
pub fn declarations_stand_between_the_lines()
    ensures without { (names : List (List ℕ)) (at : AtPoints) (file : File)
        → written false (file_lines names at file) [] ≡ canonical_text names file }
    ensures none { (names : List (List ℕ)) (at : AtPoints) (file : File)
        → at.shown ≡ false → shown_text names at file ≡ canonical_text names file }
{}

/// Each point of a handler has one line, and the points are counted from 0 in the order of the
/// lines.
pub fn each_point_has_its_line()
    ensures { (names : List (List ℕ)) (at : At) (h : Handler)
        → line_points (handler_lines names at h)
        ≡ count_on 0 (1 + block_points (block_parts names at h.body)) }
{}

/// What is read of a canonical text is printed as that text again.
pub fn canonical_text_is_kept()
    ensures { (names : List (List ℕ)) (ws : List Word) (file read : File)
        → AreDistinct names
        → IsFileWithin ws file
        → IsNamedFile names file
        → IsSourceOf names (canonical_text names file) read
        → canonical_text names read ≡ canonical_text names file }
{}

/// What names can be written with one list can be written with a longer one.
pub fn names_stay_readable()
    ensures { (old new : List (List ℕ)) (file : File)
        → Begins old new → IsNamedFile old file → IsNamedFile new file }
{}

/// The token at the front of a text is the longest front that is one, and there is no other; where
/// the longest run behind a quote is `nil`, it is the quote, a bad character, and no front of
/// `'nil`.
pub fn tokens_are_the_longest()
    ensures first { (b : ℕ) (bs : List ℕ)
        → IsFirstToken (b ∷ bs) (with_reserved (scan (b ∷ bs)).0 (take (scan (b ∷ bs)).1 (b ∷ bs)))
        (scan (b ∷ bs)).1 }
    ensures one { (text : List ℕ) (k l : TokenKind) (n m : ℕ)
        → IsFirstToken text k n → IsFirstToken text l m → (k ≡ l) × (n ≡ m) }
    ensures nil { (text : List ℕ) → IsQuotedNil text → IsFirstToken text token_kind.Bad 1 }
{}

/// The tokens of a source, with the blanks and comments between them, are the source; and each
/// call of the iterator gives the first of those that are to come.
pub fn tokens_are_the_source()
    ensures spelled { (source : List ℕ) → Spell (pieces 0 0 source) source }
    ensures next { (old : Tokens) (token : Token) (new : Tokens)
        → Gives old token new → IsNext old token new }
{}
