//! Laws of table lines: the text of tables reads back, and what the first fault of lines is.

ghost use Rattle.std.specs.Prelude.{◌≡◌, ◌↔◌, ℕ, ◌<◌, List, [], ◌∷◌, ◌++◌, length, None, Some};
ghost use Rattle.std.specs.Prelude.{slice_get};
ghost use Rattle.std.specs.List.{Contains};
ghost use Rattle.session_values.specs.OpeningLimits.{max_table_lines};
ghost use Rattle.session_values.specs.Opening.{Pair, container_of, entries_of};
ghost use Rattle.syntax_trees.specs.declared.file.TableDecl.{TableDecl};
ghost use Rattle.table_lines.specs.TableText.{WrittenTable, written_table};
ghost use Rattle.text_lines.specs.Rows.{Row};
ghost use Rattle.text_lines.specs.Text.{Text};
ghost use Rattle.table_lines.specs.declared.refusal.TableRefusal.TheVariants.{TooManyEntries};
ghost use Rattle.table_lines.specs.declared.refusal.TableRefusal.TheVariants.{Twice};
ghost use Rattle.table_lines.specs.Laws.{AreWellFormed, GiveOneKey, IsGivenTwice, IsOneTooMany};
ghost use Rattle.table_lines.specs.Laws.{IsWellFormed};
ghost use Rattle.table_lines.specs.TableRows.{first_table_fault};
ghost use Rattle.table_lines.specs.ReadBack.{AreReadBack, AreWritable, written_kind, written_rows};

/// What is read from the lines of tables is written as these tables again.
pub fn tables_read_back()
    ensures { (old new : List Text) (decls : List TableDecl) (n : ℕ) (tables : List WrittenTable)
        (found : List (List Pair)) → AreReadBack old new decls n tables found → (i : ℕ)
        (t : WrittenTable) → slice_get tables i ≡ Some t
        → written_table new (container_of (written_kind t) (entries_of found i)) ≡ t }
{}

/// The lines of tables have no fault, where they are few enough.
pub fn written_tables_have_no_fault()
    ensures { (old : List Text) (decls : List TableDecl) (n : ℕ) (tables : List WrittenTable)
        → AreWritable old decls tables
        → first_table_fault old decls [] (written_rows old decls n tables) ≡ None }
{}

/// Table lines have no fault exactly where each names a table and has values for a key and, of a
/// map, for what it maps to, no two give one table the same key, and they are few enough.
pub fn rows_without_fault()
    ensures { (names : List Text) (tables : List TableDecl) (rs : List Row)
        → (first_table_fault names tables [] rs ≡ None) ↔ AreWellFormed names tables rs }
{}

/// The line that is refused for its key is the first that gives a table a key which a line before
/// it gave the same table.
pub fn keys_are_given_once()
    ensures told { (names : List Text) (tables : List TableDecl) (rs : List Row) (line : ℕ)
        → first_table_fault names tables [] rs ≡ Some (Twice line)
        → IsGivenTwice names tables rs line }
    ensures refused { (names : List Text) (tables : List TableDecl) (front : List Row) (row : Row)
        (back : List Row) (earlier : Row) → first_table_fault names tables [] front ≡ None
        → length front < max_table_lines → IsWellFormed names tables row
        → Contains front earlier → GiveOneKey names tables row earlier
        → first_table_fault names tables [] (front ++ row ∷ back) ≡ Some (Twice row.line) }
{}

/// The line behind 100,000 entries is refused, whatever it says, and no other for its place.
pub fn entries_within_limit()
    ensures told { (names : List Text) (tables : List TableDecl) (rs : List Row) (line : ℕ)
        → first_table_fault names tables [] rs ≡ Some (TooManyEntries line)
        → IsOneTooMany names tables rs line }
    ensures refused { (names : List Text) (tables : List TableDecl) (front : List Row) (row : Row)
        (back : List Row) → first_table_fault names tables [] front ≡ None
        → length front ≡ max_table_lines
        → first_table_fault names tables [] (front ++ row ∷ back)
        ≡ Some (TooManyEntries row.line) }
{}
