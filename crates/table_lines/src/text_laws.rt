//! Laws of the text of tables: its order is one, and what is written reads back.

ghost use Rattle.std.specs.Prelude.{◌≡◌, ℕ, List, [], ◌∷◌, Option, Some, map};
ghost use Rattle.std.specs.Cmp.{IsTotalOrder};
ghost use Rattle.std.specs.FinMap.{IsAntisymmetric};
ghost use Rattle.session_values.specs.Opening.{Pair, container_of};
ghost use Rattle.session_values.specs.Names.{AreDistinct, Begins};
ghost use Rattle.session_values.specs.declared.kind.TableKind.{TableKind};
ghost use Rattle.text_lines.specs.Rows.{row_of, rows};
ghost use Rattle.text_lines.specs.Text.{lines};
ghost use Rattle.text_lines.specs.Values.{placed_all};
ghost use Rattle.table_lines.specs.Written.{Written, written_cmp};
ghost use Rattle.table_lines.specs.TableText.{Entry, entry_line, entry_words, entry_values, entries_in, entries_text, written_table};
ghost use Rattle.table_lines.specs.Listed.{AreRising, HavePrintableKeys, WrittenPair, entries_told, keys_of, written_of, written_pair};
ghost use Rattle.table_lines.specs.Reading.{AreReadable, IsReadableEntry, read_as, rows_from};

/// What is written is in one order, in which only equals tie.
pub fn order_of_written()
    ensures total { IsTotalOrder written_cmp }
    ensures exact { IsAntisymmetric written_cmp }
{}

/// The words of an entry's line are the name of its table and those of its key and value, and are
/// read as what was written.
pub fn line_reads_back()
    ensures row { (n : ℕ) (e : Entry) → IsReadableEntry e
        → rows n (lines (entry_line e)) ≡ row_of n e.name (entry_words e) ∷ [] }
    ensures values { (names all : List (List ℕ)) (e : Entry) → IsReadableEntry e
        → Begins (placed_all names (entry_words e)) all
        → map (read_as all) (entry_words e) ≡ map Some (entry_values e) }
{}

/// The lines of some entries are read as these entries, in their order.
pub fn text_reads_back()
    ensures { (n : ℕ) (es : List Entry) → AreReadable es
        → rows n (lines (entries_text es)) ≡ rows_from n es }
{}

/// A table is written as its entries are, in whatever order they are listed; and where their keys
/// rise, the lines of the table are those of the entries, in this order.
pub fn entries_make_the_text()
    ensures written { (names : List (List ℕ)) (kind : TableKind) (es : List Pair)
        → AreDistinct names → HavePrintableKeys names es
        → written_table names (container_of kind es)
        ≡ written_of kind (map (written_pair names) es) }
    ensures sorted { (name : List ℕ) (kind : TableKind) (ps : List WrittenPair)
        → AreRising (keys_of ps) → entries_in name (written_of kind ps)
        ≡ entries_told name kind ps }
{}
