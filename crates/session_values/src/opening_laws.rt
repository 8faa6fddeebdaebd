//! Laws of tables that open with entries.

ghost use Rattle.std.specs.Prelude.{◌≡◌, ℕ, ◌≤◌, List, length, map, replicate, []};
ghost use Rattle.std.specs.List.{AllByRecursion};
ghost use Rattle.session_values.specs.declared.kind.TableKind.{TableKind};
ghost use Rattle.session_values.specs.Tables.{AreValues, kind_of, size_of, start, table};
ghost use Rattle.session_values.specs.Opening.{Pair, AreEntries, AreKept, IsOpening, HaveNil, count_all, entries_of, no_entries, tables_of};

/// Tables that open with entries have the kinds that are asked for, hold values that a program can
/// hold, and have at most as many keys as entries, each of them and all together.
pub fn tables_open()
    ensures kinds { (shape : List TableKind) (lists : List (List Pair))
        → map kind_of (tables_of shape lists) ≡ shape }
    ensures values { (shape : List TableKind) (lists : List (List Pair)) → AreEntries shape lists
        → AllByRecursion AreValues (tables_of shape lists) }
    ensures sizes { (shape : List TableKind) (lists : List (List Pair)) (i : ℕ)
        → size_of (table (tables_of shape lists) i) ≤ length (entries_of lists i) }
    ensures few { (lists : List (List Pair)) (i : ℕ)
        → length (entries_of lists i) ≤ count_all lists }
{}

/// No entries make the empty tables with which a session starts, and may open them.
pub fn no_entries_open()
    ensures start { (shape : List TableKind) → start shape ≡ tables_of shape (no_entries shape) }
    ensures opening { (shape : List TableKind) → IsOpening shape (no_entries shape) }
    ensures lists { (shape : List TableKind) → no_entries shape ≡ replicate (length shape) [] }
{}

/// What an opening keeps may open tables of these kinds, where there is a list for each and the
/// values of members are nil.
pub fn kept_may_open()
    ensures { (shape : List TableKind) (lists : List (List Pair)) → AreKept lists
        → HaveNil shape lists → IsOpening shape lists }
{}
