//! Laws of lines and columns: each is the contract of a function with an empty body.

ghost use Rattle.std.specs.Prelude.{◌≡◌, ℕ, ◌+◌, ◌≤◌, length};
ghost use Rattle.text_lines.specs.Text.{Text};
ghost use Rattle.refusal_places.specs.Laws.{IsLineFront};
ghost use Rattle.refusal_places.specs.Spots.{column_of, indent_of, spot_at, start_of};

/// A place's line begins behind the last line feed before it.
pub fn lines_begin_behind_line_feeds()
    ensures { (file : Text) (at : ℕ) → at ≤ length file
        → IsLineFront file at (start_of file at) (spot_at file at).front }
{}

/// The caret stands in the column of its place.
pub fn carets_stand_in_columns()
    ensures { (front : Text) → length (indent_of front) + 1 ≡ column_of front }
{}
