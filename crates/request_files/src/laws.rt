//! Laws of the definitions: each is the contract of a function with an empty body.

ghost use Rattle.std.specs.Prelude.{◌≡◌, ◌↔◌, ℕ, ◌+◌, ◌<◌, ◌≤◌, List, [], ◌∷◌, ◌++◌, length, sum, None, Some};
ghost use Rattle.session_values.specs.Limits.{max_requests, max_session_calls, max_session_work};
ghost use Rattle.session_values.specs.Names.{AreDistinct};
ghost use Rattle.syntax_trees.specs.declared.file.File.{File};
ghost use Rattle.request_files.specs.declared.refusal.RequestRefusal.TheVariants.{Arity, BadWord, TooManyCalls, TooManyRequests, TooMuchWork, UnknownHandler};
ghost use Rattle.request_files.specs.Clients.{marks_in, row_counts, unmarked, without_marks};
ghost use Rattle.request_files.specs.Divide.{Divides};
ghost use Rattle.request_files.specs.Laws.{AreParts, CallsPass, IsOneTooMany, IsWellFormed, calls_named};
ghost use Rattle.request_files.specs.declared.request.Request.{Request};
ghost use Rattle.request_files.specs.Picked.{AreNumbersOf, picked};
ghost use Rattle.request_files.specs.Requests.{AreKnown, ArePrintable, first_fault, no_requests};
ghost use Rattle.request_files.specs.RowLaws.{AreWellFormed, DiffersInArity, HasBadWord, HasNoValue, HasOtherArity, IsNoName, NamesNoHandler};
ghost use Rattle.request_files.specs.Servable.{IsServable};
ghost use Rattle.text_lines.specs.Rows.{Row, rows};
ghost use Rattle.text_lines.specs.Text.{Text, lines};
ghost use Rattle.request_files.specs.WorkSums.{WorkPasses, work_named};

/// Handlers, perhaps the mark and the table part, the dividing line and requests are the file.
pub fn parts_of_file()
    ensures { (text handlers tables requests : Text) (first_table first : ℕ)
        → Divides text handlers tables requests first_table first
        → AreParts text handlers tables requests first_table first }
{}

/// Rows have no fault exactly where each names a handler and has a value for each of its
/// parameters, and their number and both sums are within the limits.
pub fn rows_without_fault()
    ensures { (names : List Text) (f : File) (rs : List Row) →
        (first_fault names f no_requests rs ≡ None) ↔ AreWellFormed names f rs }
{}

/// The row that is refused for its handler is the first whose name no handler has.
pub fn handlers_are_named()
    ensures told { (names : List Text) (f : File) (rs : List Row) (line : ℕ) →
        AreDistinct names → first_fault names f no_requests rs ≡ Some (UnknownHandler line) →
        NamesNoHandler names f rs line }
    ensures refused { (names : List Text) (f : File) (front : List Row) (row : Row)
        (back : List Row) → AreKnown names f → first_fault names f no_requests front ≡ None →
        length front < max_requests → IsNoName names f row.name →
        first_fault names f no_requests (front ++ row ∷ back) ≡ Some (UnknownHandler row.line) }
{}

/// The row that is refused for the number of its words is the first that hasn't as many as its
/// handler has parameters.
pub fn parameters_are_given()
    ensures told { (names : List Text) (f : File) (rs : List Row) (line : ℕ) →
        first_fault names f no_requests rs ≡ Some (Arity line) →
        DiffersInArity names f rs line }
    ensures refused { (names : List Text) (f : File) (front : List Row) (row : Row)
        (back : List Row) → first_fault names f no_requests front ≡ None →
        length front < max_requests → HasOtherArity names f row →
        first_fault names f no_requests (front ++ row ∷ back) ≡ Some (Arity row.line) }
{}

/// The row that is refused for a word is the first of which one is no value.
pub fn words_are_values()
    ensures told { (names : List Text) (f : File) (rs : List Row) (line : ℕ) →
        first_fault names f no_requests rs ≡ Some (BadWord line) → HasBadWord names f rs line }
    ensures refused { (names : List Text) (f : File) (front : List Row) (row : Row)
        (back : List Row) (word : Text) → first_fault names f no_requests front ≡ None →
        length front < max_requests → HasNoValue names f row word →
        first_fault names f no_requests (front ++ row ∷ back) ≡ Some (BadWord row.line) }
{}

/// The row that is refused for too many calls is the first with which their sum passes the limit.
pub fn calls_within_limit()
    ensures told { (names : List Text) (f : File) (rs : List Row) (line : ℕ) →
        first_fault names f no_requests rs ≡ Some (TooManyCalls line) → CallsPass names f rs line }
    ensures refused { (names : List Text) (f : File) (front : List Row) (row : Row)
        (back : List Row) → first_fault names f no_requests front ≡ None →
        length front < max_requests → IsWellFormed names f row →
        max_session_calls < calls_named names f (front ++ row ∷ []) →
        first_fault names f no_requests (front ++ row ∷ back) ≡ Some (TooManyCalls row.line) }
{}

/// The row behind 20,000 requests is refused, whatever it says, and no other for its place.
pub fn requests_within_limit()
    ensures told { (names : List Text) (f : File) (rs : List Row) (line : ℕ) →
        first_fault names f no_requests rs ≡ Some (TooManyRequests line) →
        IsOneTooMany names f rs line }
    ensures refused { (names : List Text) (f : File) (front : List Row) (row : Row)
        (back : List Row) → first_fault names f no_requests front ≡ None →
        length front ≡ max_requests →
        first_fault names f no_requests (front ++ row ∷ back) ≡ Some (TooManyRequests row.line) }
{}

/// The row that is refused for too much work is the first with which its sum passes the limit,
/// where the sum of calls doesn't pass its own.
pub fn work_within_limit()
    ensures told { (names : List Text) (f : File) (rs : List Row) (line : ℕ) →
        first_fault names f no_requests rs ≡ Some (TooMuchWork line) →
        WorkPasses names f rs line }
    ensures refused { (names : List Text) (f : File) (front : List Row) (row : Row)
        (back : List Row) → first_fault names f no_requests front ≡ None →
        length front < max_requests → IsWellFormed names f row →
        calls_named names f (front ++ row ∷ []) ≤ max_session_calls →
        max_session_work < work_named names f (front ++ row ∷ []) →
        first_fault names f no_requests (front ++ row ∷ back) ≡ Some (TooMuchWork row.line) }
{}

/// Requests picked by different numbers from servable ones are servable, and printable where these
/// are.
pub fn picked_requests()
    ensures servable { (f : File) (requests : List Request) (ns : List ℕ) →
        AreNumbersOf (length requests) ns → IsServable f requests →
        IsServable f (picked requests ns) }
    ensures printable { (names : List Text) (requests : List Request) (ns : List ℕ) →
        AreNumbersOf (length requests) ns → ArePrintable names requests →
        ArePrintable names (picked requests ns) }
{}

/// A text without its marks has the lines of the text, with an empty one in place of each mark.
pub fn marks_are_empty_lines()
    ensures { (text : Text) → lines (unmarked text) ≡ without_marks (lines text) }
{}

/// There is one client more than there are marks, and each request is one client's.
pub fn clients_of_lines()
    ensures count { (ls : List Text) → length (row_counts ls) ≡ 1 + marks_in ls }
    ensures all { (first : ℕ) (ls : List Text) →
        sum (row_counts ls) ≡ length (rows first (without_marks ls)) }
{}
