//! Laws of the counts: each is the contract of a function with an empty body.

ghost use Rattle.std.specs.Prelude.{◌≡◌, ◌↔◌, false, true, List, Contains};
ghost use Rattle.std.specs.List.{All, AllPairs};
ghost use Rattle.waiting_pairs.specs.declared.cause.Cause.{Cause};
ghost use Rattle.waiting_pairs.specs.declared.counting.Row.{Row};
ghost use Rattle.waiting_pairs.specs.Causes.{is_same};
ghost use Rattle.waiting_pairs.specs.Rows.{AreRows, firsts, row_of};

/// Causes are the same just where they are equal.
pub fn same_causes_are_equal()
    ensures { (a b : Cause) → (is_same a b ≡ true) ↔ (a ≡ b) }
{}

/// Each cause of a delay has its row, which tells how many delays have this cause.
pub fn each_delay_is_counted()
    ensures { (causes : List Cause) (rows : List Row) → AreRows causes rows → (c : Cause)
        → Contains causes c → Contains rows (row_of causes c) }
{}

/// Each row tells how many delays have its cause.
pub fn each_row_is_a_count()
    ensures { (causes : List Cause) (rows : List Row) → AreRows causes rows
        → All (λ r. r ≡ row_of causes r.cause) rows }
{}

/// The causes that have a row are different ones.
pub fn no_cause_has_two_rows()
    ensures { (causes : List Cause) → AllPairs (λ a b. is_same a b ≡ false) (firsts causes) }
{}
