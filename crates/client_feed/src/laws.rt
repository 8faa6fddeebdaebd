//! Laws on what arrives.

ghost use Rattle.std.specs.Prelude.{◌≡◌, ℕ, ◌+◌, ◌<◌, ◌++◌, List, length, sum, slice_get, Some};
ghost use Rattle.session_values.specs.Serial.{Session, serial, serial_replies, tables_before};
ghost use Rattle.reply_sheet.specs.Arrivals.{of, Rises, count_at, IsDrawn};
ghost use Rattle.client_feed.specs.Parts.{first_part, second_part};

use reply_sheet::Arrival;

/// Each arrival is a request that its client has.
pub fn arrivals_exist()
    ensures { (counts : List ℕ) (got : List Arrival) (i : ℕ) (x : Arrival) → IsDrawn counts got
        → slice_get got i ≡ Some x → (x.client < length counts)
        × (x.place < count_at counts x.client) }
{}

/// Once as many arrived as there are requests, each client's are all there, in order and each once.
pub fn all_arrived()
    ensures { (counts : List ℕ) (got : List Arrival) → IsDrawn counts got
        → length got ≡ sum counts → (p : ℕ) → Rises 0 (of p got) (count_at counts p) }
{}

/// Serving a session's tickets in two parts, the second from the final tables of the first, is
/// serving them one after another.
pub fn in_two_parts()
    ensures first { (n : ℕ) (s : Session) (t : ℕ)
        → tables_before (first_part n s) t ≡ tables_before s t }
    ensures tables { (n : ℕ) (s : Session) (t : ℕ)
        → tables_before s (n + t) ≡ tables_before (second_part n s) t }
    ensures tickets { (n : ℕ) (s : Session) (t : ℕ)
        → serial s (n + t) ≡ serial (second_part n s) t }
    ensures replies { (n : ℕ) (s : Session) (t : ℕ) → serial_replies s (n + t)
        ≡ serial_replies (first_part n s) n ++ serial_replies (second_part n s) t }
{}
