// Scripts.

ghost use Rattle.std.specs.Prelude.{◌≡◌, ◌≤◌, ◌<◌, Some, MatchOption, length, slice_get};
ghost use Rattle.session_values.specs.Limits.{max_symbols, max_variables};
ghost use Rattle.session_values.specs.Opening.{entries_of};
ghost use Rattle.session_journal.specs.Script.{HasSite, IsScript, Meaning, calls, declared_with, room};

use crate::site::Site;
use session_values::Value;
use symbolic_ops::{Foresight, Symbol};

/// Tickets with what each of them calls, answers and declares, over tables with what they open with.
pub trait Script {
    /// What the script means.
    ghost meaning: { Self → Meaning };

    /// The number of tickets.
    fn requests(&self) -> u32
        ensures requests { result ≡ (meaning self.now).requests }
        ensures lawful { IsScript (meaning self.now) };

    /// Replaces `out` by what the ticket declares at its beginning.
    fn entry(&self, t: u32, out: &mut Foresight)
        requires ticket { t < (meaning self.now).requests }
        requires room { max_symbols ≤ out.old.room }
        ensures { out.new ≡ record { symbols = (meaning self.now).entry t; room = out.old.room } };

    /// Where the ticket's first declaration stands among those of the script, with the values of its
    /// variables in `values`; or None where it is a list of its own, and then `values` says nothing.
    fn entry_site(&self, t: u32, values: &mut [Value]) -> Option<Site>
        requires ticket { t < (meaning self.now).requests }
        requires room { length values.old ≡ max_variables }
        ensures room { length values.new ≡ max_variables }
        ensures site { MatchOption result Unit
            (λ s. HasSite (meaning self.now) s max_variables
            × (declared_with (meaning self.now) s values.new ≡ (meaning self.now).entry t)) };

    /// What the script declares at a site, with variables.
    fn declaration(&self, site: Site) -> &[Symbol]
        requires { site.point < (meaning self.now).points site.part }
        ensures { result.now ≡ (meaning self.now).declared site.part site.point };

    /// The most operations of all tickets together.
    fn calls(&self) -> u32
        ensures { result ≡ calls (meaning self.now) };

    /// The most operations on a table that may add a key, of all tickets together.
    fn room(&self, table: u32) -> u32
        ensures { result ≡ room (meaning self.now) table };

    /// How many entries a table opens with.
    fn opening_len(&self, table: u32) -> u32
        requires { table < length (meaning self.now).shape }
        ensures { result ≡ length (entries_of (meaning self.now).opened table) };

    /// An entry that a table opens with: a key and its value, which is nil for a member.
    fn opening_entry(&self, table: u32, i: u32) -> (Value, Value)
        requires table { table < length (meaning self.now).shape }
        requires entry { i < length (entries_of (meaning self.now).opened table) }
        ensures { slice_get (entries_of (meaning self.now).opened table) i ≡ Some result };
}
