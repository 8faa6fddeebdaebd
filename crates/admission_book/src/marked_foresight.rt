// A foresight with the tables that it touches.

ghost use Rattle.std.specs.Prelude.{◌≡◌, ◌<◌, ◌≤◌, MatchOption, IfOk, length};
ghost use Rattle.std.specs.List.{AllByRecursion};
ghost use Rattle.session_values.specs.Limits.{max_symbols, max_variables};
ghost use Rattle.session_journal.specs.Script.{Meaning};
ghost use Rattle.symbolic_ops.specs.Commuting.{CommutesWith};
ghost use Rattle.admission_book.specs.Book.{IsFirstAgainst};
ghost use Rattle.admission_book.specs.Foresights.{IsKnown, KeepsForesight, at_site, no_foresight, symbols_of, with_values};

use crate::blocker::first_against;
use crate::site_symbols::first_at_site;
use crate::touched_tables::TouchedTables;
use session_journal::{Site, Tickets};
use session_values::{MAX_SYMBOLS, MAX_VARIABLES, NoMemory, Op, Value};
use std::alloc::Global;
use std::marker::Model;
use symbolic_ops::{Foresight, Symbol};

/// What a ticket may still call: the symbols of a list, or those that the script declares at a site
/// with some values. The latter are made only where an operation is held against them. Beside them
/// stand the tables that they touch, so that a search passes them at once where none of these is
/// the operation's.
#[derive(Drop)]
pub(crate) struct MarkedForesight {
    /// The list, in room for 256 symbols. It says nothing where there is a site.
    list: Foresight,
    /// The site, where it was told by one.
    site: Option<Site>,
    /// The values of the site's variables, then others that say nothing, 32 in all.
    values: Vec<Value>,
    /// Those of what was taken, which all that is narrower keeps to.
    touched: TouchedTables,
}

impl Model for MarkedForesight {
    ghost use Rattle.std.specs.Prelude.{◌≡◌, length};
    ghost use Rattle.session_values.specs.Limits.{max_variables};
    ghost use Rattle.admission_book.specs.Foresights.{MarkedView};

    ghost Value = { MarkedView };

    ghost view = { λ f. record {
      list = f.list;
      site = f.site;
      values = f.values.items;
      touched = f.touched;
    } };

    ghost invariant = { λ f. length f.values.items ≡ max_variables };
}

/// Puts values in place of the first ones.
#[inline(always)]
fn put_first(held: &mut [Value], values: &[Value])
    requires { length values.now ≤ length held.old }
    ensures { held.new ≡ with_values held.old values.now }
{
    held[..values.len()].copy_from_slice(values);
}

impl MarkedForesight {
    /// An empty one, with room for any foresight.
    pub(crate) fn empty(alloc: Global) -> Result<MarkedForesight, NoMemory>
        ensures { IfOk result (λ f. f ≡ no_foresight) }
    {
        let list = Foresight::with_room(alloc, MAX_SYMBOLS)?;
        let values = vec![in alloc; Value::Nil; MAX_VARIABLES]?;
        Ok(MarkedForesight {
            list,
            site: None,
            values,
            touched: TouchedTables::none(),
        })
    }

    /// Takes a list in place of its own symbols.
    pub(crate) fn take(&mut self, entry: &Foresight)
        requires room { max_symbols ≤ self.old.list.room }
        requires few { length entry.now.symbols ≤ max_symbols }
        ensures { (m : Meaning) → IsKnown m self.new entry.now.symbols }
    {
        self.list.replace(entry);
        self.site = None;
        self.touched = TouchedTables::of(entry.symbols());
    }

    /// Takes what a ticket of a script declares at its beginning in place of its own symbols.
    pub(crate) fn take_entry<S: Tickets>(&mut self, script: &S, t: u32)
        requires ticket { t < (S.meaning script.now).requests }
        requires room { max_symbols ≤ self.old.list.room }
        ensures { IsKnown (S.meaning script.now) self.new ((S.meaning script.now).entry t) }
    {
        match script.entry_site(t, self.values.as_mut_slice()) {
            Some(site) => {
                self.site = Some(site);
                self.touched = TouchedTables::of(script.declaration(site));
            }
            None => {
                script.entry(t, &mut self.list);
                self.site = None;
                self.touched = TouchedTables::of(self.list.symbols());
            }
        }
    }

    /// Takes what is declared at a site with these values in place of its own symbols, which cover
    /// that.
    #[inline(always)]
    pub(crate) fn narrow_at(&mut self, site: Site, values: &[Value])
        requires { length values.now ≤ max_variables }
        ensures { self.new ≡ at_site self.old site values.now }
    {
        self.site = Some(site);
        put_first(self.values.as_mut_slice(), values);
    }

    /// The first symbol with which the operation doesn't commute.
    pub(crate) fn first_against<S: Tickets>(&self, script: &S, op: &Op) -> Option<Symbol>
        requires { KeepsForesight (S.meaning script.now) self.now }
        ensures { MatchOption result
            (AllByRecursion (λ y. CommutesWith op.now y)
            (symbols_of (S.meaning script.now) self.now))
            (λ y. IsFirstAgainst op.now (symbols_of (S.meaning script.now) self.now) y) }
    {
        if !self.touched.may_be_against(op) {
            return None;
        }
        match self.site {
            Some(site) => first_at_site(op, script.declaration(site), self.values.as_slice()),
            None => first_against(op, self.list.symbols()),
        }
    }
}
