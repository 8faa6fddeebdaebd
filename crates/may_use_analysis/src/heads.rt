// The lists at the heads of loops, found before the walk that keeps the lists of points.

ghost use Rattle.std.specs.Prelude.{◌≡◌, ◌↔◌, ◌⊎◌, ◌==◌, ◌<◌, if◌then◌else◌, ℕ, [], Contains, IfOk, OnOk, slice_index_or, vec_len};
ghost use Rattle.symbolic_ops.specs.declared.symbol.Symbol.{Symbol};
ghost use Rattle.may_use_analysis.specs.Warm.{HeadAt, IsTakenIn};

use crate::ordered::Ordered;
use session_values::NoMemory;
use std::alloc::Global;
use std::marker::Model;
use symbolic_ops::Symbol;

/// How many symbols are kept of a handler. Where there are more, loops are walked again for those
/// that aren't kept.
const ROOM: usize = 4_194_304;

/// The lists at the heads of loops, by the numbers of the loops' points.
#[derive(Drop)]
pub(crate) struct Heads {
    lists: Vec<Ordered>,
    // How many more symbols may be kept.
    room: usize,
}

impl Model for Heads {
    ghost use Rattle.std.specs.Prelude.{List};
    ghost use Rattle.symbolic_ops.specs.declared.symbol.Symbol.{Symbol};

    ghost Value = { List (List Symbol) };

    ghost view = { λ h. h.lists.items };
}

/// Puts empty lists behind the others, until there is one at a place.
fn extend_to(alloc: Global, lists: &mut Vec<Ordered>, place: u32) -> Result<(), NoMemory>
    ensures same { OnOk result ((i : ℕ) → slice_index_or lists.new.items i []
        ≡ slice_index_or lists.old.items i []) }
    ensures within { OnOk result (place < vec_len lists.new) }
{
    for i in lists.len()..place as usize + 1 {
        lists.push(Ordered::new(alloc))?;
    }
    Ok(())
}

/// Those of these symbols that a list doesn't have, so many at most.
fn new_among(
    alloc: Global,
    symbols: &[Symbol],
    kept: &Ordered,
    room: usize,
) -> Result<Ordered, NoMemory>
    ensures { IfOk result (λ fresh. (q : Symbol) → Contains fresh q → Contains symbols.now q) }
{
    let mut fresh = Ordered::new(alloc);
    for s in symbols {
        if fresh.as_slice().len() >= room || kept.has(s) {
            continue;
        }
        fresh.insert(*s)?;
    }
    Ok(fresh)
}

impl Heads {
    pub(crate) fn new(alloc: Global) -> Heads
        ensures { result ≡ [] }
    {
        Heads {
            lists: Vec::new(alloc),
            room: ROOM,
        }
    }

    /// Takes the kept list of a loop into this one.
    pub(crate) fn add_to(&self, point: u32, head: &mut Ordered) -> Result<(), NoMemory>
        ensures { OnOk result ((q : Symbol) → Contains head.new q
            ↔ (Contains head.old q ⊎ HeadAt self.now point q)) }
    {
        match self.lists.get(point as usize) {
            None => Ok(()),
            Some(kept) => {
                head.join(kept)?;
                Ok(())
            }
        }
    }

    /// The kept list of a loop.
    fn copy_of(&self, alloc: Global, point: u32) -> Result<Ordered, NoMemory>
        ensures { IfOk result (λ head. head ≡ slice_index_or self.now point []) }
    {
        match self.lists.get(point as usize) {
            None => Ok(Ordered::new(alloc)),
            Some(kept) => kept.copied(alloc),
        }
    }

    /// Keeps the list of a loop in place of what was kept, which has so many symbols fewer.
    fn keep(
        &mut self,
        alloc: Global,
        point: u32,
        head: Ordered,
        more: usize,
    ) -> Result<(), NoMemory>
        ensures { OnOk result ((i : ℕ) → slice_index_or self.new i []
            ≡ (if i == point then head else slice_index_or self.old i [])) }
    {
        extend_to(alloc, &mut self.lists, point)?;
        self.lists[point as usize] = head;
        self.room = self.room.saturating_sub(more);
        Ok(())
    }

    /// Keeps these symbols of the head of a loop beside the others, and gives those that are new,
    /// as many as there is room for.
    pub(crate) fn take_in(
        &mut self,
        alloc: Global,
        point: u32,
        symbols: &Ordered,
    ) -> Result<Ordered, NoMemory>
        ensures { IfOk result (IsTakenIn point symbols.now self.old self.new) }
    {
        let mut head = self.copy_of(alloc, point)?;
        let fresh = new_among(alloc, symbols.as_slice(), &head, self.room)?;
        head.join(&fresh)?;
        self.keep(alloc, point, head, fresh.as_slice().len())?;
        Ok(fresh)
    }
}
