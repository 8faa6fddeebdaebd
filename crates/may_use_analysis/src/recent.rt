// Where lists were kept.

use session_values::{NoMemory, Value};
use std::alloc::Global;
use symbolic_ops::{Arg, Symbol};

/// How many places are remembered.
const SLOTS: usize = 4_096;

/// An odd number without a pattern in its digits.
const FACTOR: u64 = 11_400_714_819_323_198_485;

/// For some lists the places at which they were kept last, by marks that are equal for equal lists.
/// What it gives is a hint: another list may have the same mark, and the place may be gone.
#[derive(Drop)]
pub(crate) struct Recent {
    places: Vec<usize>,
}

fn mark_of_arg(a: Arg) -> u64 {
    match a {
        Arg::Known(Value::Nil) => 1,
        Arg::Known(Value::Num(n)) => n.unsigned_abs().wrapping_mul(FACTOR),
        Arg::Known(Value::Sym(s)) => u64::from(s).wrapping_add(FACTOR),
        Arg::Var(x) => u64::from(x).wrapping_add(3),
        Arg::Any => 2,
    }
}

fn mark_of(s: &Symbol) -> u64 {
    mark_of_arg(s.key())
        .wrapping_mul(FACTOR)
        .wrapping_add(mark_of_arg(s.value()))
        .wrapping_mul(FACTOR)
        .wrapping_add(u64::from(s.table))
        .wrapping_add(s.kind as u64)
}

/// A mark of a list.
fn mark(list: &[Symbol]) -> u64 {
    let mut mark: u64 = 0;
    for s in list {
        mark = mark.wrapping_add(mark_of(s)).wrapping_mul(FACTOR);
    }
    mark
}

impl Recent {
    pub(crate) fn new(alloc: Global) -> Result<Recent, NoMemory> {
        let places = vec![in alloc; 0; SLOTS]?;
        Ok(Recent { places })
    }

    /// Remembers that a list is kept at a place, and gives the place that was remembered with its
    /// mark.
    pub(crate) fn exchange(&mut self, list: &[Symbol], place: usize) -> usize {
        let slot = (mark(list) >> 52) as usize;
        match self.places.get_mut(slot) {
            Some(kept) => std::mem::replace(kept, place),
            None => place,
        }
    }
}
