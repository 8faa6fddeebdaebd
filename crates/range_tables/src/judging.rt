// Lines as steps, and their faults.

ghost use Rattle.std.specs.Prelude.{◌≡◌, ◌≢◌, ◌<◌, ◌≤◌, length, Ok, Some, None, IfOk, is_some};
ghost use Rattle.std.specs.List.{count_by};
ghost use Rattle.range_tables.specs.Faults as spec;
ghost use Rattle.range_tables.specs.Ready.{IsReadyStep};
ghost use Rattle.range_tables.specs.Steps as steps;

use crate::RangeSymbol;
use crate::refusal::RangeRefusal;
use crate::step::{Flaw, Step, step_of};
use crate::word::Word;
use session_values::Listed;
use std::alloc::Global;

/// The lines with words.
pub(crate) const MAX_LINES: u32 = 4000;

/// The holds that are open at once.
const MAX_HOLDS: usize = 64;

/// The symbols of a hold.
const MAX_SYMBOLS: usize = 256;

/// How many parts the words have: one more than marks, or none where there are no words.
#[tactic(auto, using(crate::proofs::Parts::parts_count))]
fn part_count(words: &[Word]) -> usize
    ensures { result ≡ length (steps.parts words.now) }
{
    if words.is_empty() {
        return 0;
    }
    mark_count(words) + 1
}

/// How many of the words are marks.
fn mark_count(words: &[Word]) -> usize
    ensures count { result ≡ count_by (λ w. w.is_mark) words.now }
    ensures few { result ≤ length words.now }
{
    let mut count = 0;
    for word in words {
        if word.is_mark {
            count += 1;
        }
    }
    count
}

/// How many holds are open.
fn open_count(holds: &[Option<Listed<RangeSymbol>>]) -> usize
    ensures { result ≡ count_by is_some holds.now }
{
    let mut count = 0;
    for hold in holds {
        if hold.is_some() {
            count += 1;
        }
    }
    count
}

/// Whether the hold of this number is open.
fn is_open(holds: &[Option<Listed<RangeSymbol>>], n: i64) -> bool
    ensures { result ≡ spec.is_open holds.now n }
{
    match usize::try_from(n) {
        Ok(h) => match holds.get(h) {
            Some(hold) => hold.is_some(),
            None => false,
        },
        Err(_) => false,
    }
}

/// Whether a line, a hold or a symbol is too many.
fn is_too_many(seen: u32, holds: &[Option<Listed<RangeSymbol>>], name: &str, words: &[Word]) -> bool
    ensures { result ≡ spec.is_too_many seen holds.now name.now words.now }
{
    if seen >= MAX_LINES {
        return true;
    }
    if name != "hold" {
        return false;
    }
    open_count(holds) >= MAX_HOLDS || part_count(words) > MAX_SYMBOLS
}

/// The refusal of a flaw.
fn flaw_at(line: u32, flaw: Flaw) -> RangeRefusal
    ensures { result ≡ spec.flaw_at line flaw }
{
    match flaw {
        Flaw::UnknownWord => RangeRefusal::UnknownWord { line },
        Flaw::Arity => RangeRefusal::Arity { line },
        Flaw::BadWord => RangeRefusal::BadWord { line },
    }
}

/// The step of a line, or its fault.
#[tactic(auto, unfolding(crate::specs::Faults::fault_of))]
pub(crate) fn judge(
    alloc: Global,
    line: u32,
    seen: u32,
    holds: &[Option<Listed<RangeSymbol>>],
    name: &str,
    words: &[Word],
) -> Result<Step, RangeRefusal>
    ensures is { IfOk result (λ s. steps.step_of name.now words.now ≡ Ok s) }
    ensures fine { IfOk result (λ _. spec.fault_of line seen holds.now name.now words.now ≡ None) }
    ensures ready { IfOk result IsReadyStep }
    ensures few { IfOk result (λ _. seen < 4000) }
    ensures refused { (e : _) → result ≡ Err e → e ≢ RangeRefusal.NoMemory →
        spec.fault_of line seen holds.now name.now words.now ≡ Some e }
{
    if is_too_many(seen, holds, name, words) {
        return Err(RangeRefusal::TooMany { line });
    }
    match step_of(alloc, name, words) {
        Ok(Ok(Step::Free(n))) => {
            if is_open(holds, n) {
                Ok(Step::Free(n))
            } else {
                Err(RangeRefusal::NotOpen { line })
            }
        }
        Ok(Ok(step)) => Ok(step),
        Ok(Err(flaw)) => Err(flaw_at(line, flaw)),
        Err(_) => Err(RangeRefusal::NoMemory),
    }
}
