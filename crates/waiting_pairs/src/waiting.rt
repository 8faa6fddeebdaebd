// Who waits for whom.

ghost use Rattle.std.specs.Prelude.{◌≡◌, ◌++◌, ◌+◌, ◌-◌, ◌<◌, List, IfOk, OnOk, length, map};
ghost use Rattle.check_meaning.specs.Code.{points};
ghost use Rattle.serve_reading.specs.Resolved.{code_at};
ghost use Rattle.waiting_pairs.specs.Again.{AreAlike, moved_to};
ghost use Rattle.waiting_pairs.specs.Waits.{Adds, AreWaits, of_holder};
ghost use Rattle.waiting_pairs.specs.Chosen.{IsKnown};
ghost use Rattle.waiting_pairs.specs.declared.asked.Asked.{Asked};

use crate::asked::{Asked, asked_of};
use crate::known::Known;
use serve_reading::Program;
use session_values::NoMemory;
use std::alloc::Global;
use symbolic_ops::Symbol;

/// That a handler at a point makes an operation of a handler wait, one of its own also: another
/// request's.
#[derive(Clone, Copy, Debug)]
pub struct Wait {
    /// The number of the handler that is waited for, from 0 in the order of the file.
    pub holder: u32,
    /// A point of it.
    pub point: u32,
    /// What may still be called from there on.
    pub symbol: Symbol,
    /// The operation that waits.
    pub asked: Asked,
}

/// The operations that the symbols of a point delay.
fn waits_at(
    alloc: Global,
    program: &Program,
    known: &mut Known,
    holder: u32,
    point: u32,
) -> Result<Vec<Wait>, NoMemory>
    requires holder { holder < length program.now.file.handlers }
    requires point { point < 1 + points (code_at program.now.file holder) }
    ensures { (asked : List Asked) → IsKnown asked known.old
        → IfOk result (λ found. IsKnown asked known.new
        × AreAlike program.now asked holder point found.items) }
{
    let mut out = Vec::new(alloc);
    let symbols = program.declaration(holder, point);
    for symbol in symbols {
        known.add_against(alloc, holder, point, symbol, &mut out)?;
    }
    Ok(out)
}

/// The same, where those of the point before it are known: if the same is declared at both, these
/// are they.
#[tactic(auto, using(crate::proofs::Adding::alike_next))]
fn waits_next(
    alloc: Global,
    program: &Program,
    known: &mut Known,
    holder: u32,
    point: u32,
    last: Vec<Wait>,
) -> Result<Vec<Wait>, NoMemory>
    requires holder { holder < length program.now.file.handlers }
    requires point { point < 1 + points (code_at program.now.file holder) }
    ensures { (asked : List Asked) → IsKnown asked known.old
        → (0 < point → AreAlike program.now asked holder (point - 1) last.items)
        → IfOk result (λ found. IsKnown asked known.new
        × AreAlike program.now asked holder point found.items) }
{
    if program.alike(holder, point) < point {
        Ok(last)
    } else {
        waits_at(alloc, program, known, holder, point)
    }
}

/// These waits join `out`, at this point.
fn add_at(point: u32, waits: &[Wait], out: &mut Vec<Wait>) -> Result<(), NoMemory>
    ensures { OnOk result (out.new.items ≡ out.old.items ++ map (moved_to point) waits.now) }
{
    for wait in waits {
        out.push(Wait { point, ..*wait })?;
    }
    Ok(())
}

/// The operations that a handler delays join `out`.
fn add_holder(
    alloc: Global,
    program: &Program,
    known: &mut Known,
    holder: u32,
    out: &mut Vec<Wait>,
) -> Result<(), NoMemory>
    requires { holder < length program.now.file.handlers }
    ensures { (asked : List Asked) → IsKnown asked known.old → OnOk result (IsKnown asked known.new
        × Adds (of_holder program.now asked holder) out.old.items out.new.items) }
{
    let count = program.checked().handler(holder).points;
    let mut last = Vec::new(alloc);
    for point in 0..count {
        last = waits_next(alloc, program, known, holder, point, last)?;
        add_at(point, &last, out)?;
    }
    Ok(())
}

/// Who waits for whom: each symbol of each point of each handler with each operation that it
/// delays, and no others, in the order of the text.
pub fn waits(alloc: Global, program: &Program) -> Result<Vec<Wait>, NoMemory>
    ensures { IfOk result (λ found. AreWaits program.now found.items) }
{
    let asked = asked_of(alloc, program)?;
    let mut known = Known::new(alloc, asked)?;
    let mut out = Vec::new(alloc);
    for holder in 0..program.checked().handlers() {
        add_holder(alloc, program, &mut known, holder, &mut out)?;
    }
    Ok(out)
}
