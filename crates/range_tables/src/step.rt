// What a line asks for.

ghost use Rattle.std.specs.Prelude.{◌≡◌, ◌≤◌, ◌+◌, [], List, Result, true, length, Some, IfOk};
ghost use Rattle.std.specs.Prelude.{OnOk};
ghost use Rattle.std.specs.List.{AllByRecursion};
ghost use Rattle.range_tables.specs.declared.range_symbol.RangeSymbol.{RangeSymbol as SymbolSpec};
ghost use Rattle.range_tables.specs.declared.step.Flaw.{Flaw as FlawSpec};
ghost use Rattle.range_tables.specs.Joined.{flaw_with, joined};
ghost use Rattle.range_tables.specs.Ready.{IsReady, IsReadyStep};
ghost use Rattle.range_tables.specs.Steps as spec;

use crate::symbol::{exact, number_in, symbol};
use crate::word::Word;
use crate::{RangeOp, RangeSymbol};
use session_values::{Listed, NoMemory};
use std::alloc::Global;

/// What is wrong with the words of a line. Of several flaws the first of these is named.
#[derive(Clone, Copy, Debug, PartialEq, Eq)]
pub(crate) enum Flaw {
    UnknownWord,
    Arity,
    BadWord,
}

/// What a line asks for.
#[derive(Debug, Drop)]
pub(crate) enum Step {
    /// Open a hold with these symbols.
    Hold(Listed<RangeSymbol>),
    /// Close the hold of this number.
    Free(i64),
    Do(RangeOp),
}

/// The flaw that is named where there are both.
fn sooner(f: Flaw, g: Flaw) -> Flaw
    ensures { result ≡ spec.sooner f g }
{
    match (f, g) {
        (Flaw::UnknownWord, _) | (_, Flaw::UnknownWord) => Flaw::UnknownWord,
        (Flaw::Arity, _) | (_, Flaw::Arity) => Flaw::Arity,
        (Flaw::BadWord, Flaw::BadWord) => Flaw::BadWord,
    }
}

/// What a flaw makes of the flaws before it.
fn with_flaw(before: Option<Flaw>, flaw: Flaw) -> Option<Flaw>
    ensures { result ≡ Some (flaw_with before flaw) }
{
    match before {
        Some(f) => Some(sooner(f, flaw)),
        None => Some(flaw),
    }
}

/// Takes one part: its symbol behind those that were found, or its flaw beside those before it.
fn take_part(
    found: &mut Vec<RangeSymbol>,
    flaw: Option<Flaw>,
    part: &[Word],
) -> Result<Option<Flaw>, NoMemory>
    requires { AllByRecursion IsReady found.old.items }
    ensures met { IfOk result (λ f. (rest : Result (List SymbolSpec) FlawSpec)
        → joined found.new.items f rest
        ≡ joined found.old.items flaw (spec.beside (spec.symbol_of part.now) rest)) }
    ensures few { OnOk result (length found.new.items ≤ length found.old.items + 1) }
    ensures ready { OnOk result (AllByRecursion IsReady found.new.items) }
{
    match symbol(part) {
        Ok(s) => {
            found.push(s)?;
            Ok(flaw)
        }
        Err(f) => Ok(with_flaw(flaw, f)),
    }
}

/// The symbols of the parts of some words, of which there is one at least, or the flaw among them
/// that is named.
fn symbols_of_parts(
    alloc: Global,
    words: &[Word],
) -> Result<Result<Listed<RangeSymbol>, Flaw>, NoMemory>
    requires { length (spec.parts_behind [] words.now) ≤ 256 }
    ensures is { IfOk result (λ r. r ≡ spec.symbols_of (spec.parts_behind [] words.now)) }
    ensures ready { IfOk result (λ r. IfOk r (AllByRecursion IsReady)) }
{
    let mut found = Vec::new(alloc);
    let mut flaw = None;
    let mut part = Vec::new(alloc);
    for word in words {
        if word.is_mark {
            flaw = take_part(&mut found, flaw, part.as_slice())?;
            part.clear();
        } else {
            part.push(*word)?;
        }
    }
    match take_part(&mut found, flaw, part.as_slice())? {
        Some(f) => Ok(Err(f)),
        None => Ok(Ok(Listed::from_vec(found))),
    }
}

/// The symbols of some words that marks part, or the flaw among them that is named.
fn symbols(alloc: Global, words: &[Word]) -> Result<Result<Listed<RangeSymbol>, Flaw>, NoMemory>
    requires { length (spec.parts words.now) ≤ 256 }
    ensures is { IfOk result (λ r. r ≡ spec.symbols_of (spec.parts words.now)) }
    ensures ready { IfOk result (λ r. IfOk r (AllByRecursion IsReady)) }
{
    match words {
        [] => Ok(Ok(Listed::from_vec(Vec::new(alloc)))),
        _ => symbols_of_parts(alloc, words),
    }
}

/// The hold that `free` names.
fn freed(words: &[Word]) -> Result<Step, Flaw>
    ensures is { result ≡ spec.free_of words.now }
    ensures ready { IfOk result IsReadyStep }
{
    match words {
        [word] => match number_in(word.operand) {
            Some(n) => Ok(Step::Free(n)),
            None => Err(Flaw::BadWord),
        },
        _ => Err(Flaw::Arity),
    }
}

/// The operation that `do` names.
fn done(words: &[Word]) -> Result<Step, Flaw>
    ensures is { result ≡ spec.do_of words.now }
    ensures ready { IfOk result IsReadyStep }
{
    if words.is_empty() {
        return Err(Flaw::Arity);
    }
    match symbol(words) {
        Ok(s) => match exact(&s) {
            Some(op) => Ok(Step::Do(op)),
            None => Err(Flaw::BadWord),
        },
        Err(f) => Err(f),
    }
}

/// What a line with this first word and these others asks for.
#[tactic(auto, unfolding(crate::specs::Steps::step_of))]
pub(crate) fn step_of(
    alloc: Global,
    name: &str,
    words: &[Word],
) -> Result<Result<Step, Flaw>, NoMemory>
    requires { spec.is_hold name.now ≡ true → length (spec.parts words.now) ≤ 256 }
    ensures is { IfOk result (λ r. r ≡ spec.step_of name.now words.now) }
    ensures ready { IfOk result (λ r. IfOk r IsReadyStep) }
{
    if name == "hold" {
        return match symbols(alloc, words)? {
            Ok(found) => Ok(Ok(Step::Hold(found))),
            Err(f) => Ok(Err(f)),
        };
    }
    if name == "free" {
        return Ok(freed(words));
    }
    if name == "do" {
        return Ok(done(words));
    }
    Ok(Err(Flaw::UnknownWord))
}
