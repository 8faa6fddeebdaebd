// The walk over the words of a text up to a place.

ghost use Rattle.std.specs.Prelude.{◌≡◌, ◌≤◌, ◌++◌, ◌∷◌, [], length, None, Some, IfOk, OnOk, cond};
ghost use Rattle.std.specs.List.{filter};
ghost use Rattle.session_values.specs.Limits.{max_input};
ghost use Rattle.refusal_advice.specs.Classes.{classes as all_classes};
ghost use Rattle.refusal_advice.specs.Following.{IsStopAt, all_words};
ghost use Rattle.refusal_advice.specs.Parts.{parts_of};
ghost use Rattle.refusal_advice.specs.Walk.{IsFound, IsStopIn, allows, found_in, whole, with_end};

use crate::class::Class;
use crate::names::names_for;
use crate::part::Part;
use crate::stop::Stop;
use crate::taking::{may_end, take};
use session_values::NoMemory;
use std::alloc::Global;
use syntax_grammar::{Reader, Sort, Word};

/// Whether a word of this class can come where these parts are to come.
fn can_follow(alloc: Global, parts: &[Part], class: Class) -> Result<bool, NoMemory>
    ensures { IfOk result (λ can. can ≡ allows (parts_of parts.now) class) }
{
    let mut tried = Vec::new(alloc);
    tried.extend_from_slice(parts)?;
    match class {
        Class::End => Ok(may_end(&mut tried)),
        class => take(&mut tried, class.word()),
    }
}

/// Appends the class where the test holds.
fn push_if(found: &mut Vec<Class>, can: bool, class: Class) -> Result<(), NoMemory>
    ensures { OnOk result (found.new.items ≡ found.old.items ++ cond can (class ∷ []) []) }
{
    if can {
        found.push(class)?;
    }
    Ok(())
}

/// Those of some classes of which a word can come there.
fn wanted_of(alloc: Global, parts: &[Part], classes: &[Class]) -> Result<Vec<Class>, NoMemory>
    ensures { IfOk result (λ found. found.items
        ≡ filter (allows (parts_of parts.now)) classes.now) }
{
    let mut found = Vec::new(alloc);
    for class in classes {
        let can = can_follow(alloc, parts, *class)?;
        push_if(&mut found, can, *class)?;
    }
    Ok(found)
}

/// The classes of the words that can come there.
fn wanted(alloc: Global, parts: &[Part]) -> Result<Vec<Class>, NoMemory>
    ensures { IfOk result (λ found. found.items
        ≡ filter (allows (parts_of parts.now)) all_classes) }
{
    wanted_of(alloc, parts, &Class::ALL)
}

/// The word at a place, if the parts take all words before it, and the word before it.
fn find(
    reader: &mut Reader<'_>,
    at: u32,
    parts: &mut Vec<Part>,
) -> Result<Option<(Word, Option<Sort>)>, NoMemory>
    ensures { IfOk result (IsFound (found_in at None (parts_of parts.old.items)
        (with_end reader.old)) (parts_of parts.new.items)) }
{
    let mut last = None;
    'words: loop {
        let word = reader.take()?;
        if word.at == at {
            return Ok(Some((word, last)));
        }
        if !take(parts, word.sort)? {
            return Ok(None);
        }
        last = Some(word.sort);
    }
}

/// The parts of a whole text.
fn whole_parts(alloc: Global) -> Result<Vec<Part>, NoMemory>
    ensures { IfOk result (λ parts. parts_of parts.items ≡ whole) }
{
    let parts = vec![in alloc; Part::Handlers, Part::Tables]?;
    Ok(parts)
}

/// The same by the walk over the words.
#[tactic(none)]
fn stop_in(alloc: Global, source: &str, at: u32) -> Result<Option<Stop>, NoMemory>
    requires { length source.now ≤ max_input }
    ensures { IfOk result (IsStopIn (found_in at None whole (all_words source.now))) }
{
    let mut names = names_for(alloc, source);
    let mut reader = Reader::over(source, &mut names);
    let mut parts = whole_parts(alloc)?;
    match find(&mut reader, at, &mut parts)? {
        Some((word, last)) => {
            let wanted = wanted(alloc, parts.as_slice())?;
            Ok(Some(Stop { word, last, wanted }))
        }
        None => Ok(None),
    }
}

/// What was found at a byte place of a text of handlers, and what could stand there; none where no
/// word stands at that place behind words that begin a text of the grammar.
#[tactic(none)]
pub fn stop_at(alloc: Global, source: &str, at: u32) -> Result<Option<Stop>, NoMemory>
    requires { length source.now ≤ max_input }
    ensures { IfOk result (IsStopAt source.now at) }
{
    stop_in(alloc, source, at)
}
