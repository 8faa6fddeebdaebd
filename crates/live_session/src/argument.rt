// Arguments that are given without a line.

ghost use Rattle.std.specs.Prelude.{◌≡◌, ◌≢◌, ◌+◌, ◌++◌, ◌<◌, ◌≤◌, IfOk, OnErr, OnOk, None, Some};
ghost use Rattle.std.specs.Prelude.{length, true, false, vec_capacity};
ghost use Rattle.std.specs.List.{AllByRecursion};
ghost use Rattle.session_values.specs.Names.{Begins};
ghost use Rattle.text_lines.specs.Values as value_spec;
ghost use Rattle.live_session.specs.ArgumentWords as spec;

use crate::answers::InvokeError;
use session_values::{Names, NoMemory, Value};
use text_lines::is_symbol;

/// An argument of a request that is given without a line.
#[derive(Clone, Copy, Debug)]
pub enum Argument<'a> {
    /// `nil`.
    Nil,
    /// A number.
    Number(i64),
    /// A symbol by its text.
    Symbol(&'a str),
    /// A symbol by the number of its name among the session's names.
    Name(u32),
}

/// Whether a place has the text of a symbol.
fn is_symbol_at(names: &Names, place: u32) -> bool
    ensures { result ≡ value_spec.is_symbol (spec.name_at names.now place) }
{
    place < names.len() && is_symbol(names.text(place))
}

/// Why an argument is none. A program holds its number.
fn fault(argument: Argument<'_>, names: &Names) -> Option<InvokeError>
    ensures fault { result ≡ spec.argument_fault names.now argument.entry }
    ensures held { spec.IsHeld argument.entry }
{
    match argument {
        Argument::Nil => None,
        Argument::Number(_) => None,
        Argument::Symbol(text) => {
            if is_symbol(text) {
                return None;
            }
            Some(InvokeError::NoSymbol)
        }
        Argument::Name(place) => {
            if is_symbol_at(names, place) {
                return None;
            }
            Some(InvokeError::NoName)
        }
    }
}

/// Why the first of some arguments that is none isn't one.
pub(crate) fn first_fault(arguments: &[Argument<'_>], names: &Names) -> Option<InvokeError>
    ensures fault { result ≡ spec.first_fault names.now arguments.now }
    ensures held { spec.first_fault names.now arguments.now ≡ None
        → AllByRecursion spec.IsHeld arguments.now }
{
    for argument in arguments {
        if let Some(why) = fault(*argument, names) {
            return Some(why);
        }
    }
    None
}

/// The value of an argument that places no new name.
fn known_argument(argument: Argument<'_>, names: &Names) -> Option<Value>
    requires fine { spec.argument_fault names.now argument ≡ None }
    requires held { spec.IsHeld argument }
    ensures { spec.Known names.now (spec.word_of names.now argument.entry) result }
{
    match argument {
        Argument::Nil => Some(Value::Nil),
        Argument::Number(n) => Some(Value::Num(n)),
        Argument::Symbol(text) => match names.find(text) {
            Some(place) => Some(Value::Sym(place)),
            None => None,
        },
        Argument::Name(place) => {
            // The names are different.
            let _names = names.len();
            Some(Value::Sym(place))
        }
    }
}

/// Appends the values of some arguments, where they place no new name. It answers `false` where one
/// does.
pub(crate) fn known_arguments(
    arguments: &[Argument<'_>],
    names: &Names,
    list: &mut Vec<Value>,
) -> bool
    requires fine { spec.first_fault names.now arguments.now ≡ None }
    requires held { AllByRecursion spec.IsHeld arguments.now }
    requires room { length list.old.items + length arguments.now ≤ vec_capacity list.old }
    ensures values { result ≡ true → list.new.items ≡ list.old.items
        ++ value_spec.values_of names.now (spec.words_of names.now arguments.now) }
    ensures names { result ≡ true
        → value_spec.placed_all names.now (spec.words_of names.now arguments.now) ≡ names.now }
    ensures other { result ≡ false
        → value_spec.placed_all names.now (spec.words_of names.now arguments.now) ≢ names.now }
    ensures capacity { vec_capacity list.new ≡ vec_capacity list.old }
{
    for argument in arguments {
        match known_argument(*argument, names) {
            Some(value) => list.push_reserved(value),
            None => return false,
        }
    }
    true
}

/// The value of an argument, whose symbol is placed.
fn placed_argument(argument: Argument<'_>, names: &mut Names) -> Result<Value, NoMemory>
    requires fine { spec.argument_fault names.old argument ≡ None }
    requires held { spec.IsHeld argument }
    requires names { length names.old < 4294967295 }
    ensures value { IfOk result (λ v. value_spec.value_of names.new
        (spec.word_of names.old argument.entry) ≡ Some v) }
    ensures names { OnOk result (names.new
        ≡ value_spec.placed names.old (spec.word_of names.old argument.entry)) }
    ensures err { OnErr result (names.new ≡ names.old) }
{
    match argument {
        Argument::Nil => Ok(Value::Nil),
        Argument::Number(n) => Ok(Value::Num(n)),
        Argument::Symbol(text) => Ok(Value::Sym(names.place(text)?)),
        Argument::Name(place) => {
            // The names are different.
            let _names = names.len();
            Ok(Value::Sym(place))
        }
    }
}

/// Appends the values of some arguments, whose symbols are placed.
pub(crate) fn placed_arguments(
    arguments: &[Argument<'_>],
    names: &mut Names,
    list: &mut Vec<Value>,
) -> Result<(), NoMemory>
    requires fine { spec.first_fault names.old arguments.now ≡ None }
    requires held { AllByRecursion spec.IsHeld arguments.now }
    requires names { length names.old + length arguments.now ≤ 4294967295 }
    requires room { length list.old.items + length arguments.now ≤ vec_capacity list.old }
    ensures values { OnOk result (list.new.items ≡ list.old.items
        ++ value_spec.values_of names.new (spec.words_of names.old arguments.now)) }
    ensures names { OnOk result (names.new
        ≡ value_spec.placed_all names.old (spec.words_of names.old arguments.now)) }
    ensures kept { Begins names.old names.new }
    ensures capacity { vec_capacity list.new ≡ vec_capacity list.old }
{
    for argument in arguments {
        let value = placed_argument(*argument, names)?;
        list.push_reserved(value);
    }
    Ok(())
}
