// The JSON that tells who waited for whom.

ghost use Rattle.std.specs.Prelude.{◌≡◌, ◌∷◌, [], ◌++◌, false, IfOk, map};
ghost use Rattle.serde_json.specs.Data.{array};
ghost use Rattle.serde_json.specs.View.{items_of, view};
ghost use Rattle.serde_json.specs.Written.{compact_text, has_float};
ghost use Rattle.waiting_pairs.specs.CountJson as spec;

use crate::count_lines::handler_text;
use crate::counting::Row;
use crate::counts::Counts;
use crate::symbol_text;
use serde_json::{Value, json};
use serve_reading::Program;
use session_values::{Names, NoMemory};
use std::alloc::{AllocError, Global};
use symbolic_ops::Symbol;

/// What a row's object holds.
#[derive(Clone, Copy)]
struct Parts<'a> {
    count: u32,
    /// The handler that waited.
    waits: &'a str,
    /// Its operation.
    operation: &'a str,
    /// The handler for which it waited.
    holder: &'a str,
    /// What that one might still call.
    symbol: &'a str,
}

/// The object of a row with these parts.
fn object(alloc: Global, parts: &Parts<'_>) -> Result<Value, AllocError>
    ensures { IfOk result (λ v. view v ≡ spec.parts_value parts.now.count parts.now.waits.now
        parts.now.operation.now parts.now.holder.now parts.now.symbol.now) }
{
    json!(in alloc; {
        "count": parts.count,
        "waits": parts.waits,
        "operation": parts.operation,
        "for": parts.holder,
        "symbol": parts.symbol
    })
}

/// The object of a row.
fn row_value(alloc: Global, program: &Program, names: &Names, row: &Row) -> Result<Value, NoMemory>
    ensures { IfOk result (λ v. view v ≡ spec.row_value names.now program.now.file row.now) }
{
    let cause = &row.cause;
    let operation = symbol_text(alloc, program, names, 0, &Symbol::exact(&cause.operation))?;
    let symbol = symbol_text(alloc, program, names, 0, &cause.symbol)?;
    let parts = Parts {
        count: row.count,
        waits: handler_text(program, names, cause.waits),
        operation: operation.as_str(),
        holder: handler_text(program, names, cause.holder),
        symbol: symbol.as_str(),
    };
    Ok(object(alloc, &parts)?)
}

/// The objects of rows, in the same order.
fn row_values(
    alloc: Global,
    program: &Program,
    names: &Names,
    rows: &[Row],
) -> Result<Vec<Value>, NoMemory>
    ensures { IfOk result (λ values. map view values.items
        ≡ map (spec.row_value names.now program.now.file) rows.now) }
{
    let mut values = Vec::new(alloc);
    for row in rows {
        values.push(row_value(alloc, program, names, row)?)?;
    }
    Ok(values)
}

/// The array of a chain's tickets.
fn chain_value(alloc: Global, chain: &[u32]) -> Result<Value, NoMemory>
    ensures { IfOk result (λ v. view v ≡ spec.chain_value chain.now) }
{
    let mut values = Vec::new(alloc);
    for ticket in chain {
        values.push(Value::from(*ticket))?;
    }
    Ok(Value::Array(values))
}

/// The arrays of chains, in the same order.
fn chain_values(alloc: Global, chains: &[Vec<u32>]) -> Result<Vec<Value>, NoMemory>
    ensures { IfOk result (λ values. map view values.items
        ≡ map spec.chain_value (map (λ c. c.items) chains.now)) }
{
    let mut values = Vec::new(alloc);
    for chain in chains {
        values.push(chain_value(alloc, chain)?)?;
    }
    Ok(values)
}

/// The object of chains and rows.
fn all_value(alloc: Global, chains: Vec<Value>, rows: Vec<Value>) -> Result<Value, AllocError>
    ensures { IfOk result (λ v. view v
        ≡ spec.all_value (map view chains.items) (map view rows.items)) }
{
    json!(in alloc; {
        "chains": Value::Array(chains),
        "delays": Value::Array(rows)
    })
}

/// The text of a JSON value without a fraction, and a line feed.
fn value_text(alloc: Global, value: &Value) -> Result<Vec<u8>, NoMemory>
    ensures { IfOk result (λ text. has_float (view value.now) ≡ false
        → text.items ≡ compact_text (view value.now) ++ 10 ∷ []) }
{
    let mut text = value.to_vec(alloc)?;
    text.push(b'\n')?;
    Ok(text)
}

/// The JSON that tells of delays that were counted: an object with an array of arrays of tickets
/// and an array of objects, and a line feed.
pub fn delay_json(
    alloc: Global,
    program: &Program,
    names: &Names,
    counts: &Counts,
) -> Result<Vec<u8>, NoMemory>
    ensures { IfOk result (λ json. json.items ≡ spec.json names.now program.now.file
        counts.now.rows.items (map (λ c. c.items) counts.now.chains.items)) }
{
    let longest = counts.chains.as_slice();
    let chains = chain_values(alloc, longest)?;
    let counted = counts.rows.as_slice();
    let rows = row_values(alloc, program, names, counted)?;
    let value = all_value(alloc, chains, rows)?;
    value_text(alloc, &value)
}
