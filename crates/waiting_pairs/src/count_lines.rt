// The lines that tell who waited for whom.

ghost use Rattle.std.specs.Prelude.{◌≡◌, ◌++◌, IfOk, OnOk, map, string_bytes};
ghost use Rattle.std.specs.List.{flat_map};
ghost use Rattle.std.specs.Fmt.{decimal};
ghost use Rattle.waiting_pairs.specs.CountLines as spec;

use crate::cause::Cause;
use crate::counting::Row;
use crate::counts::Counts;
use crate::{handler_name, named, push_symbol};
use itoa::Buffer;
use serve_reading::Program;
use session_values::{Names, NoMemory};
use std::alloc::Global;
use symbolic_ops::Symbol;

/// The name of a handler, or a question mark.
pub(crate) fn handler_text<'a>(program: &Program, names: &'a Names, handler: Option<u32>) -> &'a str
    ensures { result.now ≡ spec.handler_word names.entry.now program.now.file handler }
{
    match handler {
        Some(h) => named(names, handler_name(program, h)),
        None => "?",
    }
}

/// Appends a number.
fn push_number(out: &mut String, n: u32) -> Result<(), NoMemory>
    ensures { OnOk result (string_bytes out.new ≡ string_bytes out.old ++ decimal n) }
{
    let mut buffer = Buffer::new();
    out.push_str(buffer.format(n))?;
    Ok(())
}

/// Appends the handler that waited, and its operation.
fn push_waiter(
    out: &mut String,
    program: &Program,
    names: &Names,
    cause: &Cause,
) -> Result<(), NoMemory>
    ensures { OnOk result (string_bytes out.new ≡ string_bytes out.old
        ++ spec.waiter_words names.now program.now.file cause.now) }
{
    out.push_str(handler_text(program, names, cause.waits))?;
    out.push_str("\t")?;
    push_symbol(out, program, names, 0, &Symbol::exact(&cause.operation))?;
    out.push_str("\t")?;
    Ok(())
}

/// Appends the handler for which it waited and the symbol, to the end of the line.
fn push_holder(
    out: &mut String,
    program: &Program,
    names: &Names,
    cause: &Cause,
) -> Result<(), NoMemory>
    ensures { OnOk result (string_bytes out.new ≡ string_bytes out.old
        ++ spec.holder_words names.now program.now.file cause.now) }
{
    out.push_str(handler_text(program, names, cause.holder))?;
    out.push_str("\t")?;
    push_symbol(out, program, names, 0, &cause.symbol)?;
    out.push_str("\n")?;
    Ok(())
}

/// Appends the line of a row.
fn push_row(out: &mut String, program: &Program, names: &Names, row: &Row) -> Result<(), NoMemory>
    ensures { OnOk result (string_bytes out.new ≡ string_bytes out.old
        ++ spec.line names.now program.now.file row.now) }
{
    push_number(out, row.count)?;
    out.push_str("\t")?;
    push_waiter(out, program, names, &row.cause)?;
    push_holder(out, program, names, &row.cause)
}

/// Appends the lines of rows.
fn push_rows(
    out: &mut String,
    program: &Program,
    names: &Names,
    rows: &[Row],
) -> Result<(), NoMemory>
    ensures { OnOk result (string_bytes out.new ≡ string_bytes out.old
        ++ spec.row_lines names.now program.now.file rows.now) }
{
    for row in rows {
        push_row(out, program, names, row)?;
    }
    Ok(())
}

/// Appends a blank and the number of a ticket.
fn push_ticket(out: &mut String, ticket: u32) -> Result<(), NoMemory>
    ensures { OnOk result (string_bytes out.new ≡ string_bytes out.old
        ++ spec.ticket_word ticket) }
{
    out.push_str(" ")?;
    push_number(out, ticket)
}

/// Appends the numbers of tickets, a blank before each.
fn push_tickets(out: &mut String, tickets: &[u32]) -> Result<(), NoMemory>
    ensures { OnOk result (string_bytes out.new ≡ string_bytes out.old
        ++ flat_map spec.ticket_word tickets.now) }
{
    for ticket in tickets {
        push_ticket(out, *ticket)?;
    }
    Ok(())
}

/// Appends the line of a chain.
fn push_chain(out: &mut String, chain: &[u32]) -> Result<(), NoMemory>
    ensures { OnOk result (string_bytes out.new ≡ string_bytes out.old
        ++ spec.chain_line chain.now) }
{
    out.push_str("# chain, each waits for the next:")?;
    push_tickets(out, chain)?;
    out.push_str("\n")?;
    Ok(())
}

/// Appends the lines of chains.
fn push_chains(out: &mut String, chains: &[Vec<u32>]) -> Result<(), NoMemory>
    ensures { OnOk result (string_bytes out.new ≡ string_bytes out.old
        ++ flat_map spec.chain_line (map (λ c. c.items) chains.now)) }
{
    for chain in chains {
        push_chain(out, chain)?;
    }
    Ok(())
}

/// Appends what stands above the rows.
fn push_head(out: &mut String, count: u32) -> Result<(), NoMemory>
    ensures { OnOk result (string_bytes out.new ≡ string_bytes out.old ++ spec.head count) }
{
    out.push_str("# ")?;
    push_number(out, count)?;
    out.push_str(" delays: count, waits, operation, for, symbol\n")?;
    Ok(())
}

/// The lines that tell of delays that were counted.
pub fn delay_lines(
    alloc: Global,
    program: &Program,
    names: &Names,
    counts: &Counts,
) -> Result<Vec<u8>, NoMemory>
    ensures { IfOk result (λ lines. lines.items ≡ spec.lines names.now program.now.file
        counts.now.delays counts.now.rows.items (map (λ c. c.items) counts.now.chains.items)) }
{
    let mut out = String::new(alloc);
    push_head(&mut out, counts.delays)?;
    push_rows(&mut out, program, names, &counts.rows)?;
    push_chains(&mut out, &counts.chains)?;
    Ok(out.into_bytes())
}
