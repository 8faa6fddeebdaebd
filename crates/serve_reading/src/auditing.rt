// Reading an audit: from the bytes of a session file that ends in a trace to what can be judged.

ghost use Rattle.std.specs.Prelude.{◌≡◌, ◌≤◌, ◌*◌, IfOk, IfErr, IsCharBoundary, IsUtf8, false, length, true};
ghost use Rattle.session_values.specs.Limits.{max_input};
ghost use Rattle.handler_check.specs.Resolved.{shape_of};
ghost use Rattle.handler_syntax.specs.Language.{IsNamedFile};
ghost use Rattle.request_files.specs.TracePart.{IsTracePlace, has_trace};
ghost use Rattle.request_files.specs.Rows.{rows};
ghost use Rattle.request_files.specs.Text.{lines};
ghost use Rattle.trace_lines.specs.EventRows.{IsTrace};
ghost use Rattle.serve_faults.specs.Command.TheVariants.{Audit};
ghost use Rattle.serve_faults.specs.Traced.{table_places};
ghost use Rattle.serve_faults.specs.Input.{IsInput, max_audit_input, parts_by};
ghost use Rattle.serve_reading.specs.Audits.{AreTraced, IsAuditOf, IsEventsReason, IsTracedReason};
ghost use Rattle.serve_reading.specs.Reasons.{IsReason};

use crate::load_error::LoadError;
use crate::session::{Loaded, read_session};
use declaration_insertion::Program;
use handler_check::Checked;
use request_files::{Divided, Requests, TracePlace, divide, find_trace};
use serve_faults::Fault;
use session_journal::Trace;
use session_values::{MAX_INPUT, Names, NoMemory, Opening};
use std::alloc::Global;
use syntax_trees::File;
use trace_lines::read_trace;

/// A session whose requests a trace tells of, and the trace.
#[derive(Drop)]
pub struct Audited {
    /// The names of the session and of the trace.
    pub names: Names,
    pub program: Program,
    /// The entries with which the tables open.
    pub opening: Opening,
    pub requests: Requests,
    pub trace: Trace,
}

/// The session before the trace part of a file's bytes, and the trace.
pub fn load_audited(alloc: Global, bytes: &[u8]) -> Result<Audited, LoadError>
    requires { length bytes.now ≤ max_audit_input }
    ensures input { IfOk result (λ _. IsInput Audit bytes.now) }
    ensures loaded { IfOk result (IsAuditOf bytes.now) }
    ensures refused { IfErr result (IsReason Audit bytes.now) }
{
    match find_trace(bytes) {
        Some(place) => load_traced(alloc, bytes, place),
        None => Err(untraced(bytes)),
    }
}

/// Why a file without a trace part isn't judged.
#[tactic(auto, using(crate::proofs::AuditedFiles::untraced_large, crate::proofs::AuditedFiles::untraced_bytes, crate::proofs::AuditedFiles::untraced_undivided, crate::proofs::AuditedFiles::untraced_divided))]
fn untraced(bytes: &[u8]) -> LoadError
    requires short { length bytes.now ≤ max_audit_input }
    requires none { has_trace bytes.now ≡ false }
    ensures { IsReason Audit bytes.now result }
{
    if bytes.len() > MAX_INPUT {
        return LoadError::Refused(Fault::TooLarge);
    }
    let Ok(text) = std::str::from_utf8(bytes) else {
        return LoadError::Refused(Fault::NotText);
    };
    match divide(text) {
        Some(_) => LoadError::Refused(Fault::NoTrace),
        None => LoadError::Refused(Fault::NoRequests),
    }
}

/// The session before the trace part, which stands at this place, and the trace.
#[tactic(auto, using(crate::proofs::AuditedFiles::traced_large, crate::proofs::AuditedFiles::traced_bytes, crate::proofs::AuditedFiles::traced_undivided, crate::proofs::AuditedFiles::front_short, crate::proofs::AuditedFiles::events_short, crate::proofs::AuditedFiles::line_few, crate::proofs::AuditedFiles::traced_input, crate::proofs::AuditedFiles::audit_of, crate::proofs::AuditedFiles::traced_refused))]
fn load_traced(alloc: Global, bytes: &[u8], place: TracePlace) -> Result<Audited, LoadError>
    requires short { length bytes.now ≤ max_audit_input }
    requires found { has_trace bytes.now ≡ true }
    requires place { IsTracePlace bytes.now place }
    requires edges { IsUtf8 bytes.now → IsCharBoundary bytes.now place.front
        × IsCharBoundary bytes.now place.rest }
    ensures input { IfOk result (λ _. IsInput Audit bytes.now) }
    ensures loaded { IfOk result (IsAuditOf bytes.now) }
    ensures refused { IfErr result (IsReason Audit bytes.now) }
{
    if place.front > MAX_INPUT {
        return Err(LoadError::Refused(Fault::TooLarge));
    }
    let Ok(text) = std::str::from_utf8(bytes) else {
        return Err(LoadError::Refused(Fault::NotText));
    };
    let (front, _) = text.split_at(place.front);
    let (_, events) = text.split_at(place.rest);
    let Some(parts) = divide(front) else {
        return Err(LoadError::Refused(Fault::NoRequests));
    };
    match read_traced(alloc, parts, events, place.line) {
        Ok(audited) => Ok(audited),
        Err(e) => Err(e),
    }
}

/// The session of a file's parts, and the trace of some lines.
#[tactic(auto, using(crate::proofs::AuditedFiles::are_traced, crate::proofs::AuditedFiles::session_refused, crate::proofs::AuditedFiles::events_refused))]
fn read_traced(
    alloc: Global,
    parts: Divided<'_>,
    events: &str,
    first: u32,
) -> Result<Audited, LoadError>
    requires events { length events.now ≤ max_audit_input }
    requires first { first ≤ 134217732 }
    ensures loaded { IfOk result (AreTraced (parts_by parts.entry.handlers.now
        parts.entry.tables.now parts.entry.requests.now parts.entry.first_table parts.entry.first)
        (rows first (lines events.now))) }
    ensures refused { IfErr result (IsTracedReason (parts_by parts.entry.handlers.now
        parts.entry.tables.now parts.entry.requests.now parts.entry.first_table parts.entry.first)
        (rows first (lines events.now))) }
{
    let loaded = read_session(alloc, parts)?;
    let Loaded {
        mut names,
        handler_names: _,
        program,
        opening,
        requests,
    } = loaded;
    let trace = read_events(alloc, program.checked(), events, first, &mut names)?;
    Ok(Audited {
        names,
        program,
        opening,
        requests,
        trace,
    })
}

/// The trace of some lines, in which tables go by their names in a file.
#[tactic(auto, using(crate::proofs::AuditedFiles::tables_known))]
fn read_events(
    alloc: Global,
    checked: &Checked,
    events: &str,
    first: u32,
    names: &mut Names,
) -> Result<Trace, LoadError>
    requires named { IsNamedFile names.old checked.now }
    requires names { length names.old ≤ 3 * max_input }
    requires events { length events.now ≤ max_audit_input }
    requires first { first ≤ 134217732 }
    ensures trace { IfOk result (λ trace. IsTrace names.old names.new (table_places checked.now)
        (shape_of checked.now) (rows first (lines events.now)) trace) }
    ensures refused { IfErr result (IsEventsReason names.old checked.now
        (rows first (lines events.now))) }
{
    let tables = places_of(alloc, checked.file())?;
    let shape = checked.shape(alloc)?;
    Ok(read_trace(
        alloc,
        tables.as_slice(),
        shape.as_slice(),
        events,
        first,
        names,
    )?)
}

/// The places of the names of a file's tables.
fn places_of(alloc: Global, file: &File) -> Result<Vec<u32>, NoMemory>
    ensures { IfOk result (λ places. places.items ≡ table_places file.now) }
{
    Ok(
        file.tables
            .as_slice()
            .iter()
            .map(|t| t.name)
            .collect(alloc)?,
    )
}
