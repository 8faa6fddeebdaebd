// Opening a session.

ghost use Rattle.std.specs.Prelude.{◌≡◌, ◌<◌, ◌≤◌, ◌∷◌, [], IfErr, IfOk, OnOk, length, map, min};
ghost use Rattle.std.specs.Prelude.{slice_get, Some};
ghost use Rattle.session_values.specs.Limits.{max_input, max_tables};
ghost use Rattle.session_values.specs.declared.kind.TableKind.{TableKind as AnyKind};
ghost use Rattle.session_values.specs.Opening.{IsOpening, container_of, entries_of, tables_of};
ghost use Rattle.shard_tables.specs.Either.{index_in};
ghost use Rattle.shard_tables.specs.Slots.{factor_of};
ghost use Rattle.shard_tables.specs.Whole.{container_in};
ghost use Rattle.declaration_insertion.specs.Program.{IsProgram};
ghost use Rattle.handler_check.specs.Resolved.{shape_of};
ghost use Rattle.serve_faults.specs.Input.{parts_of};
ghost use Rattle.serve_reading.specs.Sessions.{IsLoaded, IsSessionInput};
ghost use Rattle.live_session.specs.Held.{AreAdds, factors_in, held};
ghost use Rattle.live_session.specs.Openings.{CanOpen, HasOpened, IsMade, IsUnmade, IsUnopened};
ghost use Rattle.live_session.specs.Openings.{first_view, seeded, unopened_by};

use crate::adds::adds_by_table;
use crate::arguments::Arguments;
use crate::growing::MOST_KEYS;
use crate::history::History;
use crate::naming::reseeded;
use crate::session::LiveSession;
use crate::tables::LiveTables;
use driven_tickets::OpenTickets;
use handler_check::Checked;
use serve_faults::Fault;
use serve_reading::{LoadError, Loaded, load_session};
use session_journal::Scratch;
use session_values::{MAX_HANDLERS, MAX_INPUT, MAX_VARIABLES, NoMemory, Opening, TableKind};
use shard_tables::Part;
use std::alloc::Global;

/// For how many keys more than it opens with a table has room at first.
pub(crate) const FIRST_ROOM: u32 = 16;

/// The most names of any session.
const MOST_NAMES: u32 = 4_000_000_000;

/// Why a session isn't opened.
#[derive(Debug, Drop)]
pub enum OpenError {
    /// This is the first rule that the session file breaks.
    Refused(Fault),
    /// It has requests.
    HasRequests,
    /// It has more names than the session may have.
    TooManyNames,
    /// Memory ran out.
    NoMemory,
}

impl From<LoadError> for OpenError {
    ghost from_gives = { λ why e. e ≡ unopened_by why };

    fn from(why: LoadError) -> OpenError {
        match why {
            LoadError::Refused(fault) => OpenError::Refused(fault),
            LoadError::NoMemory => OpenError::NoMemory,
        }
    }
}

// A table as it opens, with room for its entries and some more, whose searches begin as the seed
// has it. The last entry enters first.
fn opened_part(
    alloc: Global,
    opening: &Opening,
    kind: TableKind,
    table: u32,
    seed: u64,
) -> Result<Part, NoMemory>
    requires table { table < length opening.now }
    ensures entered { IfOk result (λ p. container_in p
        ≡ container_of kind (entries_of opening.now table)) }
    ensures factor { IfOk result (λ p. (index_in p).factor ≡ factor_of seed) }
{
    let len = opening.len(table);
    let room = len.saturating_add(FIRST_ROOM).min(MOST_KEYS);
    let mut part = Part::with_seed(alloc, kind, room, seed)?;
    for done in 0..len {
        let (key, value) = opening.entry(table, len - 1 - done);
        part.enter(key, value)?;
    }
    Ok(part)
}

// The tables of these kinds as they open.
fn opened_tables(
    alloc: Global,
    opening: &Opening,
    shape: &[TableKind],
    seed: u64,
) -> Result<LiveTables, NoMemory>
    requires long { length opening.now ≡ length shape.now }
    requires few { length shape.now ≤ max_tables }
    ensures held { IfOk result (λ ts. held ts.parts.items ≡ tables_of shape.now opening.now) }
    ensures factors { IfOk result (λ ts. factors_in ts.parts.items
        ≡ seeded seed (held ts.parts.items)) }
{
    let mut parts = Vec::with_capacity(alloc, shape.len())?;
    for table in 0..shape.len() {
        let part = opened_part(alloc, opening, shape[table], table as u32, seed)?;
        parts.push_reserved(part);
    }
    Ok(LiveTables { parts })
}

// The tables that were loaded as they open, and for each how many keys each handler may add.
fn tables_and_adds(
    alloc: Global,
    loaded: &Loaded,
    seed: u64,
) -> Result<(LiveTables, Vec<[u32; MAX_HANDLERS]>), NoMemory>
    requires long { length loaded.now.opening ≡ length (shape_of loaded.now.program.file) }
    requires few { length (shape_of loaded.now.program.file) ≤ max_tables }
    ensures held { IfOk result (λ p. held p.0.parts.items
        ≡ tables_of (shape_of loaded.now.program.file) loaded.now.opening) }
    ensures factors { IfOk result (λ p. factors_in p.0.parts.items
        ≡ seeded seed (held p.0.parts.items)) }
    ensures adds { IfOk result (λ p. AreAdds loaded.now.program.file
        (length (shape_of loaded.now.program.file)) p.1.items) }
    ensures program { IsProgram loaded.now.program }
{
    let checked = loaded.program.checked();
    let shape = checked.shape(alloc)?;
    let tables = opened_tables(alloc, &loaded.opening, shape.as_slice(), seed)?;
    let adds = adds_by_table(alloc, checked, shape.len() as u32)?;
    Ok((tables, adds))
}

// A session over what was loaded, before any line is served.
fn made(alloc: Global, loaded: Loaded, seed: u64, most_names: u32) -> Result<LiveSession, NoMemory>
    requires can { CanOpen loaded most_names }
    requires bound { most_names ≤ 4000000000 }
    ensures { IfOk result (λ s. s ≡ first_view loaded seed most_names) }
{
    let (tables, adds) = tables_and_adds(alloc, &loaded, seed)?;
    let values = Vec::with_capacity(alloc, MAX_VARIABLES)?;
    let scratch = Scratch::new(alloc)?;
    let names = reseeded(alloc, &loaded.names, seed)?;
    let tickets = OpenTickets::new(alloc);
    let history = History::opened(&names, &loaded.opening);
    Ok(LiveSession {
        alloc,
        program: loaded.program,
        adds,
        handler_names: loaded.handler_names,
        most_names,
        names,
        tables,
        seed,
        generation: 0,
        args: Arguments { values },
        scratch,
        tickets,
        history,
    })
}

// A session over what was loaded, where that has no requests and few names.
fn over(alloc: Global, loaded: Loaded, seed: u64, most: u32) -> Result<LiveSession, OpenError>
    requires can { length loaded.names ≤ most → CanOpen loaded most }
    requires bound { most ≤ 4000000000 }
    ensures made { IfOk result (IsMade loaded seed most) }
    ensures unmade { IfErr result (IsUnmade loaded most) }
{
    if loaded.requests.len() > 0 {
        return Err(OpenError::HasRequests);
    }
    if loaded.names.len() > most {
        return Err(OpenError::TooManyNames);
    }
    match made(alloc, loaded, seed, most) {
        Ok(session) => Ok(session),
        Err(_) => Err(OpenError::NoMemory),
    }
}

impl LiveSession {
    /// Opens a session over a session file without requests: its handlers, perhaps a table part,
    /// and the dividing line. Searches in its tables begin as the seed has it, and so do those among
    /// its names (in no clause): it is to come from where nobody who sends requests can know it.
    /// There may be so many names, of handlers, tables, variables and symbols together.
    pub fn open(
        alloc: Global,
        text: &[u8],
        seed: u64,
        most_names: u32,
    ) -> Result<LiveSession, OpenError>
        ensures opened { IfOk result (HasOpened text.now seed (min most_names 4000000000)) }
        ensures unopened { IfErr result (IsUnopened text.now (min most_names 4000000000)) }
    {
        if text.len() > MAX_INPUT {
            return Err(OpenError::Refused(Fault::TooLarge));
        }
        let loaded = load_session(alloc, text)?;
        over(alloc, loaded, seed, most_names.min(MOST_NAMES))
    }
}
