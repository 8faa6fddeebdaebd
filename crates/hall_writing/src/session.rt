// A session whose hall is open, and whose replies can be written.

ghost use Rattle.std.specs.Prelude.{◌≡◌, ◌≤◌, IfOk, length};
ghost use Rattle.session_values.specs.Limits.{max_tables};

use crate::Lane;
use crate::job::Job;
use crate::room::begin_jobs;
use crate::sheet::Sheet;
use byte_ends::WriteBuffer;
use hall_serving::make_scratches;
use reply_sheet::Pending;
use session_hall::{Caller, Hall, Sizes};
use session_journal::{Script, Tickets};
use session_values::{NoMemory, TableKind};
use std::alloc::Global;
use std::marker::Model;

/// A session whose hall is open, with a lane for its replies. Only `open_writing` makes one. It
/// has all the memory that serving its tickets, writing their lines and closing its hall take.
#[derive(Drop)]
pub struct WritingSession<S: Tickets + Drop> {
    pub(crate) hall: Hall<S>,
    pub(crate) lane: Lane,
    /// One for each caller.
    pub(crate) jobs: Vec<Job<S>>,
    /// An empty list, with room for the callers when they are out.
    pub(crate) left: Vec<Caller<S>>,
    pub(crate) sheet: Sheet,
}

impl<S: Tickets + Drop> Model for WritingSession<S> {
    ghost use Rattle.std.specs.Prelude.{vec_capacity};
    ghost use Rattle.session_hall.specs.Names.{script_of};
    ghost use Rattle.hall_writing.specs.Sessions.{IsOpened, SessionView};

    ghost Value = { SessionView S };

    ghost view = { λ s. record {
      script = script_of s.hall;
      callers = s.hall.sizes.callers;
      shards = s.hall.sizes.shards;
    } };

    ghost invariant = { λ s. IsOpened S.meaning s.hall s.lane s.jobs.items s.left.items
        (vec_capacity s.left) s.sheet };
}

/// Opens the hall of a script, of these sizes, and a lane for the script's serial replies, and
/// takes all memory that the session needs. The hall is opened last.
pub fn open_writing<S: Script + Drop>(
    alloc: Global,
    script: S,
    shape: &[TableKind],
    sizes: Sizes,
) -> Result<WritingSession<S>, NoMemory>
    requires shape { shape.now ≡ (S.meaning script).shape }
    requires tables { length shape.now ≤ max_tables }
    ensures script { IfOk result (λ s. s.script ≡ script) }
    ensures callers { IfOk result (λ s. s.callers ≡ sizes.callers) }
    ensures shards { IfOk result (λ s. s.shards ≡ sizes.shards) }
{
    let Sizes { callers, shards } = sizes;
    let pending = Pending::with_room(alloc, script.requests())?;
    let buffer = WriteBuffer::new(alloc)?;
    let sheet = Sheet {
        pending,
        buffer,
        failed: false,
        alone: callers == 1,
    };
    let (lane, ends) = Lane::open(alloc, &script, callers)?;
    let mut ends = ends.into_vec();
    let mut scratches = make_scratches(alloc, callers)?;
    let mut jobs = Vec::with_capacity(alloc, callers as usize)?;
    let (hall, list) = Hall::open(alloc, script, shape, shards, callers)?;
    let mut left = list.into_vec();
    begin_jobs(&mut left, &mut scratches, &mut ends, &mut jobs);
    Ok(WritingSession {
        hall,
        lane,
        jobs,
        left,
        sheet,
    })
}
