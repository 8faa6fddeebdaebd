// What a caller is at.

ghost use Rattle.std.specs.Prelude.{◌≡◌};
ghost use Rattle.session_hall.specs.Stages.{IsApplied, IsInFlight, IsServing};
ghost use Rattle.session_hall.specs.declared.stage.Stage.TheVariants.{Applied, InFlight, Serving};

use session_values::{Op, Value};

/// What a caller is at.
#[derive(Clone, Copy, Debug, PartialEq, Eq)]
pub enum Stage {
    /// It serves no ticket.
    Idle,
    /// It serves this ticket, which has no operation in flight.
    Serving(u32),
    /// The ticket's operation is admitted.
    InFlight(u32, Op),
    /// The operation was done on its shards, which the caller holds, with this reply.
    Applied(u32, Op, Value),
    /// It serves no ticket, and all are begun.
    Out,
}

// The ticket and its operation in flight.
pub(crate) fn in_flight(stage: &Stage) -> (u32, &Op)
    requires { IsInFlight stage.now }
    ensures { stage.now ≡ InFlight result.0 result.1.now }
{
    match stage {
        Stage::InFlight(t, op) => (*t, op),
        _ => unreachable!(),
    }
}

// The ticket, its operation that was done on its shards, and the reply.
pub(crate) fn applied(stage: &Stage) -> (u32, &Op, Value)
    requires { IsApplied stage.now }
    ensures { stage.now ≡ Applied result.0 result.1.now result.2 }
{
    match stage {
        Stage::Applied(t, op, reply) => (*t, op, *reply),
        _ => unreachable!(),
    }
}

// The ticket that is served with no operation in flight.
pub(crate) fn serving(stage: &Stage) -> u32
    requires { IsServing stage.now }
    ensures { stage.now ≡ Serving result }
{
    match stage {
        Stage::Serving(t) => *t,
        _ => unreachable!(),
    }
}
