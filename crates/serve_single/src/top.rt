// The calls of this crate.

ghost use Rattle.std.specs.Prelude.{ℕ, Some};
ghost use Rattle.byte_ends.specs.Changes.{change};
ghost use Rattle.serve_faults.specs.Command.TheVariants.{Audit, Dump, Ranges, Serve};
ghost use Rattle.serve_faults.specs.Ways.{describing};
ghost use Rattle.serve_single.specs.Runs.{RunsSingle, Tells};

use crate::auditing::audit_source;
use crate::checking::describe_source;
use crate::ending::tell;
use crate::ranging::range_source;
use crate::serving::serve_source;
use byte_ends::{Sink, Source};
use serve_faults::Status;
use std::alloc::Global;

/// Reads a file of handlers from `source`, writes its canonical text to `out` and, where it doesn't
/// end well, one line to `err`: what `check` does. With `shown`, the text has the declarations, as
/// `show` writes it.
pub fn describe<I: Source, O: Sink, E: Sink>(
    alloc: Global,
    shown: bool,
    source: &mut I,
    out: &mut O,
    err: &mut E,
) -> Status
    ensures runs { RunsSingle (Some (describing shown))
        (change I.left I.faults source.old source.new)
        (change O.held O.faults out.old out.new) result }
    ensures tells { Tells (change E.held E.faults err.old err.new) result }
{
    let status = describe_source(alloc, shown, source, out);
    tell(&status, err);
    status
}

/// Reads lines of holds and operations from `source`, writes what they answer to `out` and, where
/// it doesn't end well, one line to `err`: what `ranges` does.
pub fn ranges<I: Source, O: Sink, E: Sink>(
    alloc: Global,
    source: &mut I,
    out: &mut O,
    err: &mut E,
) -> Status
    ensures runs { RunsSingle (Some Ranges)
        (change I.left I.faults source.old source.new)
        (change O.held O.faults out.old out.new) result }
    ensures tells { Tells (change E.held E.faults err.old err.new) result }
{
    let status = range_source(alloc, source, out);
    tell(&status, err);
    status
}

/// Reads a session file that ends in a trace from `source`, writes what is judged of the trace to
/// `out` and, where it doesn't end well, one line to `err`: what `audit` does. With a verdict of
/// any kind it ends well.
pub fn audit<I: Source, O: Sink, E: Sink>(
    alloc: Global,
    source: &mut I,
    out: &mut O,
    err: &mut E,
) -> Status
    ensures runs { RunsSingle (Some Audit)
        (change I.left I.faults source.old source.new)
        (change O.held O.faults out.old out.new) result }
    ensures tells { Tells (change E.held E.faults err.old err.new) result }
{
    let status = audit_source(alloc, source, out);
    tell(&status, err);
    status
}

/// Reads a session file from `source`, runs the handlers of its requests one after another, writes
/// their replies to `out` and, where it doesn't end well, one line to `err`: the text is the one
/// that `serve` writes, whatever its callers and shards.
pub fn serve_alone<I: Source, O: Sink, E: Sink>(
    alloc: Global,
    source: &mut I,
    out: &mut O,
    err: &mut E,
) -> Status
    ensures runs { (callers shards : ℕ) → RunsSingle (Some (Serve callers shards))
        (change I.left I.faults source.old source.new)
        (change O.held O.faults out.old out.new) result }
    ensures tells { Tells (change E.held E.faults err.old err.new) result }
{
    let status = serve_source(alloc, false, source, out);
    tell(&status, err);
    status
}

/// Reads a session file from `source`, runs the handlers of its requests one after another, writes
/// the tables that they leave to `out` and, where it doesn't end well, one line to `err`: the text
/// is the one that `dump` writes, whatever its callers and shards.
pub fn dump_alone<I: Source, O: Sink, E: Sink>(
    alloc: Global,
    source: &mut I,
    out: &mut O,
    err: &mut E,
) -> Status
    ensures runs { (callers shards : ℕ) → RunsSingle (Some (Dump callers shards))
        (change I.left I.faults source.old source.new)
        (change O.held O.faults out.old out.new) result }
    ensures tells { Tells (change E.held E.faults err.old err.new) result }
{
    let status = serve_source(alloc, true, source, out);
    tell(&status, err);
    status
}
