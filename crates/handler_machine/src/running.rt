// Running a handler on what answers its operations.

ghost use Rattle.std.specs.Prelude.{◌≡◌, ◌<◌, false, length, IfOk, OnErr};
ghost use Rattle.check_meaning.specs.Dialogue.{env_of, next};
ghost use Rattle.handler_check.specs.Resolved.{code_at, params_at, shape_of};
ghost use Rattle.handler_machine.specs.Asking.{Breaks, Runs, Stays};

use crate::{Answerer, run_body};
use handler_check::Checked;
use session_journal::Scratch;
use session_values::{NoMemory, Reply, Value};

/// Runs a handler of a checked file with these arguments. Want of memory comes only where what
/// answers isn't sure.
pub fn run_handler<A: Answerer>(
    checked: &Checked,
    h: u32,
    args: &[Value],
    scratch: &mut Scratch,
    who: &mut A,
) -> Result<Reply, NoMemory>
    requires handler { h < length checked.now.handlers }
    requires args { length args.now ≡ params_at checked.now h }
    requires shape { A.shape who.old ≡ shape_of checked.now }
    // The exact list of calls: each is the one that the handler calls after the replies before it.
    ensures runs { IfOk result (λ reply. Runs A.Step
        (next (code_at checked.now h) (env_of args.now)) who.old who.new reply) }
    ensures breaks { OnErr result (Breaks A.Step
        (next (code_at checked.now h) (env_of args.now)) who.old who.new) }
    ensures unsure { OnErr result (A.sure who.old ≡ false) }
    ensures stays { Stays A.shape A.sure who.old who.new }
{
    let body = &checked.handler(h).body;
    run_body(body, args, scratch.values.as_mut_slice(), who)
}
