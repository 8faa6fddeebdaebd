// What answers the operations of a handler.

ghost use Rattle.std.specs.Prelude.{◌≡◌, ◌≤◌, Bool, false, List, length, MatchResult, IfOk, OnErr};
ghost use Rattle.session_values.specs.declared.kind.TableKind.{TableKind};
ghost use Rattle.session_values.specs.declared.op.Op.{Op};
ghost use Rattle.session_values.specs.declared.value.Value.{Value};
ghost use Rattle.session_values.specs.Tables.{Fits};
ghost use Rattle.check_meaning.specs.Code.{block_code};
ghost use Rattle.check_meaning.specs.Dialogue.{ended, env_of, next};
ghost use Rattle.check_meaning.specs.Keeps.{CallsFit};
ghost use Rattle.handler_machine.specs.Asking.{Asked, Breaks, Runs, Stays, Stopped};
ghost use Rattle.handler_machine.specs.Runnable.{IsRunnable};

use crate::guide::Guide;
use crate::variables::set_up;
use crate::walk::walk_body;
use check_meaning::CheckedBlock;
use session_values::{NoMemory, Op, Reply, Value};

/// What answers operations, one after another.
pub trait Answerer {
    /// The kinds of its tables.
    ghost shape: { Self → List TableKind };

    /// Its step: at the first state the operation has this reply, and the second state is left.
    ghost Step: { Self → Op → Value → Self → Type 0 };

    /// It never wants memory.
    ghost sure: { Self → Bool };

    /// Answers an operation. Want of memory leaves the state as it was, and never comes from a sure
    /// one.
    fn answer(&mut self, op: Op) -> Result<Value, NoMemory>
        requires { Fits (shape self.old) op }
        ensures step { MatchResult result (λ v. Step self.old op v self.new)
            (λ _. (self.new ≡ self.old) × (sure self.old ≡ false)) }
        ensures stays { Stays shape sure self.old self.new };
}

/// Leads a walk over what answers at once, and which no point concerns.
#[derive(Drop)]
struct Asking;

impl<A: Answerer> Guide<A> for Asking {
    ghost variables = { 0 };

    ghost Serves = { λ _ whole start now ahead. Asked A.Step A.shape A.sure whole start.1 now ahead };

    ghost Waits = { λ _ whole start now ahead. Asked A.Step A.shape A.sure whole start.1 now ahead };

    ghost Stops = { λ _ whole start now. Stopped A.Step A.shape A.sure whole start.1 now };

    fn call(&mut self, host: &mut A, op: Op) -> Result<Value, NoMemory> {
        host.answer(op)
    }

    fn replied(&mut self, _host: &mut A, _point: u32, _env: &[Value]) {}

    fn passed(&mut self, _host: &mut A, _point: u32, _env: &[Value]) {}
}

/// Runs the body of a handler with these arguments, in room for its variables.
pub fn run_body<A: Answerer>(
    body: &CheckedBlock,
    args: &[Value],
    env: &mut [Value],
    who: &mut A,
) -> Result<Reply, NoMemory>
    requires args { length args.now ≤ length env.old }
    requires within { IsRunnable (length env.old) (block_code body.now) }
    requires fits { CallsFit (A.shape who.old) (next (block_code body.now) (env_of args.now)) }
    ensures runs { IfOk result (λ reply. Runs A.Step (next (block_code body.now) (env_of args.now))
        who.old who.new reply) }
    ensures breaks { OnErr result (Breaks A.Step (next (block_code body.now) (env_of args.now))
        who.old who.new) }
    ensures unsure { OnErr result (A.sure who.old ≡ false) }
    ensures stays { Stays A.shape A.sure who.old who.new }
{
    let mut guide = Asking;
    set_up(env, args);
    walk_body(&mut guide, who, env, body)
}
