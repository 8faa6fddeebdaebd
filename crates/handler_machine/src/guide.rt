// What a walk tells of.

ghost use Rattle.std.specs.Prelude.{◌≤◌, ℕ, true, false, length, MatchResult};
ghost use Rattle.session_values.specs.declared.value.Value.{Value};
ghost use Rattle.check_meaning.specs.Ahead.{Ahead, asked, passing};
ghost use Rattle.check_meaning.specs.Dialogue.{env_of};

use session_values::{NoMemory, Op, Value};

/// What is done at a handler's operations and points. A host is what its operations are done on.
///
/// The conditions name a whole run, the guide and the host at its beginning, and what is ahead of
/// the run; each call has them for some of these, and says what it leaves for all.
pub trait Guide<H> {
    /// How many variables it asks for at a point.
    ghost variables: { ℕ };

    /// This whole run is served: it began with the guide and the host of the pair, has come to this
    /// guide and the other host, and this is ahead of it.
    ghost Serves: { Self → Ahead → Self × H → H → Ahead → Type 0 };

    /// The same, where an operation has just been done, and its point is passed first.
    ghost Waits: { Self → Ahead → Self × H → H → Ahead → Type 0 };

    /// This whole run was served from the guide and the host of the pair on, and stopped at the
    /// other host.
    ghost Stops: { Self → Ahead → Self × H → H → Type 0 };

    /// Does an operation.
    fn call(&mut self, host: &mut H, op: Op) -> Result<Value, NoMemory>
        requires { (whole : Ahead) × (start : Self × H) × (next : Value → Ahead)
            × Serves self.old whole start host.old (asked op next) }
        ensures { (whole : Ahead) (start : Self × H) (next : Value → Ahead)
            → Serves self.old whole start host.old (asked op next)
            → MatchResult result (λ v. Waits self.new whole start host.new (next v))
            (λ _. Stops self.new whole start host.new) };

    /// Passes the point behind an operation.
    fn replied(&mut self, host: &mut H, point: u32, env: &[Value])
        requires variables { variables ≤ length env.now }
        requires waits { (whole : Ahead) × (start : Self × H) × (next : Ahead)
            × Waits self.old whole start host.old (passing point (env_of env.now) true next) }
        ensures { (whole : Ahead) (start : Self × H) (next : Ahead)
            → Waits self.old whole start host.old (passing point (env_of env.now) true next)
            → Serves self.new whole start host.new next };

    /// Passes a point at the start of a branch, or behind a loop.
    fn passed(&mut self, host: &mut H, point: u32, env: &[Value])
        requires variables { variables ≤ length env.now }
        requires serves { (whole : Ahead) × (start : Self × H) × (next : Ahead)
            × Serves self.old whole start host.old (passing point (env_of env.now) false next) }
        ensures { (whole : Ahead) (start : Self × H) (next : Ahead)
            → Serves self.old whole start host.old (passing point (env_of env.now) false next)
            → Serves self.new whole start host.new next };
}
