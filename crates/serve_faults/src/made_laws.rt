// A law of the made session: the contract of a function with an empty body.

ghost use Rattle.std.specs.Prelude.{ℕ, ◌≤◌};
ghost use Rattle.session_values.specs.Limits.{max_requests};
ghost use Rattle.serve_faults.specs.Command.TheVariants.{Work};
ghost use Rattle.serve_faults.specs.ServeSession.{session_text};
ghost use Rattle.serve_faults.specs.declared.status.Fault.{Fault};
ghost use Rattle.serve_faults.specs.Answer.{IsRefused};
ghost use Rattle.serve_faults.specs.Input.{IsInput, parts_of};
ghost use Rattle.serve_faults.specs.Session.{IsSession};
ghost use Rattle.serve_faults.specs.Language.{File};

/// Whatever its number of requests and its start, a made session has both parts of a session file,
/// its handlers break no rule, and no request has a fault. So no fault is its first.
pub fn made_session_breaks_no_rule()
    ensures input { (requests start : ℕ) → requests ≤ max_requests
        → IsInput (Work requests start) (session_text requests start) }
    ensures session { (requests start : ℕ) → requests ≤ max_requests
        → (file : File) × IsSession (parts_of (session_text requests start)) file }
    ensures unrefused { (requests start : ℕ) → requests ≤ max_requests → (fault : Fault)
        → IsRefused (Work requests start) (session_text requests start) fault → ⊥ }
{}
