// Range sessions: from the bytes of an input to what its lines write.

ghost use Rattle.std.specs.Prelude.{◌≤◌, length, IfOk, IfErr};
ghost use Rattle.session_values.specs.Limits.{max_input};
ghost use Rattle.serve_faults.specs.Command.TheVariants.{Ranges};
ghost use Rattle.serve_faults.specs.Answer.{IsTextOf};
ghost use Rattle.serve_faults.specs.Input.{IsInput};
ghost use Rattle.serve_reading.specs.Reasons.{IsReason};

use crate::load_error::LoadError;
use range_tables::ranges_text;
use serve_faults::Fault;
use std::alloc::Global;

/// What the lines of a range session answer, of bytes that stay where they are.
pub fn range_text(alloc: Global, bytes: &[u8]) -> Result<Vec<u8>, LoadError>
    requires { length bytes.now ≤ max_input }
    ensures input { IfOk result (λ _. IsInput Ranges bytes.now) }
    ensures text { IfOk result (λ text. IsTextOf Ranges bytes.now text.items) }
    ensures refused { IfErr result (IsReason Ranges bytes.now) }
{
    let Ok(text) = std::str::from_utf8(bytes) else {
        return Err(LoadError::Refused(Fault::NotText));
    };
    Ok(ranges_text(alloc, text)?)
}
