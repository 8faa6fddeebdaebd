// The room that serving takes.

ghost use Rattle.std.specs.Prelude.{◌≡◌, ◌≤◌, vec_len};
ghost use Rattle.session_values.specs.Limits.{max_symbols, max_variables};

use session_values::{MAX_SYMBOLS, MAX_VARIABLES, NoMemory, Value};
use std::alloc::Global;
use symbolic_ops::Foresight;

/// Room for the variables of a handler and for a declaration with their values. A job keeps it from
/// one ticket to the next, and what serves a ticket borrows its parts, so that no ticket takes
/// memory.
#[derive(Drop)]
pub struct Scratch {
    /// The values of the variables, 32 of them.
    pub values: Vec<Value>,
    /// The values that they had at a point, as many.
    pub kept: Vec<Value>,
    /// Room for 256 symbols.
    pub foresight: Foresight,
    ghost variables: { vec_len values ≡ max_variables },
    ghost kept_variables: { vec_len kept ≡ max_variables },
    ghost symbols: { max_symbols ≤ foresight.room },
}

impl Scratch {
    /// Room for 32 variables, twice, which are nil, and for 256 symbols.
    pub fn new(alloc: Global) -> Result<Scratch, NoMemory> {
        let foresight = Foresight::with_room(alloc, MAX_SYMBOLS)?;
        let values = vec![in alloc; Value::Nil; MAX_VARIABLES]?;
        let kept = vec![in alloc; Value::Nil; MAX_VARIABLES]?;
        Ok(Scratch {
            values,
            kept,
            foresight,
        })
    }
}
