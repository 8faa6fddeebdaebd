// A session of three requests for one handler with two operations.

ghost use Rattle.session_values.specs.Opening.{IsOpening};
ghost use Rattle.handler_check.specs.Resolved.{shape_of as shape_spec};
ghost use Rattle.request_files.specs.Servable.{IsServable};

use serve_reading::{Loaded, load_session};
use session_values::{Reply, Value};
use std::alloc::Global;
use std::process::Abort;

const SESSION: &str =
    "map m;\nhandler take(k, v) {\n  let old = swap(m, k, v);\n  let n = size(m);\n  reply old, n;\n}\n%%\ntake 1 10\ntake 2 20\ntake 1 30\n";

/// The session, as it is read.
pub(crate) fn session<R: Abort>(rt: &R, alloc: Global) -> Loaded
    ensures opening { IsOpening (shape_spec result.program.file) result.opening }
    ensures servable { IsServable result.program.file result.requests }
{
    let Ok(loaded) = load_session(alloc, SESSION.as_bytes()) else {
        rt.panic("the session isn't read")
    };
    loaded
}

/// What a request replies: what was there, and how many keys there are.
pub(crate) fn reply_of(old: Value, count: i64) -> Reply {
    Reply::new(2, old, Value::Num(count), Value::Nil, Value::Nil)
}
