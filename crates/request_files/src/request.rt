// A request.

use session_values::{Listed, Value};

/// A request as contracts see it: a handler by its number, and its arguments.
#[derive(Debug, Drop)]
pub struct Request {
    pub handler: u32,
    pub args: Listed<Value>,
}
