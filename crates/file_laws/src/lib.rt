//! Laws over what whole commands answer to whole files: there is an answer to each; what `dump`
//! writes reads back, behind the same handlers it opens the same tables; the trace of a session is
//! accepted; and what is accepted is serial. Of a dump of more than 100,000 entries they say
//! nothing, and no file may have more than 4,194,304 bytes.
#![tactic(auto)]

mod laws;

pub use laws::{accepted_traces_are_serial, dumps_read_back, some_answer, traces_are_accepted};
