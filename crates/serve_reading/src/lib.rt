//! Reading: from a source to its bytes, and from these to what can be printed or served.
#![tactic(auto)]

mod auditing;
mod clients;
mod describing;
mod load_error;
mod naming;
mod program;
mod ranging;
mod reading;
mod session;

pub use auditing::{Audited, load_audited};
pub use clients::{LoadedClients, load_clients};
pub use declaration_insertion::Program;
pub use describing::{DescribedFile, Description, description_of, read_description};
pub use load_error::LoadError;
pub use naming::names_of_input;
pub use program::read_program;
pub use ranging::range_text;
pub use reading::read_at_most;
pub use request_files::{Divided, divide};
pub use serve_faults::{Fault, Status, message_of};
pub use session::{Loaded, load_session};
