//! Requests of several clients, fed into one channel and gathered in the order of their arrival.
//!
//! Requests of several clients, served in rounds as they arrive: the replies are those of serving
//! all of them one at a time in the order of their arrival. Which requests a round has depends on
//! the number of requests alone; the next hall is opened over the closed one's shards, and out of
//! memory the closed hall is returned.
#![tactic(auto)]

mod arrivals;
mod beside;
mod continued;
mod feeder;
mod gatherer;
pub mod laws;
mod opening;
mod picking;
mod plan;
mod reopening;
mod resources;
mod rounds;
mod rounds_beside;
mod rule;
mod served;
mod serving;
mod workload;

pub use arrivals::Arrivals;
pub use beside::feed_all;
pub use feeder::{Feeder, Feeders};
pub use gatherer::Gatherer;
pub use opening::Feed;
pub use picking::requests_of;
pub use reopening::look_at_tables;
pub use reply_sheet::Arrival;
pub use resources::Resources;
pub use rounds::{ROUND, serve_rounds};
pub use rounds_beside::serve_clients;
pub use served::Served;
pub use workload::Workload;
