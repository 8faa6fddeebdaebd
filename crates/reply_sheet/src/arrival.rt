// Arrivals.

/// A request of a client: the client's number, and the request's place among the client's own.
#[derive(Clone, Copy, Debug, PartialEq, Eq)]
pub struct Arrival {
    pub client: u32,
    pub place: u32,
}
