// Where a request stands.

/// A request's handler, and where its arguments lie among those of all requests.
#[derive(Clone, Copy, Debug)]
pub(crate) struct Entry {
    pub(crate) handler: u32,
    /// How many arguments it has.
    pub(crate) args: u32,
    /// The place of the first one.
    pub(crate) first: usize,
}
