// In which form it is told.

/// In which form it is told who waits for whom.
#[derive(Clone, Copy, Debug, PartialEq, Eq)]
pub enum Form {
    /// A line of columns for each wait, below one that names the columns.
    Lines,
    /// A JSON array with an object for each wait.
    Json,
}
