// Files that are opened by their names.

ghost use Rattle.standard_streams.specs.Opening.{OpenGives, OpenCounts};

use byte_ends::Source;

/// How the opening of a file ended.
#[derive(Clone, Copy, Debug, PartialEq, Eq)]
pub enum Opened {
    /// It is open.
    Open,
    /// It can't be opened.
    Failed,
    NoMemory,
}

/// Files that are opened by their names, one after another: as a source it gives the bytes of the
/// one that was opened last. Its count of faults rises with each opening that fails, too.
pub trait OpensFiles: Source {
    ghost use Rattle.std.specs.Prelude.{List, ℕ, Option};

    /// The bytes of the file with this name, where they are told.
    ghost bytes_of: { Self → List ℕ → Option (List ℕ) };

    /// Opens the file with this name.
    fn open(&mut self, name: &str) -> Opened
        ensures gives { OpenGives (bytes_of self.old name.now) (Self.left self.new) result }
        ensures counts { OpenCounts (Self.faults self.old) (Self.faults self.new) result };
}
