// How a run of the program ends.

ghost use Rattle.std.specs.Prelude.{◌≡◌};
ghost use Rattle.foresight_where.specs.Endings as spec;

/// How a run of the program ends.
#[derive(Clone, Copy, Debug, PartialEq, Eq)]
pub(crate) enum Ending {
    /// The text of a place, or the table, is written.
    Reported,
    /// Nothing is told: no line of the input is a refusal's, or the first that is one names a place
    /// that the file hasn't. The input is handed on as it is, or `null` stands for it in JSON.
    HandedOn,
    /// The words are none of the program's; nothing is read.
    Usage,
    NoMemory,
    /// The input or the file can't be read.
    ReadFault,
    /// The input or the file has more than 67,108,864 bytes.
    TooLarge,
    WriteFault,
}

impl Ending {
    /// The exit status.
    pub(crate) fn number(self) -> u8
        ensures { result ≡ spec.exit_status self }
    {
        match self {
            Ending::Reported => 0,
            Ending::HandedOn => 1,
            Ending::Usage => 2,
            Ending::NoMemory => 3,
            Ending::ReadFault | Ending::TooLarge => 4,
            Ending::WriteFault => 5,
        }
    }

    /// The line on the error output; none where all is written.
    pub(crate) fn line(self) -> &'static str
        ensures { result.now ≡ spec.line_of self }
    {
        match self {
            Ending::Reported | Ending::HandedOn => "",
            Ending::Usage => "usage: foresight_where [--json] FILE | --rules | --version\n",
            Ending::NoMemory => "no memory\n",
            Ending::ReadFault => "read fault\n",
            Ending::TooLarge => "too large\n",
            Ending::WriteFault => "write fault\n",
        }
    }
}
