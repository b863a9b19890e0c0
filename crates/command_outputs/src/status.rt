//! How a run of the tool ends.
ghost use Rattle.std.specs.Prelude.{◌≡◌};

/// How a run of the tool ends.
#[derive(Clone, Copy, Debug, PartialEq, Eq)]
pub enum Status {
    /// The input was read to its end and the whole text is written.
    Done,
    /// A file is refused or too long, a row of the trace stops, or a word names nothing.
    Refused,
    /// The words are no command.
    Usage,
    /// An open, a read or a write failed.
    Device,
    /// Memory was refused.
    NoMemory,
    /// The whole text is written, and some question is refuted.
    Refuted,
    /// The whole text is written, no question is refuted, and some question is undecided.
    Undecided,
}

impl Status {
    ghost use Rattle.command_outputs.specs.Statuses.{status_number};

    /// The number that the program ends with.
    pub fn number(self) -> u8
        ensures value { result ≡ status_number self }
    {
        match self {
            Status::Done => 0,
            Status::Refused => 1,
            Status::Usage => 2,
            Status::Device => 3,
            Status::NoMemory => 4,
            Status::Refuted => 5,
            Status::Undecided => 6,
        }
    }
}
