//! How a command ends that wrote its whole text.
ghost use Rattle.std.specs.Prelude.{◌≡◌};

use crate::status::Status;

/// How a command ends that wrote its whole text.
#[derive(Clone, Copy, Debug, PartialEq, Eq)]
pub enum Completion {
    /// Every question holds, or the command has none.
    Done,
    /// Some question is refuted.
    Refuted,
    /// No question is refuted, and some question is undecided.
    Undecided,
}

impl Completion {
    ghost use Rattle.command_outputs.specs.Statuses.{completion_status};

    /// The status of the run.
    pub fn status(self) -> Status
        ensures value { result ≡ completion_status self }
    {
        match self {
            Completion::Done => Status::Done,
            Completion::Refuted => Status::Refuted,
            Completion::Undecided => Status::Undecided,
        }
    }
}
