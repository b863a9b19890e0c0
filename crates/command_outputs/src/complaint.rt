//! Why a command did not write its whole text.
ghost use Rattle.std.specs.Prelude.{◌≡◌};
ghost use Rattle.command_outputs.specs.Statuses.{complaint_status, complaint_line, HasLine};

use crate::messages::{out_of_memory, read_failed, too_long, write_failed};
use crate::refusal_line::RefusalLine;
use crate::role::Role;
use crate::status::Status;

/// Why a command did not write its whole text.
#[derive(Drop)]
pub enum Complaint {
    /// What the command was given is refused, with this line.
    Refused(RefusalLine),
    /// A file has more bytes than its limit.
    TooLong(Role),
    /// An open or a read of a file failed.
    ReadFailed(Role),
    /// A write to the output failed.
    WriteFailed,
    /// Memory was refused.
    OutOfMemory,
}

impl Complaint {
    /// The status that the run ends with.
    pub fn status(&self) -> Status
        ensures value { result ≡ complaint_status self.now }
    {
        match self {
            Complaint::Refused(_) => Status::Refused,
            Complaint::TooLong(_) => Status::Refused,
            Complaint::ReadFailed(_) => Status::Device,
            Complaint::WriteFailed => Status::Device,
            Complaint::OutOfMemory => Status::NoMemory,
        }
    }

    /// The line on standard error. It takes no memory.
    pub fn line(&self) -> &[u8]
        ensures value { result.now ≡ complaint_line self.now }
        ensures line { HasLine self.now }
    {
        match self {
            Complaint::Refused(line) => line.as_slice(),
            Complaint::TooLong(role) => too_long(*role),
            Complaint::ReadFailed(role) => read_failed(*role),
            Complaint::WriteFailed => write_failed(),
            Complaint::OutOfMemory => out_of_memory(),
        }
    }
}
