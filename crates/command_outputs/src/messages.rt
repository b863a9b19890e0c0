//! The lines on standard error that need no memory.
ghost use Rattle.std.specs.Prelude.{◌≡◌};
ghost use Rattle.command_outputs.specs.Messages.{read_failed_line, too_long_line};
ghost use Rattle.command_outputs.specs.Messages.{write_failed_line, out_of_memory_line};
ghost use Rattle.command_outputs.specs.Steps.{Tells};

use crate::role::Role;
use crate::status::Status;
use byte_edge::{Sink, write_all};

/// Memory was refused.
pub fn out_of_memory() -> &'static [u8]
    ensures value { result.now ≡ out_of_memory_line }
{
    b"error: out of memory\n"
}

/// A write to the output failed.
pub fn write_failed() -> &'static [u8]
    ensures value { result.now ≡ write_failed_line }
{
    b"error: write failed\n"
}

/// An open or a read of the file failed.
pub fn read_failed(role: Role) -> &'static [u8]
    ensures value { result.now ≡ read_failed_line role }
{
    match role {
        Role::Input => b"error: read failed: input\n",
        Role::Trace => b"error: read failed: trace\n",
        Role::Ranges => b"error: read failed: ranges\n",
        Role::Report => b"error: read failed: report\n",
    }
}

/// The file has more bytes than its limit.
pub fn too_long(role: Role) -> &'static [u8]
    ensures value { result.now ≡ too_long_line role }
{
    match role {
        Role::Input => b"error: input too long\n",
        Role::Trace => b"error: trace too long\n",
        Role::Ranges => b"error: ranges too long\n",
        Role::Report => b"error: report too long\n",
    }
}

/// Says a text, and gives the status, which is Device where the write fails.
pub fn tell<E: Sink>(err: &mut E, text: &[u8], status: Status) -> Status
    ensures tells { Tells text.now (E.written err.old) (E.written err.new)
        (E.faults err.old) (E.faults err.new) status result }
{
    match write_all(err, text) {
        Ok(()) => status,
        Err(_) => Status::Device,
    }
}
