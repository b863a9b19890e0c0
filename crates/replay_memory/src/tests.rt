//! Runs over files in memory.
ghost use Rattle.std.specs.Prelude.{◌≡◌};

use crate::{Written, replay_bytes};
use byte_edge::NoMemory;
use command_outputs::Status;
use std::alloc::Global;
use std::test::Fail;

/// A pump of a well.
const INPUT: &[u8] = b"[JUNCTIONS]\nN1 0\n[PUMPS]\nP1 N1 N2 C OFF\n[CONTROLS]\nRULE R1\n\
                       IF NODE N1 DEPTH > 5\nTHEN PUMP P1 STATUS = ON\nELSE PUMP P1 STATUS = OFF\n";

/// Replays a row over an output with this room.
fn replayed(alloc: Global, input: &[u8], room: usize) -> Result<Written, NoMemory> {
    let input = Vec::from_slice(alloc, input)?;
    let trace = Vec::from_slice(alloc, b"moment,NODE N1 DEPTH\n2001-06-15T00:00:00,6\n")?;
    replay_bytes(alloc, input, trace, room)
}

/// Whether a run left this status and these texts.
fn is_left(written: &Written, status: Status, output: &[u8], error: &[u8]) -> bool {
    let texts = written.output.as_slice() == output && written.error.as_slice() == error;
    written.status == status && texts
}

#[test]
fn a_pump_is_replayed(rt: HostRuntime) -> Result<(), Fail> {
    let written = replayed(rt.alloc(), INPUT, 100)?;
    let text = b"moment,P1\n2001-06-15T00:00:00,1\n";
    assert!(rt; is_left(&written, Status::Done, text, b""));
    Ok(())
}

#[test]
fn an_output_that_is_full_ends_with_device(rt: HostRuntime) -> Result<(), Fail> {
    let written = replayed(rt.alloc(), INPUT, 12)?;
    let said = b"error: write failed\n";
    assert!(rt; is_left(&written, Status::Device, b"moment,P1\n20", said));
    Ok(())
}

#[test]
fn a_rule_that_is_not_finished_is_refused(rt: HostRuntime) -> Result<(), Fail> {
    let input = b"[CONTROLS]\nRULE R1\n";
    let written = replayed(rt.alloc(), input, 100)?;
    assert!(rt; written.status == Status::Refused);
    assert!(rt; written.output.is_empty());
    Ok(())
}
