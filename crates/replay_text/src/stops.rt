//! The reports of stops.
ghost use Rattle.std.specs.Prelude.{◌≡◌, ◌++◌, OnOk, slice_get};
ghost use Rattle.replay_text.specs.Ends.{stop_word as word_of_stop, branch_word as word_of_branch};
ghost use Rattle.replay_text.specs.Ends.{name_of, name_place, branch_place, action_place};
ghost use Rattle.replay_text.specs.Ends.{stop_told, stop_text};

use byte_edge::NoMemory;
use rule_types::{ActionAt, Branch, NameDef, Stop, StopCause, StopPlace};

/// Writes the report of a stop at a line behind a text: `error: trace line L: Overflow in name
/// NAME`, or `in rule R then A`. NoMemory only where memory is wanting, and then nothing is said of
/// what was written.
pub fn write_stop(
    out: &mut Vec<u8>,
    names: &[NameDef],
    line: u64,
    stop: &Stop,
) -> Result<(), NoMemory>
    ensures text { OnOk result
        (out.new.items ≡ out.old.items ++ stop_text names.now line stop.now) }
{
    let line = line.to_string(*out.allocator())?;
    out.extend_from_slice(b"error: trace line ")?;
    out.extend_from_slice(line.as_bytes())?;
    out.extend_from_slice(b": ")?;
    write_stop_place(out, names, stop)
}

/// Writes why and where a reading stops.
fn write_stop_place(out: &mut Vec<u8>, names: &[NameDef], stop: &Stop) -> Result<(), NoMemory>
    ensures { OnOk result (out.new.items ≡ out.old.items ++ stop_told names.now stop.now) }
{
    out.extend_from_slice(stop_word(stop.cause))?;
    out.extend_from_slice(b" in ")?;
    match stop.place {
        StopPlace::Name(name) => write_name_place(out, names, name),
        StopPlace::Action(at) => write_action_place(out, at),
    }
}

/// The word of a stop.
fn stop_word(cause: StopCause) -> &'static [u8]
    ensures { result.now ≡ word_of_stop cause }
{
    match cause {
        StopCause::Overflow => b"Overflow",
        StopCause::ZeroDivisor => b"ZeroDivisor",
    }
}

/// Writes the name at a place.
fn write_name_place(out: &mut Vec<u8>, names: &[NameDef], name: u32) -> Result<(), NoMemory>
    ensures { OnOk result (out.new.items ≡ out.old.items ++ name_place names.now name) }
{
    out.extend_from_slice(b"name ")?;
    out.extend_from_slice(name_at(names, name))?;
    Ok(())
}

/// The name at a place, and none where there is no such place.
fn name_at(names: &[NameDef], name: u32) -> &[u8]
    ensures { result.now ≡ name_of (slice_get names.now name) }
{
    match names.get(name as usize) {
        Some(named) => named.name.as_slice(),
        None => b"",
    }
}

/// Writes the place of an action.
fn write_action_place(out: &mut Vec<u8>, at: ActionAt) -> Result<(), NoMemory>
    ensures { OnOk result (out.new.items ≡ out.old.items ++ action_place at) }
{
    let rule = (at.rule as u64 + 1).to_string(*out.allocator())?;
    out.extend_from_slice(b"rule ")?;
    out.extend_from_slice(rule.as_bytes())?;
    write_branch_place(out, at.branch, at.action)
}

/// Writes the branch and the number of an action.
fn write_branch_place(out: &mut Vec<u8>, branch: Branch, action: u32) -> Result<(), NoMemory>
    ensures { OnOk result (out.new.items ≡ out.old.items ++ branch_place branch action) }
{
    let number = (action as u64 + 1).to_string(*out.allocator())?;
    out.extend_from_slice(branch_word(branch))?;
    out.extend_from_slice(number.as_bytes())?;
    Ok(())
}

/// The word of a branch, between blanks.
fn branch_word(branch: Branch) -> &'static [u8]
    ensures { result.now ≡ word_of_branch branch }
{
    match branch {
        Branch::Then => b" then ",
        Branch::Otherwise => b" else ",
    }
}
