//! The states of reports.
ghost use Rattle.std.specs.Prelude.{◌≡◌, ◌++◌, true, OnOk};
ghost use Rattle.std.specs.List.{flat_map};
ghost use Rattle.report_text.specs.WrittenReports.{text_of, moment_lines, state_lines};
ghost use Rattle.report_text.specs.internal.Halving.{IsOrdered};
ghost use Rattle.report_text.specs.internal.RowTexts.{value_texts};

use crate::key_values::key_value;
use crate::line::{write_key_value, write_state_moment};
use crate::ordered::is_ordered;
use byte_edge::NoMemory;
use exact_fraction::moment::Moment;
use object_index::ObjectIndex;
use report_lines::Grid;
use rule_types::{Key, Rules, State};

/// Writes the lines of a state behind a text.
#[tactic(auto, unfolding(crate::specs::WrittenReports::state_lines))]
pub(crate) fn write_state(
    out: &mut Vec<u8>,
    rules: &Rules,
    objects: &ObjectIndex,
    grid: &Grid,
    state: &State,
) -> Result<(), NoMemory>
    ensures { OnOk result (out.new.items ≡ out.old.items
        ++ text_of (state_lines rules.now objects.now grid.now state.now)) }
{
    let keys = grid.keys.list(*out.allocator())?;
    let ordered = is_ordered(rules, state);
    write_values(out, rules, objects, state, ordered, keys.as_slice())?;
    write_state_end(out, grid.has_moments, &state.moment)
}

/// Writes the lines of the values of keys.
fn write_values(
    out: &mut Vec<u8>,
    rules: &Rules,
    objects: &ObjectIndex,
    state: &State,
    ordered: bool,
    keys: &[Key],
) -> Result<(), NoMemory>
    requires ordered { ordered ≡ true → IsOrdered rules.now state.now }
    ensures { OnOk result (out.new.items ≡ out.old.items
        ++ flat_map (value_texts rules.now objects.now state.now) keys.now) }
{
    for key in keys {
        write_value_of(out, rules, objects, state, ordered, key)?;
    }
    Ok(())
}

/// Writes the line of the value of a key, where the state has one.
#[tactic(auto, unfolding(crate::specs::WrittenReports::text_of))]
fn write_value_of(
    out: &mut Vec<u8>,
    rules: &Rules,
    objects: &ObjectIndex,
    state: &State,
    ordered: bool,
    key: &Key,
) -> Result<(), NoMemory>
    requires ordered { ordered ≡ true → IsOrdered rules.now state.now }
    ensures { OnOk result (out.new.items ≡ out.old.items
        ++ value_texts rules.now objects.now state.now key.now) }
{
    match key_value(rules, state, ordered, key) {
        Some(number) => write_key_value(out, objects, key, &number),
        None => Ok(()),
    }
}

/// Writes the line of the moment, where the grid has moments.
#[tactic(auto, unfolding(crate::specs::WrittenReports::text_of))]
fn write_state_end(out: &mut Vec<u8>, has_moments: bool, moment: &Moment) -> Result<(), NoMemory>
    ensures { OnOk result (out.new.items ≡ out.old.items
        ++ text_of (moment_lines has_moments moment.now)) }
{
    if !has_moments {
        return Ok(());
    }
    write_state_moment(out, moment)
}
