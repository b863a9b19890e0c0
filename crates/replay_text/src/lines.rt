//! The lines that a replay prints.
ghost use Rattle.std.specs.Prelude.{◌≡◌, ◌++◌, ◌∷◌, [], OnOk, IfSome};
ghost use Rattle.std.specs.List.{list_any, flat_map};
ghost use Rattle.replay_text.specs.Lines.{wants_quotes, between_quotes, written_name, link_name};
ghost use Rattle.replay_text.specs.Lines.{comma_before, header_line, row_line};
ghost use Rattle.num_text.specs.Values.{written_value};

use byte_edge::NoMemory;
use exact_fraction::frac::Frac;
use exact_fraction::moment::Moment;
use key_words::name_text;
use num_text::moments::moment_text;
use num_text::values::value_text;
use object_index::ObjectIndex;
use rule_types::{ObjectNo, Rules, Space};
use trace_csv::WrittenMoment;

/// Writes the header behind a text: `moment` and the names of the controlled links in link order,
/// joined by commas, and LF. A name that holds a comma or a double quote is put in double quotes,
/// and each double quote in it stands twice. NoMemory only where memory is wanting, and then
/// nothing is said of what was written.
#[tactic(auto, unfolding(crate::specs::Lines::header_line))]
pub fn write_header_line(
    out: &mut Vec<u8>,
    rules: &Rules,
    objects: &ObjectIndex,
) -> Result<(), NoMemory>
    ensures text { OnOk result
        (out.new.items ≡ out.old.items ++ header_line rules.now objects.now) }
{
    out.extend_from_slice(b"moment")?;
    write_names(out, rules.controlled.as_slice(), objects)?;
    out.extend_from_slice(b"\n")?;
    Ok(())
}

/// Writes the names of links, each after a comma.
fn write_names(out: &mut Vec<u8>, links: &[u32], objects: &ObjectIndex) -> Result<(), NoMemory>
    ensures { OnOk result (out.new.items ≡ out.old.items
        ++ flat_map (λ link. comma_before (written_name (link_name objects.now link))) links.now) }
{
    for link in links {
        out.push(b',')?;
        let object = ObjectNo {
            space: Space::Links,
            index: *link,
        };
        write_name(out, name_text(objects, object))?;
    }
    Ok(())
}

/// Writes a name as a field.
#[tactic(auto, unfolding(crate::specs::Lines::written_name))]
fn write_name(out: &mut Vec<u8>, name: &[u8]) -> Result<(), NoMemory>
    ensures { OnOk result (out.new.items ≡ out.old.items ++ written_name name.now) }
{
    if !has_special_bytes(name) {
        out.extend_from_slice(name)?;
        return Ok(());
    }
    out.extend_from_slice(b"\"")?;
    write_between_quotes(out, name)?;
    out.extend_from_slice(b"\"")?;
    Ok(())
}

/// Whether a name holds a comma or a double quote.
fn has_special_bytes(name: &[u8]) -> bool
    ensures { result ≡ list_any wants_quotes name.now }
{
    name.iter().any(|byte| *byte == b',' || *byte == b'"')
}

/// Writes a name with each double quote twice.
fn write_between_quotes(out: &mut Vec<u8>, name: &[u8]) -> Result<(), NoMemory>
    ensures { OnOk result (out.new.items ≡ out.old.items ++ flat_map between_quotes name.now) }
{
    for byte in name {
        write_byte(out, *byte)?;
    }
    Ok(())
}

/// Writes a byte, twice where it is a double quote.
fn write_byte(out: &mut Vec<u8>, byte: u8) -> Result<(), NoMemory>
    ensures { OnOk result (out.new.items ≡ out.old.items ++ between_quotes byte) }
{
    if byte == b'"' {
        out.push(byte)?;
    }
    out.push(byte)?;
    Ok(())
}

/// Writes the line of a row behind a text: its written moment and the written settings, joined by
/// commas, and LF. NoMemory only where memory is wanting, and then nothing is said of what was
/// written.
#[tactic(auto, unfolding(crate::specs::Lines::row_line))]
pub fn write_row_line(out: &mut Vec<u8>, moment: Moment, settings: &[Frac]) -> Result<(), NoMemory>
    ensures text { OnOk result (out.new.items ≡ out.old.items ++ row_line moment settings.now) }
{
    let written = moment_text(moment);
    out.extend_from_slice(written.as_bytes())?;
    write_settings(out, settings)?;
    out.extend_from_slice(b"\n")?;
    Ok(())
}

/// The same, where the moment comes with its text.
#[tactic(auto, unfolding(crate::specs::Lines::row_line))]
pub fn write_row_line_at(
    out: &mut Vec<u8>,
    moment: &WrittenMoment,
    settings: &[Frac],
) -> Result<(), NoMemory>
    ensures text { OnOk result
        (out.new.items ≡ out.old.items ++ row_line moment.now settings.now) }
{
    out.extend_from_slice(moment.as_bytes())?;
    write_settings(out, settings)?;
    out.push(b'\n')?;
    Ok(())
}

/// Writes settings, each after a comma.
fn write_settings(out: &mut Vec<u8>, settings: &[Frac]) -> Result<(), NoMemory>
    ensures { OnOk result (out.new.items ≡ out.old.items
        ++ flat_map (λ setting. comma_before (written_value setting)) settings.now) }
{
    for setting in settings {
        write_setting(out, *setting)?;
    }
    Ok(())
}

/// Writes a comma and a setting.
fn write_setting(out: &mut Vec<u8>, setting: Frac) -> Result<(), NoMemory>
    ensures { OnOk result
        (out.new.items ≡ out.old.items ++ comma_before (written_value setting)) }
{
    if let Some(digit) = digit_of(setting) {
        out.extend_from_slice(&[b',', digit])?;
        return Ok(());
    }
    let written = value_text(setting);
    out.push(b',')?;
    out.extend_from_slice(written.as_bytes())?;
    Ok(())
}

/// The digit that a number is written as. None where it is written as more than that.
fn digit_of(value: Frac) -> Option<u8>
    ensures { IfSome result (λ digit. written_value value ≡ digit ∷ []) }
{
    if value.den() != 1 {
        return None;
    }
    let number = value.num();
    if number < 0 {
        return None;
    }
    if number > 9 {
        return None;
    }
    Some(b'0' + number as u8)
}
