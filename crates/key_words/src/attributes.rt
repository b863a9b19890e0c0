//! Words of the attributes of objects.
ghost use Rattle.std.specs.Prelude.{◌≡◌, ◌++◌, OnOk};
ghost use Rattle.key_words.specs.Words.{attribute_text, plain_attribute, hour_depth, over_hours};
ghost use Rattle.key_words.specs.Words.{attribute_named};
ghost use Rattle.key_words.specs.Words.{attribute_of, in_row, hours_end};
ghost use Rattle.std.specs.Fmt.{decimal};
ghost use Rattle.num_text.specs.Counts.{count_of};
ghost use Rattle.object_index.specs.Objects.{word_space as space_looked_in};
ghost use Rattle.rule_types.specs.Keys.{has_attribute, node_has, link_has, gage_has};

use byte_edge::NoMemory;
use num_text::counts::read_count;
use rule_types::{Attr, ObjectWord};

/// The attribute that an item is, ignoring the case of ASCII letters: one of the words of the
/// manual, or `n-HR_DEPTH` with n from 1 to 48 without leading zeros. None exactly where it is
/// neither (SWMM 5.2 manual, [CONTROLS]).
#[tactic(auto, unfolding(crate::specs::Words::attribute_named))]
pub fn read_attribute(item: &[u8]) -> Option<Attr>
    ensures value { result ≡ attribute_named item.now }
{
    let plain = plain_attribute(item);
    if plain.is_some() {
        return plain;
    }
    hour_depth(item)
}

/// The attribute that an item is, where it stands in the row of the word: the attributes of nodes,
/// of links or of gages. None exactly where it is no attribute of that row (SWMM 5.2 manual,
/// [CONTROLS]).
pub fn read_attribute_of(word: ObjectWord, item: &[u8]) -> Option<Attr>
    ensures value { result ≡ attribute_of word item.now }
{
    let attribute = read_attribute(item)?;
    if !stands_in_row(word, attribute) {
        return None;
    }
    Some(attribute)
}

/// Whether an attribute stands in the row of a word.
fn stands_in_row(word: ObjectWord, attribute: Attr) -> bool
    ensures { result ≡ has_attribute (space_looked_in word) attribute }
{
    match word {
        ObjectWord::Node => is_of_node(attribute),
        ObjectWord::Gage => is_of_gage(attribute),
        _ => is_of_link(attribute),
    }
}

/// Whether nodes have an attribute.
fn is_of_node(attribute: Attr) -> bool
    ensures { result ≡ node_has attribute }
{
    matches!(
        attribute,
        Attr::Depth | Attr::MaxDepth | Attr::FullDepth | Attr::Head | Attr::Volume | Attr::Inflow
    )
}

/// Whether links have an attribute.
fn is_of_link(attribute: Attr) -> bool
    ensures { result ≡ link_has attribute }
{
    matches!(
        attribute,
        Attr::Flow
            | Attr::FullFlow
            | Attr::Depth
            | Attr::MaxDepth
            | Attr::FullDepth
            | Attr::Velocity
            | Attr::Length
            | Attr::Slope
            | Attr::Setting
            | Attr::Status
            | Attr::TimeOpen
            | Attr::TimeClosed
    )
}

/// Whether gages have an attribute.
fn is_of_gage(attribute: Attr) -> bool
    ensures { result ≡ gage_has attribute }
{
    match attribute {
        Attr::Intensity => true,
        Attr::HourDepth(hours) => 1 <= hours && hours <= 48,
        _ => false,
    }
}

/// The attribute but for `n-HR_DEPTH` that an item is.
#[tactic(auto, unfolding(crate::specs::Words::plain_attribute))]
fn plain_attribute(item: &[u8]) -> Option<Attr>
    ensures { result ≡ plain_attribute item.now }
{
    if item.eq_ignore_ascii_case(b"INTENSITY") {
        return Some(Attr::Intensity);
    }
    if item.eq_ignore_ascii_case(b"DEPTH") {
        return Some(Attr::Depth);
    }
    if item.eq_ignore_ascii_case(b"MAXDEPTH") {
        return Some(Attr::MaxDepth);
    }
    if item.eq_ignore_ascii_case(b"FULLDEPTH") {
        return Some(Attr::FullDepth);
    }
    if item.eq_ignore_ascii_case(b"HEAD") {
        return Some(Attr::Head);
    }
    if item.eq_ignore_ascii_case(b"VOLUME") {
        return Some(Attr::Volume);
    }
    if item.eq_ignore_ascii_case(b"INFLOW") {
        return Some(Attr::Inflow);
    }
    if item.eq_ignore_ascii_case(b"FLOW") {
        return Some(Attr::Flow);
    }
    if item.eq_ignore_ascii_case(b"FULLFLOW") {
        return Some(Attr::FullFlow);
    }
    if item.eq_ignore_ascii_case(b"VELOCITY") {
        return Some(Attr::Velocity);
    }
    if item.eq_ignore_ascii_case(b"LENGTH") {
        return Some(Attr::Length);
    }
    if item.eq_ignore_ascii_case(b"SLOPE") {
        return Some(Attr::Slope);
    }
    if item.eq_ignore_ascii_case(b"SETTING") {
        return Some(Attr::Setting);
    }
    if item.eq_ignore_ascii_case(b"STATUS") {
        return Some(Attr::Status);
    }
    if item.eq_ignore_ascii_case(b"TIMEOPEN") {
        return Some(Attr::TimeOpen);
    }
    if item.eq_ignore_ascii_case(b"TIMECLOSED") {
        return Some(Attr::TimeClosed);
    }
    None
}

/// The attribute `n-HR_DEPTH` that an item is.
#[tactic(auto, unfolding(crate::specs::Words::hour_depth))]
fn hour_depth(item: &[u8]) -> Option<Attr>
    ensures { result ≡ hour_depth item.now }
{
    let at = item.len().saturating_sub(9);
    if !item[at..].eq_ignore_ascii_case(b"-HR_DEPTH") {
        return None;
    }
    over_hours(read_count(&item[..at]))
}

/// The attribute of the last hours, from 1 to 48 of them.
fn over_hours(hours: Option<u64>) -> Option<Attr>
    ensures { result ≡ over_hours hours }
{
    let hours = hours?;
    if hours < 1 || hours > 48 {
        return None;
    }
    Some(Attr::HourDepth(hours as u8))
}

/// Writes an attribute behind a text: NoMemory only where memory is wanting, and then nothing is
/// said of what was written.
pub fn write_attribute(out: &mut Vec<u8>, attribute: Attr) -> Result<(), NoMemory>
    ensures text { OnOk result (out.new.items ≡ out.old.items ++ attribute_text attribute) }
{
    match attribute {
        Attr::HourDepth(hours) => write_hour_depth(out, hours),
        Attr::Intensity => append(out, b"INTENSITY"),
        Attr::Depth => append(out, b"DEPTH"),
        Attr::MaxDepth => append(out, b"MAXDEPTH"),
        Attr::FullDepth => append(out, b"FULLDEPTH"),
        Attr::Head => append(out, b"HEAD"),
        Attr::Volume => append(out, b"VOLUME"),
        Attr::Inflow => append(out, b"INFLOW"),
        Attr::Flow => append(out, b"FLOW"),
        Attr::FullFlow => append(out, b"FULLFLOW"),
        Attr::Velocity => append(out, b"VELOCITY"),
        Attr::Length => append(out, b"LENGTH"),
        Attr::Slope => append(out, b"SLOPE"),
        Attr::Setting => append(out, b"SETTING"),
        Attr::Status => append(out, b"STATUS"),
        Attr::TimeOpen => append(out, b"TIMEOPEN"),
        Attr::TimeClosed => append(out, b"TIMECLOSED"),
    }
}

/// Writes `n-HR_DEPTH` behind a text.
fn write_hour_depth(out: &mut Vec<u8>, hours: u8) -> Result<(), NoMemory>
    ensures { OnOk result (out.new.items ≡ out.old.items ++ decimal hours ++ hours_end) }
{
    let number = hours.to_string(*out.allocator())?;
    out.extend_from_slice(number.as_bytes())?;
    out.extend_from_slice(b"-HR_DEPTH")?;
    Ok(())
}

/// Writes a text behind another.
pub(crate) fn append(out: &mut Vec<u8>, text: &[u8]) -> Result<(), NoMemory>
    ensures { OnOk result (out.new.items ≡ out.old.items ++ text.now) }
{
    out.extend_from_slice(text)?;
    Ok(())
}
