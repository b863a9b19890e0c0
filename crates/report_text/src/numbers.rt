//! Numbers, moments, rules and links as words. Each function here writes behind what a text has,
//! and says nothing of the text where memory is wanting.
ghost use Rattle.std.specs.Prelude.{◌≡◌, ◌+◌, ◌<◌, ◌++◌, ◌∷◌, [], OnOk};
ghost use Rattle.std.specs.Fmt.{decimal};
ghost use Rattle.num_text.specs.Values.{written_value};
ghost use Rattle.num_text.specs.Written.{written_moment};
ghost use Rattle.report_text.specs.WrittenLines.{written_rule, written_link, written_piece};
ghost use Rattle.report_text.specs.WrittenLines.{written_low, written_high};
ghost use Rattle.report_text.specs.WrittenLines.{low_bracket as left_bracket};
ghost use Rattle.report_text.specs.WrittenLines.{high_bracket as right_bracket};

use byte_edge::NoMemory;
use exact_fraction::frac::Frac;
use exact_fraction::moment::Moment;
use interval_sets::{Bound, Interval};
use key_words::name_text;
use num_text::moments::moment_text;
use num_text::values::value_text;
use object_index::ObjectIndex;
use rule_types::{ObjectNo, Space};

/// Writes a text.
pub(crate) fn append(out: &mut Vec<u8>, text: &[u8]) -> Result<(), NoMemory>
    ensures { OnOk result (out.new.items ≡ out.old.items ++ text.now) }
{
    out.extend_from_slice(text)?;
    Ok(())
}

/// Writes a count. It goes down one call for each digit.
pub(crate) fn write_count(out: &mut Vec<u8>, count: u64) -> Result<(), NoMemory>
    ensures { OnOk result (out.new.items ≡ out.old.items ++ decimal count) }
{
    if count < 10 {
        return write_digit(out, count);
    }
    write_count(out, count / 10)?;
    write_digit(out, count % 10)
}

/// Writes a digit.
fn write_digit(out: &mut Vec<u8>, digit: u64) -> Result<(), NoMemory>
    requires digit { digit < 10 }
    ensures { OnOk result (out.new.items ≡ out.old.items ++ (48 + digit) ∷ []) }
{
    out.push(b'0' + digit as u8)?;
    Ok(())
}

/// Writes the number, from 1, of the rule at a place.
pub(crate) fn write_rule(out: &mut Vec<u8>, place: u32) -> Result<(), NoMemory>
    ensures { OnOk result (out.new.items ≡ out.old.items ++ written_rule place) }
{
    write_count(out, place as u64 + 1)
}

/// Writes the name of a link.
pub(crate) fn write_link(
    out: &mut Vec<u8>,
    objects: &ObjectIndex,
    link: u32,
) -> Result<(), NoMemory>
    ensures { OnOk result (out.new.items ≡ out.old.items ++ written_link objects.now link) }
{
    let object = ObjectNo {
        space: Space::Links,
        index: link,
    };
    append(out, name_text(objects, object))
}

/// Writes a value.
pub(crate) fn write_value(out: &mut Vec<u8>, number: &Frac) -> Result<(), NoMemory>
    ensures { OnOk result (out.new.items ≡ out.old.items ++ written_value number.now) }
{
    append(out, value_text(*number).as_bytes())
}

/// Writes a moment.
pub(crate) fn write_moment(out: &mut Vec<u8>, moment: &Moment) -> Result<(), NoMemory>
    ensures { OnOk result (out.new.items ≡ out.old.items ++ written_moment moment.now) }
{
    append(out, moment_text(*moment).as_bytes())
}

/// Writes a piece.
#[tactic(auto, unfolding(crate::specs::WrittenLines::written_piece))]
pub(crate) fn write_piece(out: &mut Vec<u8>, piece: &Interval) -> Result<(), NoMemory>
    ensures { OnOk result (out.new.items ≡ out.old.items ++ written_piece piece.now) }
{
    write_low(out, &piece.low)?;
    append(out, b",")?;
    write_high(out, &piece.high)
}

/// Writes a lower end.
fn write_low(out: &mut Vec<u8>, low: &Bound) -> Result<(), NoMemory>
    ensures { OnOk result (out.new.items ≡ out.old.items ++ written_low low.now) }
{
    match low {
        Bound::NoBound => append(out, b"(-inf"),
        Bound::Bound(number, left_out) => {
            append(out, low_bracket(*left_out))?;
            write_value(out, number)
        }
    }
}

/// The bracket of a lower end.
fn low_bracket(left_out: bool) -> &'static [u8]
    ensures { result.now ≡ left_bracket left_out }
{
    if left_out {
        return b"(";
    }
    b"["
}

/// Writes an upper end.
fn write_high(out: &mut Vec<u8>, high: &Bound) -> Result<(), NoMemory>
    ensures { OnOk result (out.new.items ≡ out.old.items ++ written_high high.now) }
{
    match high {
        Bound::NoBound => append(out, b"+inf)"),
        Bound::Bound(number, left_out) => {
            write_value(out, number)?;
            append(out, high_bracket(*left_out))
        }
    }
}

/// The bracket of an upper end.
fn high_bracket(left_out: bool) -> &'static [u8]
    ensures { result.now ≡ right_bracket left_out }
{
    if left_out {
        return b")";
    }
    b"]"
}
