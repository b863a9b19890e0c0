//! The lines of reports. Each function here writes a line with its end behind what a text has, and
//! says nothing of the text where memory is wanting.
ghost use Rattle.std.specs.Prelude.{◌≡◌, ◌++◌, OnOk};
ghost use Rattle.report_text.specs.WrittenLines.{written_question, written_key_value, written_fact};
ghost use Rattle.report_text.specs.WrittenLines.{written_state_moment, written_key_piece};
ghost use Rattle.report_text.specs.WrittenLines.{written_span, written_split, written_before};
ghost use Rattle.report_text.specs.WrittenLines.{written_count, written_holds as text_of_holds};
ghost use Rattle.report_text.specs.WrittenReports.{ended};
ghost use Rattle.verdict_meaning.specs.declared.question.Question.TheVariants as question;

use crate::numbers::{
    append, write_count, write_link, write_moment, write_piece, write_rule, write_value,
};
use byte_edge::NoMemory;
use exact_fraction::frac::Frac;
use exact_fraction::moment::Moment;
use interval_sets::Interval;
use key_words::write_key;
use object_index::ObjectIndex;
use rule_types::Key;
use verdict_meaning::Question;

/// Writes a line.
pub(crate) fn write_line(out: &mut Vec<u8>, line: &[u8]) -> Result<(), NoMemory>
    ensures { OnOk result (out.new.items ≡ out.old.items ++ ended line.now) }
{
    append(out, line)?;
    append(out, b"\n")
}

/// Writes the line of a question.
pub(crate) fn write_question(
    out: &mut Vec<u8>,
    objects: &ObjectIndex,
    question: &Question,
) -> Result<(), NoMemory>
    ensures { OnOk result
        (out.new.items ≡ out.old.items ++ ended (written_question objects.now question.now)) }
{
    match question {
        Question::Conflict(first, second, link) => {
            write_conflict(out, objects, *first, *second, *link)
        }
        Question::Dead(rule) => write_dead(out, objects, *rule),
        Question::Limit(link, low, high) => write_limit(out, objects, *link, low, high),
    }
}

/// Writes the question whether two rules conflict on a link.
#[tactic(auto, unfolding(crate::specs::WrittenLines::written_question))]
fn write_conflict(
    out: &mut Vec<u8>,
    objects: &ObjectIndex,
    first: u32,
    second: u32,
    link: u32,
) -> Result<(), NoMemory>
    ensures { OnOk result (out.new.items ≡ out.old.items
        ++ ended (written_question objects.now (question.Conflict first second link))) }
{
    append(out, b"question conflict ")?;
    write_rule(out, first)?;
    append(out, b" ")?;
    write_rule(out, second)?;
    append(out, b" ")?;
    write_link(out, objects, link)?;
    append(out, b"\n")
}

/// Writes the question whether a rule is dead.
#[tactic(auto, unfolding(crate::specs::WrittenLines::written_question))]
fn write_dead(out: &mut Vec<u8>, objects: &ObjectIndex, rule: u32) -> Result<(), NoMemory>
    ensures { OnOk result (out.new.items ≡ out.old.items
        ++ ended (written_question objects.now (question.Dead rule))) }
{
    append(out, b"question dead ")?;
    write_rule(out, rule)?;
    append(out, b"\n")
}

/// Writes the question whether a link stays between two settings.
#[tactic(auto, unfolding(crate::specs::WrittenLines::written_question))]
fn write_limit(
    out: &mut Vec<u8>,
    objects: &ObjectIndex,
    link: u32,
    low: &Frac,
    high: &Frac,
) -> Result<(), NoMemory>
    ensures { OnOk result (out.new.items ≡ out.old.items
        ++ ended (written_question objects.now (question.Limit link low.now high.now))) }
{
    append(out, b"question limit ")?;
    write_link(out, objects, link)?;
    append(out, b" ")?;
    write_value(out, low)?;
    append(out, b" ")?;
    write_value(out, high)?;
    append(out, b"\n")
}

/// Writes the line of a key's value in a state.
#[tactic(auto, unfolding(crate::specs::WrittenLines::written_key_value))]
pub(crate) fn write_key_value(
    out: &mut Vec<u8>,
    objects: &ObjectIndex,
    key: &Key,
    number: &Frac,
) -> Result<(), NoMemory>
    ensures { OnOk result (out.new.items ≡ out.old.items
        ++ ended (written_key_value objects.now key.now number.now)) }
{
    append(out, b"value ")?;
    write_key(out, objects, key)?;
    append(out, b" ")?;
    write_value(out, number)?;
    append(out, b"\n")
}

/// Writes the line of a state's moment.
#[tactic(auto, unfolding(crate::specs::WrittenLines::written_state_moment))]
pub(crate) fn write_state_moment(out: &mut Vec<u8>, moment: &Moment) -> Result<(), NoMemory>
    ensures { OnOk result
        (out.new.items ≡ out.old.items ++ ended (written_state_moment moment.now)) }
{
    append(out, b"moment ")?;
    write_moment(out, moment)?;
    append(out, b"\n")
}

/// Writes the line of a key's piece in a cell.
#[tactic(auto, unfolding(crate::specs::WrittenLines::written_key_piece))]
pub(crate) fn write_key_piece(
    out: &mut Vec<u8>,
    objects: &ObjectIndex,
    key: &Key,
    piece: &Interval,
) -> Result<(), NoMemory>
    ensures { OnOk result (out.new.items ≡ out.old.items
        ++ ended (written_key_piece objects.now (key.now, piece.now))) }
{
    append(out, b"piece ")?;
    write_key(out, objects, key)?;
    append(out, b" ")?;
    write_piece(out, piece)?;
    append(out, b"\n")
}

/// Writes the line of a cell's moments.
#[tactic(auto, unfolding(crate::specs::WrittenLines::written_span))]
pub(crate) fn write_span(out: &mut Vec<u8>, first: &Moment, last: &Moment) -> Result<(), NoMemory>
    ensures { OnOk result
        (out.new.items ≡ out.old.items ++ ended (written_span (first.now, last.now))) }
{
    append(out, b"piece MOMENT ")?;
    write_moment(out, first)?;
    append(out, b" ")?;
    write_moment(out, last)?;
    append(out, b"\n")
}

/// Writes the line of a split at a number.
#[tactic(auto, unfolding(crate::specs::WrittenLines::written_split))]
pub(crate) fn write_split(
    out: &mut Vec<u8>,
    objects: &ObjectIndex,
    key: &Key,
    number: &Frac,
) -> Result<(), NoMemory>
    ensures { OnOk result (out.new.items ≡ out.old.items
        ++ ended (written_split objects.now key.now number.now)) }
{
    append(out, b"split ")?;
    write_key(out, objects, key)?;
    append(out, b" ")?;
    write_value(out, number)?;
    append(out, b"\n")
}

/// Writes the line of a split at a moment.
#[tactic(auto, unfolding(crate::specs::WrittenLines::written_before))]
pub(crate) fn write_before(out: &mut Vec<u8>, moment: &Moment) -> Result<(), NoMemory>
    ensures { OnOk result (out.new.items ≡ out.old.items ++ ended (written_before moment.now)) }
{
    append(out, b"split MOMENT ")?;
    write_moment(out, moment)?;
    append(out, b"\n")
}

/// Writes the line of a fact.
#[tactic(auto, unfolding(crate::specs::WrittenLines::written_fact))]
pub(crate) fn write_fact(out: &mut Vec<u8>, fact: &(u32, bool)) -> Result<(), NoMemory>
    ensures { OnOk result (out.new.items ≡ out.old.items ++ ended (written_fact fact.now)) }
{
    append(out, b"fact ")?;
    write_rule(out, fact.0)?;
    append(out, holds_text(fact.1))?;
    append(out, b"\n")
}

/// What a fact says of a premise, behind a space.
fn holds_text(holds: bool) -> &'static [u8]
    ensures { result.now ≡ text_of_holds holds }
{
    if holds {
        return b" yes";
    }
    b" no"
}

/// Writes the line of a count of cells.
#[tactic(auto, unfolding(crate::specs::WrittenLines::written_count))]
pub(crate) fn write_cell_count(out: &mut Vec<u8>, count: u64) -> Result<(), NoMemory>
    ensures { OnOk result (out.new.items ≡ out.old.items ++ ended (written_count count)) }
{
    append(out, b"undecided count ")?;
    write_count(out, count)?;
    append(out, b"\n")
}
