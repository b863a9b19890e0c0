//! The moments of rows.
ghost use Rattle.std.specs.Prelude.{◌≡◌, ◌++◌, ◌∷◌, IfOk, IfSome, Some};
ghost use Rattle.num_text.specs.Clocks.{moment_of};
ghost use Rattle.num_text.specs.Written.{written_moment};
ghost use Rattle.trace_csv.specs.Records.{comma};
ghost use Rattle.trace_csv.specs.Rows.{moment_checked};
ghost use Rattle.trace_csv.specs.Rows.{is_later as later, is_before as before};
ghost use Rattle.trace_csv.specs.Rows.{begins_early as early, moment_in as moment_in_field};

use crate::fault::TraceCause;
use crate::field::trimmed;
use crate::written_moment::WrittenMoment;
use exact_fraction::moment::Moment;

/// The moment that the first field of a row is, after the moment of the row before, if there is
/// one, and with the start of the rules. `written` becomes that moment.
#[tactic(auto, unfolding(crate::specs::Rows::moment_in))]
pub(crate) fn moment_in(
    field: &[u8],
    last: &Option<Moment>,
    start: &Option<Moment>,
    written: &mut WrittenMoment,
) -> Result<Moment, TraceCause>
    ensures value { result ≡ moment_in_field last.now start.now field.now }
    ensures written { IfOk result (λ moment. written.new ≡ moment) }
{
    if !written.read(trimmed(field)) {
        return Err(TraceCause::BadMoment);
    }
    checked(written.moment(), last, start)
}

/// The text behind the first field of a line, where that field is the text of a moment in the same
/// day as `written`, which becomes that moment. None for all other lines.
pub(crate) fn behind_moment<'a>(line: &'a [u8], written: &mut WrittenMoment) -> Option<&'a [u8]>
    ensures joined { IfSome result (λ behind.
        line.now ≡ written_moment written.new ++ comma ∷ behind.now) }
    ensures read { IfSome result (λ behind.
        moment_of (written_moment written.new) ≡ Some written.new) }
{
    if line.len() < 20 {
        return None;
    }
    let (front, rest) = line.split_at(19);
    let [byte, behind @ ..] = rest else {
        return None;
    };
    if *byte != b',' {
        return None;
    }
    if !written.read_in_day(front) {
        return None;
    }
    Some(behind)
}

/// A moment after the row before, if there is one, and with the start of the rules.
pub(crate) fn checked(
    moment: Moment,
    last: &Option<Moment>,
    start: &Option<Moment>,
) -> Result<Moment, TraceCause>
    ensures value { result ≡ moment_checked last.now start.now (Some moment) }
    ensures same { IfOk result (λ found. moment ≡ found) }
{
    if !is_later(last, moment) {
        return Err(TraceCause::NotLater);
    }
    if begins_early(last, start, moment) {
        return Err(TraceCause::BeforeStart);
    }
    Ok(moment)
}

/// Whether a moment is later than that of the row before, if there is one.
fn is_later(last: &Option<Moment>, moment: Moment) -> bool
    ensures { result ≡ later last.now moment }
{
    match last {
        None => true,
        Some(last) => last.seconds() < moment.seconds(),
    }
}

/// Whether a row is the first and lies before the start.
fn begins_early(last: &Option<Moment>, start: &Option<Moment>, moment: Moment) -> bool
    ensures { result ≡ early last.now start.now moment }
{
    match last {
        None => is_before(start, moment),
        Some(_) => false,
    }
}

/// Whether a moment lies before a start, if one is given.
fn is_before(start: &Option<Moment>, moment: Moment) -> bool
    ensures { result ≡ before start.now moment }
{
    match start {
        None => false,
        Some(start) => moment.seconds() < start.seconds(),
    }
}
