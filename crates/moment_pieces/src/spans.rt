//! Runs of moments, as seconds that are counted from the midnight of their first day.
ghost use Rattle.std.specs.Prelude.{◌≡◌, ◌<◌, ◌≤◌, ◌^◌, ◌+ℤ◌, ◌-ℤ◌, ◌≤ℤ◌, pos, unsigned_abs};
ghost use Rattle.std.specs.Int.{int_rem_euclid};
ghost use Rattle.moment_pieces.specs.internal.Spans.{IsSpan, IsSpanOf};

use exact_fraction::moment::Moment;

/// The seconds of a day.
const DAY: i64 = 86_400;

/// A run of moments, in a simulation that begins at `start`.
#[derive(Clone, Copy)]
pub(crate) struct Moments {
    pub(crate) start: Moment,
    pub(crate) from: Moment,
    pub(crate) to: Moment,
}

/// A run of seconds, which are counted from the midnight of its first day.
#[derive(Clone, Copy)]
pub(crate) struct Span {
    /// The first moment.
    pub(crate) from: Moment,
    /// The second of that midnight.
    pub(crate) midnight: i64,
    /// The number of the start of the simulation.
    pub(crate) start: i64,
    /// The number of the first second.
    pub(crate) first: u64,
    /// The number of the last second.
    pub(crate) last: u64,
}

/// The seconds of a run of moments; None where there is none.
pub(crate) fn span_of(run: &Moments) -> Option<Span>
    ensures value { IsSpanOf run.now.start run.now.from run.now.to result }
{
    let first = run.from.seconds();
    let last = run.to.seconds();
    if last < first {
        return None;
    }
    Some(Span {
        from: run.from,
        midnight: midnight_of(run),
        start: start_of(run),
        first: first_of(run),
        last: last_of(run),
    })
}

/// The second of the midnight of the first day.
fn midnight_of(run: &Moments) -> i64
    ensures value { result ≡ run.now.from -ℤ int_rem_euclid run.now.from (pos 86400) }
    ensures size { unsigned_abs result < 2 ^ 40 }
{
    run.from.seconds() - run.from.seconds().rem_euclid(DAY)
}

/// The number of the start of the simulation.
fn start_of(run: &Moments) -> i64
    ensures value { result ≡ run.now.start
        -ℤ (run.now.from -ℤ int_rem_euclid run.now.from (pos 86400)) }
    ensures size { unsigned_abs result < 2 ^ 41 }
{
    run.start.seconds() - midnight_of(run)
}

/// The number of the first second.
fn first_of(run: &Moments) -> u64
    ensures value { pos result ≡ int_rem_euclid run.now.from (pos 86400) }
{
    run.from.seconds().rem_euclid(DAY) as u64
}

/// The number of the last second, of a run that has one.
fn last_of(run: &Moments) -> u64
    requires order { run.now.from ≤ℤ run.now.to }
    ensures value { pos result ≡ run.now.to
        -ℤ (run.now.from -ℤ int_rem_euclid run.now.from (pos 86400)) }
{
    (run.to.seconds() - midnight_of(run)) as u64
}

/// The moment of a number of a run.
pub(crate) fn moment_at(span: &Span, number: u64) -> Moment
    requires span { IsSpan span.now }
    requires first { span.now.first ≤ number }
    requires last { number ≤ span.now.last }
    ensures value { result ≡ span.now.midnight +ℤ pos number }
{
    match Moment::make(second_at(span, number)) {
        Some(moment) => moment,
        None => span.from,
    }
}

/// The second of a number of a run.
fn second_at(span: &Span, number: u64) -> i64
    requires span { IsSpan span.now }
    requires first { span.now.first ≤ number }
    requires last { number ≤ span.now.last }
    ensures value { result ≡ span.now.midnight +ℤ pos number }
{
    span.midnight + number as i64
}
