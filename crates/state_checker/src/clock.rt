//! The moment, the start and the step of a state.
ghost use Rattle.std.specs.Prelude.{◌≡◌, ◌↔◌, ◌&&◌, IsTrue, int_le};
ghost use Rattle.rule_types.specs.WellFormed.{WellFormed};
ghost use Rattle.verdict_meaning.specs.Premises.{start_of};
ghost use Rattle.state_checker.specs.Inside.{is_at, is_in_moments};

use box_truths::times_of;
use exact_fraction::moment::Moment;
use rule_types::{Rules, State};
use verdict_meaning::Cell;

/// Whether the step of a state is the declared one.
pub(crate) fn has_step(rules: &Rules, state: &State) -> bool
    ensures exact { IsTrue result ↔ (state.now.step ≡ rules.now.routing_step) }
{
    state.step == rules.routing_step
}

/// Whether the moment of a state lies between the first and the last one of a box, and the state
/// starts where the rules do, where the box has moments.
#[tactic(auto, unfolding(crate::specs::Inside::is_in_moments))]
pub(crate) fn is_in_moments(rules: &Rules, cell: &Cell, state: &State) -> bool
    requires formed { WellFormed rules.now }
    ensures value { result ≡ is_in_moments (start_of rules.now) cell.now.moments state.now }
{
    match &cell.moments {
        None => true,
        Some(span) => {
            let times = times_of(rules);
            lies_between(&span.0, &state.moment, &span.1) & is_at(&state.start, &times.start)
        }
    }
}

/// Whether a moment lies between a first and a last one.
fn lies_between(first: &Moment, moment: &Moment, last: &Moment) -> bool
    ensures value { result
        ≡ (int_le first.now moment.now && int_le moment.now last.now) }
{
    (first.seconds() <= moment.seconds()) & (moment.seconds() <= last.seconds())
}

/// Whether two moments are one.
fn is_at(moment: &Moment, other: &Moment) -> bool
    ensures value { result ≡ is_at moment.now other.now }
{
    (moment.seconds() <= other.seconds()) & (other.seconds() <= moment.seconds())
}
