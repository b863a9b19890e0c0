//! Whether a state fits rules.
ghost use Rattle.std.specs.Prelude.{◌≡◌, ◌↔◌, IsTrue, not};
ghost use Rattle.exact_fraction.specs.Number.{zero};
ghost use Rattle.exact_fraction.specs.Order.{less};
ghost use Rattle.state_checker.specs.Fits.{fits_rules, is_one as are_one, link_fits, links_fit};

use exact_fraction::frac::Frac;
use rule_types::{LinkState, Rules, State};

/// Whether a state has one input for each input key and one link for each tracked link, its step is
/// the declared one, and its links fit.
#[tactic(auto, unfolding(crate::specs::Fits::fits_rules))]
pub(crate) fn fits_rules(rules: &Rules, state: &State) -> bool
    ensures value { result ≡ fits_rules rules.now state.now }
{
    let inputs = state.inputs.len() == rules.input_keys.len();
    let links = state.links.len() == rules.tracked.len();
    let step = is_one(&state.step, &rules.routing_step);
    (inputs & links) & (step & links_fit(rules.rates.as_slice(), state.links.as_slice()))
}

/// Whether each link fits, with one rate for each.
#[tactic(auto, unfolding(crate::specs::Fits::links_fit))]
fn links_fit(rates: &[Frac], links: &[LinkState]) -> bool
    ensures value { result ≡ links_fit rates.now links.now }
{
    let mut rest = rates;
    let mut standing = links;
    'links: while let Some((rate, more)) = rest.split_first() {
        let Some((link, others)) = standing.split_first() else {
            return false;
        };
        if !link_fits(rate, link) {
            return false;
        }
        rest = more;
        standing = others;
    }
    match standing.split_first() {
        None => true,
        Some(_) => false,
    }
}

/// Whether a link's setting, target and timer are at least 0, and without a rate it stands at its
/// target.
#[tactic(auto, unfolding(crate::specs::Fits::link_fits))]
fn link_fits(rate: &Frac, link: &LinkState) -> bool
    ensures value { result ≡ link_fits rate.now link.now }
{
    let at_target = Frac::zero().is_less(rate) | is_one(&link.target, &link.setting);
    (is_from_zero(&link.setting) & is_from_zero(&link.target))
        & (is_from_zero(&link.timer) & at_target)
}

/// Whether a number is at least 0.
fn is_from_zero(number: &Frac) -> bool
    ensures value { result ≡ not (less number.now zero) }
{
    !number.is_less(&Frac::zero())
}

/// Whether two fractions are one.
fn is_one(one: &Frac, other: &Frac) -> bool
    ensures value { result ≡ are_one one.now other.now }
{
    is_equal(one, other)
}

/// Whether two fractions are equal.
fn is_equal(one: &Frac, other: &Frac) -> bool
    ensures exact { IsTrue result ↔ (one.now ≡ other.now) }
{
    one == other
}
