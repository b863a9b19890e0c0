//! The rates of links, and which of them are pumps.
ghost use Rattle.std.specs.Prelude.{◌≡◌};
ghost use Rattle.rule_types.specs.WellFormed.{WellFormed};
ghost use Rattle.rule_meaning.specs.Worth.{is_pump, rate_of};

use exact_fraction::frac::Frac;
use premise_eval::link_at;
use rule_types::Rules;

/// The hours that a link takes to open or close fully (SWMM 5.2 manual, [ORIFICES]).
pub(crate) fn rate_of(rules: &Rules, link: u32) -> Frac
    requires formed { WellFormed rules.now }
    ensures value { result ≡ rate_of rules.now link }
{
    match link_at(rules.tracked.as_slice(), link) {
        Some(at) => rules.rates.as_slice()[at],
        None => Frac::zero(),
    }
}

/// Whether a link is a pump.
pub(crate) fn is_pump(rules: &Rules, link: u32) -> bool
    requires formed { WellFormed rules.now }
    ensures value { result ≡ is_pump rules.now link }
{
    match link_at(rules.controlled.as_slice(), link) {
        Some(at) => rules.pumps.as_slice()[at],
        None => false,
    }
}
