//! The links of a sample.
ghost use Rattle.std.specs.Prelude.{◌≡◌, IfOk};
ghost use Rattle.verdict_meaning.specs.Grids.{link_at, number_of_key, number_or, sample_links};
ghost use Rattle.verdict_meaning.specs.Grids.{timer_key};
ghost use Rattle.rule_types.specs.declared.object.Space.TheVariants.{Links};
ghost use Rattle.verdict_meaning.specs.Questions.{setting_key};

use crate::keys::{link_numbers, number_of_key};
use byte_edge::NoMemory;
use exact_fraction::frac::Frac;
use rule_types::{Attr, Key, LinkState, ObjectNo, Space};
use std::alloc::Global;

/// The states of the tracked links, of which each without a number of its own has its initial
/// setting.
pub(crate) fn sample_links(
    alloc: Global,
    numbers: &[(Key, Frac)],
    tracked: &[u32],
    initial: &[Frac],
) -> Result<Vec<LinkState>, NoMemory>
    ensures value { IfOk result (λ links.
        links.items ≡ sample_links numbers.now tracked.now initial.now) }
{
    let of_links = link_numbers(alloc, numbers)?;
    links_among(alloc, of_links.as_slice(), tracked, initial)
}

/// The same, one by one, among these numbers.
#[tactic(auto, unfolding(verdict_meaning::specs::Grids::sample_links))]
fn links_among(
    alloc: Global,
    numbers: &[(Key, Frac)],
    tracked: &[u32],
    initial: &[Frac],
) -> Result<Vec<LinkState>, NoMemory>
    ensures value { IfOk result (λ links.
        links.items ≡ sample_links numbers.now tracked.now initial.now) }
{
    let mut links = Vec::with_capacity(alloc, tracked.len())?;
    let mut rest = tracked;
    let mut settings = initial;
    'links: while let Some((link, more)) = rest.split_first() {
        let Some((first, others)) = settings.split_first() else {
            return Ok(links);
        };
        links.push(link_in(numbers, *link, first))?;
        rest = more;
        settings = others;
    }
    Ok(links)
}

/// A link at its number among these, or else at its initial setting.
fn link_in(numbers: &[(Key, Frac)], link: u32, first: &Frac) -> LinkState
    ensures value { result ≡ link_at numbers.now link
        (number_or first.now (number_of_key (setting_key link) numbers.now)) }
{
    let setting = number_or(first, number_of_key(&setting_key(link), numbers));
    link_at(numbers, link, &setting)
}

/// A link at a setting: its target is the setting, and its timer the number of the timer key that
/// the setting makes present, or 0.
fn link_at(numbers: &[(Key, Frac)], link: u32, setting: &Frac) -> LinkState
    ensures value { result ≡ link_at numbers.now link setting.now }
{
    let timer = number_of_key(&timer_key(setting, link), numbers);
    LinkState {
        setting: *setting,
        target: *setting,
        timer: number_or(&Frac::zero(), timer),
    }
}

/// A number, or another one where there is none.
fn number_or(other: &Frac, number: Option<Frac>) -> Frac
    ensures value { result ≡ number_or other.now number }
{
    match number {
        Some(q) => q,
        None => *other,
    }
}

/// The SETTING of a link.
fn setting_key(link: u32) -> Key
    ensures value { result ≡ setting_key link }
{
    Key::Object(link_no(link), Attr::Setting)
}

/// The timer that a link has at a setting.
fn timer_key(setting: &Frac, link: u32) -> Key
    ensures value { result ≡ timer_key setting.now link }
{
    if Frac::zero().is_less(setting) {
        return Key::Object(link_no(link), Attr::TimeOpen);
    }
    Key::Object(link_no(link), Attr::TimeClosed)
}

/// The object of a link.
fn link_no(link: u32) -> ObjectNo
    ensures value { result ≡ record { space = Links; index = link } }
{
    ObjectNo {
        space: Space::Links,
        index: link,
    }
}
