//! The places of the controlled links among the tracked ones.
ghost use Rattle.std.specs.Prelude.{◌≡◌, Some, IfOk, slice_get};
ghost use Rattle.std.specs.Prelude.{Contains};
ghost use Rattle.rule_types.specs.WellFormed.{WellFormed};
ghost use Rattle.action_values.specs.Links.{ControlledPlaces};

use byte_edge::NoMemory;
use premise_eval::link_at;
use rule_types::Rules;
use std::alloc::Global;

/// The places of the controlled links among the tracked ones, in link order, or NoMemory where
/// memory is wanting.
pub fn controlled_places(alloc: Global, rules: &Rules) -> Result<Vec<usize>, NoMemory>
    requires well_formed { WellFormed rules.now }
    ensures places { IfOk result (λ places. ControlledPlaces rules.now places.items) }
{
    let mut places = Vec::new(alloc);
    for link in rules.controlled.as_slice() {
        let place = place_among(rules.tracked.as_slice(), *link);
        places.push(place)?;
    }
    Ok(places)
}

/// The place of a link that is among links.
fn place_among(links: &[u32], link: u32) -> usize
    requires among { Contains links.now link }
    ensures place { slice_get links.now result ≡ Some link }
{
    match link_at(links, link) {
        Some(at) => at,
        None => 0,
    }
}
