//! The values of names.
ghost use Rattle.std.specs.Prelude.{◌≡◌, ◌+◌, ◌<◌, OnOk, length, drop};
ghost use Rattle.rule_types.specs.Fitting.{SameSizes};
ghost use Rattle.rule_types.specs.WellFormed.{IsCountable};
ghost use Rattle.rule_meaning.specs.Formula.{stop_from};
ghost use Rattle.premise_eval.specs.Kept.{marked};
ghost use Rattle.premise_eval.specs.Places.{NamesPlaced};
ghost use Rattle.premise_eval.specs.Stops.{stop_of};
ghost use Rattle.premise_eval.specs.internal.FormulaReading.{kind_read};
ghost use Rattle.premise_eval.specs.internal.NameReading.{stop_then, NamesHeld};

use crate::formula::{Derived, formula_read};
use crate::place::{Place, value_at};
use exact_fraction::frac::Frac;
use rule_types::{NameKind, Rules, State, Stop, StopPlace};

/// Works out the names that `asks` marks, in the order of the file, into `names`: a stop where one
/// of them overflows or divides by zero, and that is the first of them.
pub(crate) fn read_names(
    rules: &Rules,
    asks: &[bool],
    places: &[Place],
    state: &State,
    names: &mut [Option<Frac>],
) -> Result<(), Stop>
    requires placed { NamesPlaced rules.now places.now }
    requires sizes { SameSizes rules.now state.now }
    requires marks { length asks.now ≡ length rules.now.names }
    requires each { length names.old ≡ length rules.now.names }
    requires counted { IsCountable rules.now.names }
    ensures stop { stop_of result
        ≡ stop_from rules.now (marked asks.now) state.now 0 rules.now.names }
    ensures held { OnOk result
        (NamesHeld rules.now state.now (marked asks.now) (length rules.now.names) names.new) }
{
    for at in 0..rules.names.len() {
        if let Err(stop) = read_name(rules, asks, places, state, at, names) {
            return Err(stop);
        }
    }
    Ok(())
}

/// Works out the name of a place, where it is marked.
fn read_name(
    rules: &Rules,
    asks: &[bool],
    places: &[Place],
    state: &State,
    at: usize,
    names: &mut [Option<Frac>],
) -> Result<(), Stop>
    requires placed { NamesPlaced rules.now places.now }
    requires sizes { SameSizes rules.now state.now }
    requires marks { length asks.now ≡ length rules.now.names }
    requires each { length names.old ≡ length rules.now.names }
    requires counted { IsCountable rules.now.names }
    requires within { at < length rules.now.names }
    ensures stop { stop_from rules.now (marked asks.now) state.now at (drop at rules.now.names)
        ≡ stop_then result
        (stop_from rules.now (marked asks.now) state.now (at + 1) (drop (at + 1) rules.now.names)) }
    ensures held { OnOk result
        (NamesHeld rules.now state.now (marked asks.now) at names.old
        → NamesHeld rules.now state.now (marked asks.now) (at + 1) names.new) }
{
    if !asks[at] {
        return Ok(());
    }
    let named = &rules.names.as_slice()[at];
    match kind_read(state, places, &named.stands_for, &places[at]) {
        Ok(found) => {
            names[at] = found;
            Ok(())
        }
        Err(cause) => Err(Stop {
            place: StopPlace::Name(at as u32),
            cause,
        }),
    }
}

/// The value of what a name stands for, whose place this is where it is a variable.
#[tactic(auto, unfolding(crate::specs::internal::FormulaReading::kind_read))]
fn kind_read(state: &State, places: &[Place], kind: &NameKind, place: &Place) -> Derived
    ensures value { result ≡ kind_read state.now places.now kind.now place.now }
{
    match kind {
        NameKind::Variable(_) => Ok(value_at(state, place)),
        NameKind::Formula(formula) => formula_read(state, places, formula),
    }
}
