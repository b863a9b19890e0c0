//! The sample of a cell.
ghost use Rattle.std.specs.Prelude.{◌≡◌, IfOk, IfSome, pos};
ghost use Rattle.rule_types.specs.Fitting.{FitsRules};
ghost use Rattle.rule_types.specs.WellFormed.{WellFormed};
ghost use Rattle.verdict_meaning.specs.Grids.{sample_moment, sample_of, sample_with};
ghost use Rattle.verdict_meaning.specs.Premises.{start_of};
ghost use Rattle.grid_samples.specs.Cells.{HasPieces};

use crate::keys::numbers_of_keys;
use crate::links::sample_links;
use crate::numbers::cell_numbers;
use byte_edge::NoMemory;
use exact_fraction::frac::Frac;
use exact_fraction::moment::Moment;
use list_types::Items;
use rule_types::{Key, Rules, State};
use std::alloc::Global;
use verdict_meaning::Cell;

/// The sample of a cell, or None where the middle of one of its pieces does not fit: each key of
/// the cell has the number of its piece, a tracked link without one its initial setting, and the
/// moment is the first one of the cell. It fits the rules where the cell has pieces of a grid.
/// NoMemory is the one error. It takes time by the number of the input keys, and of the tracked
/// links times that of the cell's settings and timers.
#[tactic(auto, unfolding(verdict_meaning::specs::Grids::sample_of))]
pub fn sample(alloc: Global, rules: &Rules, cell: &Cell) -> Result<Option<State>, NoMemory>
    requires formed { WellFormed rules.now }
    ensures value { IfOk result (λ sample. sample ≡ sample_of rules.now cell.now) }
    ensures fits { HasPieces cell.now
        → IfOk result (λ sample. IfSome sample (FitsRules rules.now)) }
{
    match cell_numbers(alloc, cell.keys.as_slice())? {
        Some(numbers) => {
            let state = sample_with(alloc, rules, &cell.moments, numbers.as_slice())?;
            Ok(Some(state))
        }
        None => Ok(None),
    }
}

/// The sample of a cell with these moments and these numbers.
fn sample_with(
    alloc: Global,
    rules: &Rules,
    moments: &Option<(Moment, Moment)>,
    numbers: &[(Key, Frac)],
) -> Result<State, NoMemory>
    requires formed { WellFormed rules.now }
    ensures value { IfOk result (λ state.
        state ≡ sample_with rules.now moments.now numbers.now) }
{
    let start = start_of(rules);
    let inputs = numbers_of_keys(alloc, rules.input_keys.as_slice(), numbers)?;
    let links = sample_links(
        alloc,
        numbers,
        rules.tracked.as_slice(),
        rules.initial.as_slice(),
    )?;
    Ok(State {
        moment: sample_moment(start, moments),
        start,
        step: rules.routing_step,
        inputs: Items::from_vec(inputs),
        links: Items::from_vec(links),
    })
}

/// The first moment of a cell, or the start where it has none.
fn sample_moment(start: Moment, moments: &Option<(Moment, Moment)>) -> Moment
    ensures value { result ≡ sample_moment start moments.now }
{
    match moments {
        Some(span) => span.0,
        None => start,
    }
}

/// The start of rules, and 1970-01-01 where they have none.
fn start_of(rules: &Rules) -> Moment
    ensures value { result ≡ start_of rules.now }
{
    match rules.start {
        Some(start) => start,
        None => first_of_1970(),
    }
}

/// The moment from which seconds are counted.
#[tactic(auto, unfolding(exact_fraction::specs::Moments::moment_at))]
fn first_of_1970() -> Moment
    ensures value { result ≡ pos 0 }
{
    let Some(moment) = Moment::make(0) else {
        unreachable!();
    };
    moment
}
