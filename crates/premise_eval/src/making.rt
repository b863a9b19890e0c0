//! Values are made of a state.
ghost use Rattle.std.specs.Prelude.{◌≡◌, ℕ, ◌<◌, Bool, length, OnOk, OnErr};
ghost use Rattle.std.specs.Prelude.{All};
ghost use Rattle.rule_types.specs.Fitting.{FitsRules, SameSizes};
ghost use Rattle.rule_types.specs.WellFormed.{WellFormed, IsCountable};
ghost use Rattle.rule_meaning.specs.Formula.{is_used, names_stop, names_stop_for, stop_from};
ghost use Rattle.rule_meaning.specs.SomeRules.{rules_at};
ghost use Rattle.premise_eval.specs.Columns.{ColumnsFit, ColumnsMade};
ghost use Rattle.premise_eval.specs.Kept.{IsPlan, IsMade, MarksAre};
ghost use Rattle.premise_eval.specs.Places.{NamesPlaced};
ghost use Rattle.premise_eval.specs.Stops.{stop_of};

use crate::column::{Column, read_columns};
use crate::marks::mark_some;
use crate::names::read_names;
use crate::place::Place;
use crate::values::Values;
use exact_fraction::frac::Frac;
use rule_types::{Rules, State, Stop};

/// Makes values of a state. All names that conditions use, by themselves or in an expression, are
/// worked out in the order of the file: the answer is a stop exactly where one of them overflows or
/// divides by zero, and then it is that of the first of them, and the values are as before. It
/// takes no memory, and time by the sizes of the used expressions and the number of the sides that
/// conditions have; a step that is the same as at the last call is not divided again.
pub fn derive(rules: &Rules, state: &State, values: &mut Values) -> Result<(), Stop>
    requires well_formed { WellFormed rules.now }
    requires fits { FitsRules rules.now state.now }
    requires plan { IsPlan rules.now values.old }
    ensures stop { stop_of result ≡ names_stop rules.now state.now }
    ensures made { OnOk result (IsMade rules.now rules.now.rules state.now values.new) }
    ensures kept { OnErr result (values.new ≡ values.old) }
    ensures plan { IsPlan rules.now values.new }
    ensures same_columns { values.new.columns ≡ values.old.columns }
{
    let hours = values.known.hours_of(&state.step);
    if let Err(stop) = read_state(
        rules,
        &values.used,
        &values.places,
        &values.columns,
        state,
        &mut values.names,
        &mut values.values,
    ) {
        return Err(stop);
    }
    values.hours = hours;
    Ok(())
}

/// The same for the names alone that the rules of some numbers use.
pub fn derive_for(
    rules: &Rules,
    only: &[u32],
    state: &State,
    values: &mut Values,
) -> Result<(), Stop>
    requires well_formed { WellFormed rules.now }
    requires exist { All (λ number. number < length rules.now.rules) only.now }
    requires fits { FitsRules rules.now state.now }
    requires plan { IsPlan rules.now values.old }
    ensures stop { stop_of result
        ≡ names_stop_for rules.now (rules_at rules.now.rules only.now) state.now }
    ensures made { OnOk result
        (IsMade rules.now (rules_at rules.now.rules only.now) state.now values.new) }
    ensures kept { OnErr result (values.new ≡ values.old) }
    ensures plan { IsPlan rules.now values.new }
    ensures same_columns { values.new.columns ≡ values.old.columns }
{
    let hours = values.known.hours_of(&state.step);
    if let Err(stop) = read_some(
        rules,
        only,
        &values.places,
        &values.columns,
        state,
        &mut values.asked,
        &mut values.names,
        &mut values.values,
    ) {
        return Err(stop);
    }
    values.hours = hours;
    Ok(())
}

/// Works out the names that the rules of some numbers use, in the order of the file, and then each
/// column.
fn read_some(
    rules: &Rules,
    only: &[u32],
    places: &[Place],
    columns: &[Column],
    state: &State,
    asked: &mut [bool],
    names: &mut [Option<Frac>],
    values: &mut [Option<Frac>],
) -> Result<(), Stop>
    requires exist { All (λ number. number < length rules.now.rules) only.now }
    requires placed { NamesPlaced rules.now places.now }
    requires columns { ColumnsFit rules.now columns.now }
    requires sizes { SameSizes rules.now state.now }
    requires marks { length asked.old ≡ length rules.now.names }
    requires each_name { length names.old ≡ length rules.now.names }
    requires each_column { length values.old ≡ length columns.now }
    requires counted { IsCountable rules.now.names }
    ensures stop { stop_of result
        ≡ names_stop_for rules.now (rules_at rules.now.rules only.now) state.now }
    ensures made { OnOk result (ColumnsMade rules.now
        (is_used rules.now (rules_at rules.now.rules only.now)) state.now columns.now values.new) }
    ensures kept { OnErr result (values.new ≡ values.old) }
{
    mark_some(rules, only, asked);
    if let Err(stop) = read_state(rules, asked, places, columns, state, names, values) {
        return Err(stop);
    }
    Ok(())
}

/// Works out the names that `asks` marks, in the order of the file, and then each column.
fn read_state(
    rules: &Rules,
    asks: &[bool],
    places: &[Place],
    columns: &[Column],
    state: &State,
    names: &mut [Option<Frac>],
    values: &mut [Option<Frac>],
) -> Result<(), Stop>
    requires placed { NamesPlaced rules.now places.now }
    requires columns { ColumnsFit rules.now columns.now }
    requires sizes { SameSizes rules.now state.now }
    requires marks { length asks.now ≡ length rules.now.names }
    requires each_name { length names.old ≡ length rules.now.names }
    requires each_column { length values.old ≡ length columns.now }
    requires counted { IsCountable rules.now.names }
    ensures stop { (used : ℕ → Bool) → MarksAre (length rules.now.names) asks.now used
        → stop_of result ≡ stop_from rules.now used state.now 0 rules.now.names }
    ensures made { OnOk result
        ((used : ℕ → Bool) → MarksAre (length rules.now.names) asks.now used
        → ColumnsMade rules.now used state.now columns.now values.new) }
    ensures kept { OnErr result (values.new ≡ values.old) }
{
    if let Err(stop) = read_names(rules, asks, places, state, names) {
        return Err(stop);
    }
    read_columns(state, names, columns, values);
    Ok(())
}
