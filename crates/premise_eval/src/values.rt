//! The values that are kept of a state.
ghost use Rattle.std.specs.Prelude.{◌≡◌, length, IfOk};
ghost use Rattle.rule_types.specs.WellFormed.{WellFormed};
ghost use Rattle.premise_eval.specs.Kept.{IsPlan};

use crate::column::{Column, Pair};
use crate::marks::mark_all;
use crate::place::Place;
use crate::plan::{all_pairs, name_places, slots};
use crate::step_hours::StepHours;
use byte_edge::NoMemory;
use clock_values::hours_of_step;
use exact_fraction::frac::Frac;
use list_types::Items;
use rule_types::Rules;
use std::alloc::Global;
use std::marker::Model;

/// The values of the sides of the conditions of rules at a state, with the plan by which they are
/// read. Contracts see what is kept for the rules and of the state (`Kept`).
#[derive(Debug, Drop)]
pub struct Values {
    pub(crate) hours: Frac,
    pub(crate) values: Vec<Option<Frac>>,
    pub(crate) columns: Vec<Column>,
    pub(crate) pairs: Vec<Items<Pair>>,
    pub(crate) places: Vec<Place>,
    pub(crate) used: Vec<bool>,
    /// The last step that was asked for, in hours.
    pub(crate) known: StepHours,
    /// Room for the values of names while they are worked out.
    pub(crate) names: Vec<Option<Frac>>,
    /// Room for the marks of names.
    pub(crate) asked: Vec<bool>,
}

impl Model for Values {
    ghost use Rattle.std.specs.Prelude.{◌≡◌, vec_len};
    ghost use Rattle.premise_eval.specs.Kept.{Kept};

    ghost Value = { Kept };

    ghost view = { λ values. record {
      hours = values.hours;
      values = values.values.items;
      columns = values.columns.items;
      pairs = values.pairs.items;
      places = values.places.items;
      used = values.used.items;
    } };

    ghost invariant = { λ values. (vec_len values.names ≡ vec_len values.used)
        × (vec_len values.asked ≡ vec_len values.used) };
}

impl Values {
    /// Room for the values of these rules, with the plan by which they are read, or NoMemory where
    /// memory is wanting. Of no state are the values made yet. It takes time by the number of
    /// conditions times the logarithm of the number of keys and links, and by the sizes of the
    /// expressions that conditions name.
    pub fn new(alloc: Global, rules: &Rules) -> Result<Values, NoMemory>
        requires well_formed { WellFormed rules.now }
        ensures plan { IfOk result (λ values. IsPlan rules.now values) }
    {
        let places = name_places(alloc, rules)?;
        let mut used = vec![in alloc; false; rules.names.len()]?;
        mark_all(rules, &mut used);
        let mut numbers = vec![in alloc; 0usize; slots(rules)]?;
        let mut columns = Vec::new(alloc);
        let pairs = all_pairs(alloc, rules, &mut numbers, &mut columns)?;
        let values = vec![in alloc; None; columns.len()]?;
        let names = vec![in alloc; None; rules.names.len()]?;
        let asked = vec![in alloc; false; rules.names.len()]?;
        Ok(Values {
            hours: hours_of_step(&rules.routing_step),
            values,
            columns,
            pairs,
            places,
            used,
            known: StepHours::of_step(&rules.routing_step),
            names,
            asked,
        })
    }

    /// The values of the columns, in their order.
    pub fn columns(&self) -> &[Option<Frac>]
        ensures value { result.now ≡ self.now.values }
    {
        &self.values
    }
}
