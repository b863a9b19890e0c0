//! Columns: the sides of conditions, each with its value.
ghost use Rattle.std.specs.Prelude.{◌≡◌, length, map};
ghost use Rattle.premise_eval.specs.Columns.{value_in};
ghost use Rattle.premise_eval.specs.internal.ColumnReading.{column_read};

use crate::place::{Place, value_at};
use exact_fraction::frac::Frac;
use rule_types::{Side, State};

/// A side that conditions have, and the place of its value where it is a key.
#[derive(Clone, Copy, Debug)]
pub struct Column {
    pub side: Side,
    pub place: Place,
}

/// The numbers of the columns of a condition's two sides. Where the right side is a number the
/// second one says nothing.
#[derive(Clone, Copy, Debug)]
pub struct Pair {
    pub left: usize,
    pub right: usize,
}

/// Reads each column off a state and the values of the names.
pub(crate) fn read_columns(
    state: &State,
    names: &[Option<Frac>],
    columns: &[Column],
    values: &mut [Option<Frac>],
)
    requires each { length values.old ≡ length columns.now }
    ensures values { values.new ≡ map (column_read state.now names.now) columns.now }
{
    for at in 0..columns.len() {
        let found = column_read(state, names, &columns[at]);
        values[at] = found;
    }
}

/// The value of a column.
#[tactic(auto, unfolding(crate::specs::internal::ColumnReading::column_read))]
fn column_read(state: &State, names: &[Option<Frac>], column: &Column) -> Option<Frac>
    ensures value { result ≡ column_read state.now names.now column.now }
{
    match &column.side {
        Side::Key(_) => value_at(state, &column.place),
        Side::Expr(name) => value_in(names, *name as usize),
    }
}

/// The value of a number among values, or None where there is none.
pub(crate) fn value_in(values: &[Option<Frac>], at: usize) -> Option<Frac>
    ensures value { result ≡ value_in values.now at }
{
    let found = values.get(at)?;
    *found
}
