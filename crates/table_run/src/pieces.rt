//! The pieces of the columns of a plan at a state.
ghost use Rattle.std.specs.Prelude.{◌≡◌, length, option_map};
ghost use Rattle.rule_types.specs.declared.condition.Side.{Side as AnySide};
ghost use Rattle.rule_meaning.specs.Condition.{left_value};
ghost use Rattle.premise_eval.specs.Columns.{value_in as value_of};
ghost use Rattle.action_values.specs.Links.{IsSound};
ghost use Rattle.table_plan.specs.Pieces.{piece};
ghost use Rattle.table_plan.specs.Plan.{pieces_of};
ghost use Rattle.table_run.specs.Planned.{value_read as told_value};
ghost use Rattle.table_run.specs.internal.Sources.{IsLeftColumn, IsSource, AreSources};

use exact_fraction::frac::Frac;
use premise_eval::Values;
use rule_types::{Rules, Side, State};
use table_plan::PlanColumn;

/// Writes the piece of each column of a plan at a state: none where its value is missing.
pub(crate) fn read_pieces(
    rules: &Rules,
    state: &State,
    values: &Values,
    columns: &[PlanColumn],
    sources: &[Option<usize>],
    pieces: &mut [Option<usize>],
)
    requires sound { IsSound rules.now state.now values.now }
    requires sources { AreSources rules.now values.now.columns columns.now sources.now }
    requires each { length pieces.old ≡ length columns.now }
    ensures pieces { pieces.new ≡ pieces_of columns.now (told_value rules.now state.now) }
{
    for at in 0..columns.len() {
        let piece = piece_read(rules, state, values, &columns[at], &sources[at]);
        pieces[at] = piece;
    }
}

/// The piece of a column at a state.
fn piece_read(
    rules: &Rules,
    state: &State,
    values: &Values,
    column: &PlanColumn,
    source: &Option<usize>,
) -> Option<usize>
    requires sound { IsSound rules.now state.now values.now }
    requires source { IsSource rules.now values.now.columns column.now.side source.now }
    ensures piece { result ≡ option_map (piece column.now.cuts)
        (told_value rules.now state.now column.now.side) }
{
    match value_read(rules, state, values, &column.side, source) {
        Some(value) => Some(column.piece(value)),
        None => None,
    }
}

/// The value of a side that some condition has on its left, and nothing where none has it.
fn value_read(
    rules: &Rules,
    state: &State,
    values: &Values,
    side: &Side,
    source: &Option<usize>,
) -> Option<Frac>
    requires sound { IsSound rules.now state.now values.now }
    requires source { IsSource rules.now values.now.columns side.now source.now }
    ensures value { result ≡ told_value rules.now state.now side.now }
{
    let _side = side.is_time();
    match source {
        Some(at) => left_value(rules, state, values, *at),
        None => None,
    }
}

/// The value of a column whose side a condition has on its left.
fn left_value(rules: &Rules, state: &State, values: &Values, at: usize) -> Option<Frac>
    requires sound { IsSound rules.now state.now values.now }
    ensures value { (side : AnySide) → IsLeftColumn rules.now values.now.columns at side
        → result ≡ left_value rules.now state.now side }
{
    let _rules = rules.rules.len();
    let _moment = state.moment;
    value_in(values.columns(), at)
}

/// The value of a number among values, or None where there is none.
fn value_in(values: &[Option<Frac>], at: usize) -> Option<Frac>
    ensures value { result ≡ value_of values.now at }
{
    let found = values.get(at)?;
    *found
}
