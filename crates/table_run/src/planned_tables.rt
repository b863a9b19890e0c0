//! Planned tables, with the pieces and the orders of the last reading.
ghost use Rattle.std.specs.Prelude.{◌≡◌, IfOk, List, length, map};
ghost use Rattle.rule_types.specs.declared.rules.Rules.{Rules as AnyRules};
ghost use Rattle.rule_types.specs.WellFormed.{WellFormed};
ghost use Rattle.premise_eval.specs.Kept.{IsPlan};
ghost use Rattle.premise_eval.specs.declared.column.Column.{Column as AnyColumn};
ghost use Rattle.action_values.specs.Links.{IsSound};
ghost use Rattle.table_plan.specs.Plan.{IsPlanOf};
ghost use Rattle.table_run.specs.Kits.{IsPlanned, KeepsFirsts};
ghost use Rattle.table_run.specs.Planned.{planned};

use crate::condition_truths::{NoConditions, StateConditions};
use crate::firsts::{order_all, order_changed};
use crate::pieces::read_pieces;
use crate::sources::sources;
use byte_edge::NoMemory;
use premise_eval::Values;
use rule_types::{ActionAt, Rules, State};
use std::alloc::Global;
use std::marker::Model;
use std::mem;
use table_compiler::LinkTables;
use table_plan::TablePlan;

/// A plan of tables with the piece of each column at the last reading and the pair that each table
/// ordered there. A table is looked at again only where one of its columns has another piece or
/// became missing or present, or where one of its parts is a condition by its place.
#[derive(Drop)]
pub(crate) struct PlannedTables {
    plan: TablePlan,
    /// For each column of the plan the number of the column of the values that has its side.
    sources: Vec<Option<usize>>,
    pieces: Vec<Option<usize>>,
    firsts: Vec<Option<ActionAt>>,
    /// Room for the pieces of the next reading.
    fresh: Vec<Option<usize>>,
    /// Room for the pairs of the next reading.
    next: Vec<Option<ActionAt>>,
    rows_tried: u64,
}

impl Model for PlannedTables {
    ghost use Rattle.table_run.specs.Kits.{PlannedKit};

    ghost Value = { PlannedKit };

    ghost view = { λ tables. record {
      plan = tables.plan;
      sources = tables.sources.items;
      pieces = tables.pieces.items;
      firsts = tables.firsts.items;
      fresh = tables.fresh.items;
      next = tables.next.items;
    } };
}

impl PlannedTables {
    /// The plan of tables for readings of rules, before the first reading.
    pub(crate) fn new(
        alloc: Global,
        rules: &Rules,
        values: &Values,
        tables: &LinkTables,
    ) -> Result<PlannedTables, NoMemory>
        requires well_formed { WellFormed rules.now }
        requires values { IsPlan rules.now values.now }
        ensures planned { IfOk result (IsPlanned rules.now values.now.columns) }
        ensures plan { IfOk result (λ planned. IsPlanOf planned.plan tables.now.tables) }
    {
        let plan = TablePlan::new(alloc, tables)?;
        let sources = sources(alloc, rules, values, plan.columns())?;
        let pieces = vec![in alloc; None; plan.columns().len()]?;
        let fresh = vec![in alloc; None; plan.columns().len()]?;
        let firsts = first_orders(alloc, &plan, &pieces, rules.controlled.len())?;
        let next = vec![in alloc; None; rules.controlled.len()]?;
        Ok(PlannedTables {
            plan,
            sources,
            pieces,
            firsts,
            fresh,
            next,
            rows_tried: 0,
        })
    }

    /// Works out the pieces and the pairs of a reading, which `next` then has. What is kept of the
    /// last reading stays until `keep`. It takes no memory.
    pub(crate) fn read(&mut self, rules: &Rules, state: &State, values: &Values)
        requires sound { IsSound rules.now state.now values.now }
        requires planned { IsPlanned rules.now values.now.columns self.old }
        ensures next { self.new.next
            ≡ map (planned rules.now self.old.plan state.now) rules.now.controlled }
        ensures fresh { KeepsFirsts self.new.plan self.new.fresh self.new.next }
        ensures planned { IsPlanned rules.now values.now.columns self.new }
        ensures same_plan { self.new.plan ≡ self.old.plan }
        ensures same_pieces { self.new.pieces ≡ self.old.pieces }
        ensures same_firsts { self.new.firsts ≡ self.old.firsts }
    {
        read_pieces(
            rules,
            state,
            values,
            self.plan.columns(),
            &self.sources,
            &mut self.fresh,
        );
        let truths = StateConditions::new(rules, state, values);
        order_changed(
            &self.plan,
            &truths,
            &self.pieces,
            &self.fresh,
            &self.firsts,
            &mut self.next,
            &mut self.rows_tried,
        );
    }

    /// Keeps the pieces and the pairs of the reading that `read` worked out.
    pub(crate) fn keep(&mut self)
        requires fresh { KeepsFirsts self.old.plan self.old.fresh self.old.next }
        ensures planned { (x : AnyRules) (among : List AnyColumn)
            → IsPlanned x among self.old → IsPlanned x among self.new }
        ensures same_plan { self.new.plan ≡ self.old.plan }
        ensures pieces { self.new.pieces ≡ self.old.fresh }
        ensures firsts { self.new.firsts ≡ self.old.next }
    {
        mem::swap(&mut self.pieces, &mut self.fresh);
        mem::swap(&mut self.firsts, &mut self.next);
    }

    /// The pair of each controlled link in the reading that `read` worked out.
    pub(crate) fn next(&self) -> &[Option<ActionAt>]
        ensures next { result.now ≡ self.now.next }
    {
        &self.next
    }

    /// How many rows of tables were looked at in all readings, up to the greatest u64. No clause
    /// ties it.
    pub(crate) fn rows_tried(&self) -> u64 {
        self.rows_tried
    }
}

/// What tables order by pieces, where no condition holds.
fn first_orders(
    alloc: Global,
    plan: &TablePlan,
    pieces: &[Option<usize>],
    count: usize,
) -> Result<Vec<Option<ActionAt>>, NoMemory>
    ensures kept { IfOk result (λ firsts. KeepsFirsts plan.now pieces.now firsts.items) }
    ensures each { IfOk result (λ firsts. length firsts.items ≡ count) }
{
    let mut firsts = vec![in alloc; None; count]?;
    let mut uncounted = 0;
    let truths = NoConditions { holds: false };
    order_all(plan, &truths, pieces, &mut firsts, &mut uncounted);
    Ok(firsts)
}
