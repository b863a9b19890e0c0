//! Readings by tables with room that is made once.
ghost use Rattle.std.specs.Prelude.{◌≡◌, ℕ, ◌≤◌, IfOk, OnErr, length, map};
ghost use Rattle.std.specs.Vec.{vec_capacity};
ghost use Rattle.rule_types.specs.Fitting.{FitsRules, MemoriesFit, PairCounted, PairReady};
ghost use Rattle.rule_types.specs.Reading.{pid_count};
ghost use Rattle.rule_types.specs.Tables.{HoldsTables};
ghost use Rattle.rule_types.specs.WellFormed.{WellFormed};
ghost use Rattle.rule_types.specs.declared.action.ActionAt.{ActionAt as AnyPair};
ghost use Rattle.rule_meaning.specs.History.{memory_read};
ghost use Rattle.rule_meaning.specs.Memories.{memory_of};
ghost use Rattle.rule_meaning.specs.Premise.{listed as listed_at};
ghost use Rattle.rule_meaning.specs.Reading.{read_by, orders_on, pids_stop, unless_stopped};
ghost use Rattle.action_values.specs.Links.{IsSound, ControlledPlaces};
ghost use Rattle.action_values.specs.Readings.{told, memory_told};
ghost use Rattle.table_plan.specs.Plan.{IsPlanOf};
ghost use Rattle.table_run.specs.Kits.{IsTableKit, IsPlanned, HasPidRoom};
ghost use Rattle.table_run.specs.Planned.{planned as planned_choice};
ghost use Rattle.table_run.specs.internal.PidRules.{pid_rules as numbers_of};

use crate::pid_rules::{list_pids, pid_rules};
use crate::planned_tables::PlannedTables;
use action_values::{controlled_places, read_pairs};
use byte_edge::NoMemory;
use curves_series::Tables;
use premise_eval::{Values, derive};
use rule_types::{ActionAt, Order, PidMemory, Rules, State, Stop};
use std::alloc::Global;
use std::marker::Model;
use table_compiler::LinkTables;
use trace_replay::fresh_memories;

/// What readings of the same rules by tables keep: the values of the sides of conditions, the rules
/// that have a PID action, the planned tables, and room that is made once.
#[derive(Drop)]
pub(crate) struct TableReadings {
    values: Values,
    places: Vec<usize>,
    pids: Vec<u32>,
    listed: Vec<ActionAt>,
    after: Vec<PidMemory>,
    planned: PlannedTables,
}

impl Model for TableReadings {
    ghost use Rattle.std.specs.Prelude.{vec_len};
    ghost use Rattle.std.specs.Vec.{vec_capacity};
    ghost use Rattle.table_run.specs.Kits.{TableKit};

    ghost Value = { TableKit };

    ghost view = { λ readings. record {
      kept = readings.values;
      places = readings.places.items;
      pids = readings.pids.items;
      pairs = vec_capacity readings.listed;
      memories = vec_len readings.after;
      planned = readings.planned;
    } };
}

impl TableReadings {
    /// Room for readings of rules by tables, or NoMemory where memory is wanting.
    pub(crate) fn new(
        alloc: Global,
        rules: &Rules,
        tables: &LinkTables,
    ) -> Result<TableReadings, NoMemory>
        requires well_formed { WellFormed rules.now }
        ensures kit { IfOk result (IsTableKit rules.now (pid_count rules.now.rules)) }
        ensures plan { IfOk result
            (λ readings. IsPlanOf readings.planned.plan tables.now.tables) }
    {
        let values = Values::new(alloc, rules)?;
        let places = controlled_places(alloc, rules)?;
        let pids = pid_rules(alloc, rules.rules.as_slice())?;
        let after = fresh_memories(alloc, rules.rules.as_slice())?;
        let listed = room_for_pids(alloc, rules, after.len())?;
        let planned = PlannedTables::new(alloc, rules, &values, tables)?;
        Ok(TableReadings {
            values,
            places,
            pids,
            listed,
            after,
            planned,
        })
    }

    /// Reads the rules at a state: the used names in the order of the file, the listed PID actions
    /// in the order of rules and of actions, and then the pairs that the tables order, in the order
    /// of links, whose orders it writes into `orders`. The first overflow or zero divisor is the
    /// stop, and then the memories stay, and so do the pieces and the pairs that are kept of the
    /// reading before. It takes no memory, since `orders` has room.
    pub(crate) fn read(
        &mut self,
        rules: &Rules,
        tables: &Tables,
        state: &State,
        memories: &mut [PidMemory],
        orders: &mut Vec<Order>,
    ) -> Result<(), Stop>
        requires well_formed { WellFormed rules.now }
        requires tables { HoldsTables tables.now rules.now.rules }
        requires fits { FitsRules rules.now state.now }
        requires memories { MemoriesFit rules.now.rules memories.old }
        requires kit { IsTableKit rules.now (length memories.old) self.old }
        requires room { length rules.now.controlled ≤ vec_capacity orders.old }
        ensures orders { told result orders.new.items
            ≡ read_by (planned_choice rules.now self.old.planned.plan) rules.now tables.now
            state.now (memory_of memories.old) }
        ensures memories { (number : ℕ) → memory_of memories.new number
            ≡ memory_read rules.now state.now (memory_of memories.old) number
            (read_by (planned_choice rules.now self.old.planned.plan) rules.now tables.now
            state.now (memory_of memories.old)) }
        ensures kit { IsTableKit rules.now (length memories.old) self.new }
        ensures same_plan { self.new.planned.plan ≡ self.old.planned.plan }
        ensures kept_pieces { OnErr result (self.new.planned.pieces ≡ self.old.planned.pieces) }
        ensures kept_firsts { OnErr result (self.new.planned.firsts ≡ self.old.planned.firsts) }
        ensures capacity { vec_capacity orders.old ≤ vec_capacity orders.new }
    {
        if let Err(stop) = derive(rules, state, &mut self.values) {
            return Err(stop);
        }
        read_planned(
            rules,
            tables,
            state,
            &self.values,
            &self.places,
            &self.pids,
            &mut self.listed,
            &mut self.planned,
            memories,
            &mut self.after,
            orders,
        )
    }

    /// How many rows of tables were looked at in all readings, up to the greatest u64. No clause
    /// ties it.
    pub(crate) fn rows_tried(&self) -> u64 {
        self.planned.rows_tried()
    }
}

/// The rest of a reading after the names.
fn read_planned(
    rules: &Rules,
    tables: &Tables,
    state: &State,
    values: &Values,
    places: &[usize],
    pids: &[u32],
    listed: &mut Vec<ActionAt>,
    planned: &mut PlannedTables,
    memories: &mut [PidMemory],
    after: &mut [PidMemory],
    orders: &mut Vec<Order>,
) -> Result<(), Stop>
    requires sound { IsSound rules.now state.now values.now }
    requires places { ControlledPlaces rules.now places.now }
    requires pids { pids.now ≡ numbers_of 0 rules.now.rules }
    requires pairs { HasPidRoom rules.now (vec_capacity listed.old) }
    requires planned { IsPlanned rules.now values.now.columns planned.old }
    requires room_after { length after.old ≡ length memories.old }
    requires counted { (at : AnyPair) → PairCounted rules.now.rules (length memories.old) at }
    requires ready { (at : AnyPair)
        → PairReady rules.now.rules tables.now (length memories.old) at }
    requires room { length rules.now.controlled ≤ vec_capacity orders.old }
    ensures orders { told result orders.new.items
        ≡ unless_stopped (pids_stop rules.now state.now (memory_of memories.old)
        (listed_at rules.now state.now))
        (orders_on (planned_choice rules.now planned.old.plan) rules.now tables.now state.now
        (memory_of memories.old) rules.now.controlled) }
    ensures memories { (number : ℕ) → memory_of memories.new number
        ≡ memory_told result rules.now state.now (memory_of memories.old) number
        (listed_at rules.now state.now) }
    ensures pairs { HasPidRoom rules.now (vec_capacity listed.new) }
    ensures planned { IsPlanned rules.now values.now.columns planned.new }
    ensures same_plan { planned.new.plan ≡ planned.old.plan }
    ensures kept_pieces { OnErr result (planned.new.pieces ≡ planned.old.pieces) }
    ensures kept_firsts { OnErr result (planned.new.firsts ≡ planned.old.firsts) }
    ensures capacity { vec_capacity orders.old ≤ vec_capacity orders.new }
{
    list_pids(rules, state, values, pids, listed);
    planned.read(rules, state, values);
    match read_pairs(
        rules,
        tables,
        state,
        values,
        places,
        listed,
        planned.next(),
        memories,
        after,
        orders,
    ) {
        Ok(()) => {
            planned.keep();
            Ok(())
        }
        Err(stop) => Err(stop),
    }
}

/// Room for the pairs of PID actions that rules with so many of them list.
fn room_for_pids(alloc: Global, rules: &Rules, count: usize) -> Result<Vec<ActionAt>, NoMemory>
    requires count { count ≡ pid_count rules.now.rules }
    ensures room { IfOk result (λ pairs. HasPidRoom rules.now (vec_capacity pairs)) }
{
    let _rules = rules.rules.len();
    let pairs = Vec::with_capacity(alloc, count)?;
    Ok(pairs)
}
