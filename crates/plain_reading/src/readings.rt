//! Readings with room that is made once.
ghost use Rattle.std.specs.Prelude.{◌≡◌, ℕ, ◌+◌, ◌≤◌, IfOk, OnOk, length, map};
ghost use Rattle.std.specs.Vec.{vec_len, vec_capacity};
ghost use Rattle.rule_types.specs.Fitting.{FitsRules, MemoriesFit, PairCounted, PairReady};
ghost use Rattle.rule_types.specs.Tables.{HoldsTables};
ghost use Rattle.rule_types.specs.WellFormed.{WellFormed};
ghost use Rattle.rule_types.specs.declared.action.ActionAt.{ActionAt as AnyPair};
ghost use Rattle.rule_meaning.specs.History.{memory_read};
ghost use Rattle.rule_meaning.specs.Memories.{memory_of};
ghost use Rattle.rule_meaning.specs.Premise.{listed as listed_at};
ghost use Rattle.rule_meaning.specs.Reading.{read, settling, orders_on, pids_stop};
ghost use Rattle.rule_meaning.specs.Reading.{unless_stopped};
ghost use Rattle.action_values.specs.Links.{IsSound, ControlledPlaces};
ghost use Rattle.action_values.specs.Readings.{told, memory_told};
ghost use Rattle.plain_reading.specs.Room.{IsKit, pair_room};

use crate::list::{list_pairs, room_for_pairs};
use action_values::{controlled_places, read_pairs};
use byte_edge::NoMemory;
use curves_series::Tables;
use exact_fraction::frac::Frac;
use premise_eval::{Values, derive};
use priority_settle::settle_into;
use rule_types::{ActionAt, Order, PidMemory, Rules, State, Stop};
use std::alloc::Global;
use std::marker::Model;

/// What readings of the same rules keep: the values of the sides of conditions, and room that is
/// made once, so that a reading takes no memory.
#[derive(Debug, Drop)]
pub struct Readings {
    values: Values,
    places: Vec<usize>,
    listed: Vec<ActionAt>,
    firsts: Vec<Option<ActionAt>>,
    after: Vec<PidMemory>,
}

impl Model for Readings {
    ghost use Rattle.std.specs.Prelude.{vec_len};
    ghost use Rattle.std.specs.Vec.{vec_capacity};
    ghost use Rattle.plain_reading.specs.Room.{Kit};

    ghost Value = { Kit };

    ghost view = { λ readings. record {
      kept = readings.values;
      places = readings.places.items;
      pairs = vec_capacity readings.listed;
      links = vec_len readings.firsts;
      memories = vec_len readings.after;
    } };
}

impl Readings {
    /// Room for readings of these rules with so many memories, or NoMemory where memory is wanting.
    pub fn new(alloc: Global, rules: &Rules, count: usize) -> Result<Readings, NoMemory>
        requires well_formed { WellFormed rules.now }
        ensures kit { IfOk result (λ kit. IsKit rules.now count kit) }
    {
        let values = Values::new(alloc, rules)?;
        let places = controlled_places(alloc, rules)?;
        let listed = room_for_pairs(alloc, rules)?;
        let firsts = vec![in alloc; None; rules.controlled.len()]?;
        let fresh = PidMemory {
            e1: Frac::zero(),
            e2: Frac::zero(),
        };
        let after = vec![in alloc; fresh; count]?;
        Ok(Readings {
            values,
            places,
            listed,
            firsts,
            after,
        })
    }

    /// Reads the rules at a state: the used names in the order of the file, the listed PID actions
    /// in the order of rules and of actions, and then the settled pairs in the order of links,
    /// whose orders it writes into `orders`. The first overflow or zero divisor is the stop, and
    /// then the memories stay. It takes no memory, since `orders` has room.
    pub fn read(
        &mut self,
        rules: &Rules,
        tables: &Tables,
        state: &State,
        memories: &mut [PidMemory],
        orders: &mut Vec<Order>,
    ) -> Result<(), Stop>
        requires well_formed { WellFormed rules.now }
        requires tables { HoldsTables tables.now rules.now.rules }
        requires fits { FitsRules rules.now state.now }
        requires memories { MemoriesFit rules.now.rules memories.old }
        requires kit { IsKit rules.now (length memories.old) self.old }
        requires room { length rules.now.controlled ≤ vec_capacity orders.old }
        ensures orders { told result orders.new.items
            ≡ read rules.now tables.now state.now (memory_of memories.old) }
        ensures memories { (number : ℕ) → memory_of memories.new number
            ≡ memory_read rules.now state.now (memory_of memories.old) number
            (read rules.now tables.now state.now (memory_of memories.old)) }
        ensures kit { IsKit rules.now (length memories.old) self.new }
        ensures capacity { vec_capacity orders.old ≤ vec_capacity orders.new }
    {
        if let Err(stop) = derive(rules, state, &mut self.values) {
            return Err(stop);
        }
        read_listed(
            rules,
            tables,
            state,
            &self.values,
            &self.places,
            &mut self.listed,
            &mut self.firsts,
            memories,
            &mut self.after,
            orders,
        )
    }
}

/// The rest of a reading after the names, with room for listed pairs, for one pair a link and for
/// memories.
fn read_listed(
    rules: &Rules,
    tables: &Tables,
    state: &State,
    values: &Values,
    places: &[usize],
    listed: &mut Vec<ActionAt>,
    firsts: &mut [Option<ActionAt>],
    memories: &mut [PidMemory],
    after: &mut [PidMemory],
    orders: &mut Vec<Order>,
) -> Result<(), Stop>
    requires sound { IsSound rules.now state.now values.now }
    requires places { ControlledPlaces rules.now places.now }
    requires pairs { pair_room rules.now.rules ≤ vec_capacity listed.old }
    requires each { length firsts.old ≡ length rules.now.controlled }
    requires room_after { length after.old ≡ length memories.old }
    requires counted { (at : AnyPair) → PairCounted rules.now.rules (length memories.old) at }
    requires ready { (at : AnyPair)
        → PairReady rules.now.rules tables.now (length memories.old) at }
    requires room { length rules.now.controlled ≤ vec_capacity orders.old }
    ensures orders { told result orders.new.items
        ≡ unless_stopped (pids_stop rules.now state.now (memory_of memories.old)
        (listed_at rules.now state.now))
        (orders_on (settling rules.now) rules.now tables.now state.now (memory_of memories.old)
        rules.now.controlled) }
    ensures memories { (number : ℕ) → memory_of memories.new number
        ≡ memory_told result rules.now state.now (memory_of memories.old) number
        (listed_at rules.now state.now) }
    ensures pairs { vec_capacity listed.old ≤ vec_capacity listed.new }
    ensures capacity { vec_capacity orders.old ≤ vec_capacity orders.new }
{
    list_pairs(rules, state, values, listed);
    settle_into(rules, listed, firsts);
    read_pairs(
        rules, tables, state, values, places, listed, firsts, memories, after, orders,
    )
}
