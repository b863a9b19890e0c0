//! One reading of listed pairs.
ghost use Rattle.std.specs.Prelude.{◌≡◌, ◌≢◌, ℕ, ◌≤◌, [], All, length, map};
ghost use Rattle.std.specs.Vec.{vec_capacity};
ghost use Rattle.rule_types.specs.Fitting.{PairCounted, PairReady};
ghost use Rattle.rule_types.specs.declared.action.ActionAt.{ActionAt as AnyPair};
ghost use Rattle.rule_meaning.specs.History.{memory_listed};
ghost use Rattle.rule_meaning.specs.Memories.{memory_of};
ghost use Rattle.rule_meaning.specs.Reading.{Choice, orders_on, pids_stop, unless_stopped};
ghost use Rattle.action_values.specs.Links.{IsSound, ControlledPlaces};
ghost use Rattle.action_values.specs.Readings.{told, memory_told};

use crate::order::give_orders;
use crate::pids::advance_all;
use curves_series::Tables;
use premise_eval::Values;
use rule_types::{ActionAt, Order, PidMemory, Rules, State, Stop};

/// The rest of a reading after the names: the listed PID actions advance, and then the controlled
/// links get the orders of the pairs that they take. The first overflow is the stop, and the
/// memories move only where there is none. It takes no memory, since `orders` has room and `after`
/// is room for the memories, which are neither copied nor walked where no pair is listed.
#[tactic(auto, unfolding(rule_meaning::specs::Reading::pids_stop, rule_meaning::specs::History::memory_listed))]
pub fn read_pairs(
    rules: &Rules,
    tables: &Tables,
    state: &State,
    values: &Values,
    places: &[usize],
    listed: &[ActionAt],
    firsts: &[Option<ActionAt>],
    memories: &mut [PidMemory],
    after: &mut [PidMemory],
    orders: &mut Vec<Order>,
) -> Result<(), Stop>
    requires sound { IsSound rules.now state.now values.now }
    requires places { ControlledPlaces rules.now places.now }
    requires counted { All (PairCounted rules.now.rules (length memories.old)) listed.now }
    requires each { length firsts.now ≡ length rules.now.controlled }
    requires room_after { length after.old ≡ length memories.old }
    requires ready { (at : AnyPair)
        → PairReady rules.now.rules tables.now (length memories.old) at }
    requires room { length rules.now.controlled ≤ vec_capacity orders.old }
    ensures orders { (choice : Choice) → firsts.now ≡ map (choice state.now) rules.now.controlled
        → told result orders.new.items
        ≡ unless_stopped (pids_stop rules.now state.now (memory_of memories.old) listed.now)
        (orders_on choice rules.now tables.now state.now (memory_of memories.old)
        rules.now.controlled) }
    ensures memories { (number : ℕ) → memory_of memories.new number
        ≡ memory_told result rules.now state.now (memory_of memories.old) number listed.now }
    ensures capacity { vec_capacity orders.old ≤ vec_capacity orders.new }
{
    let none = listed.is_empty();
    if let Some(stop) = advance_listed(rules, state, values, listed, memories, after) {
        return Err(stop);
    }
    if let Err(stop) = give_orders(
        rules, tables, state, values, places, memories, firsts, orders,
    ) {
        return Err(stop);
    }
    if !none {
        memories.copy_from_slice(after);
    }
    Ok(())
}

/// Advances the listed PID actions from copies of the memories, which are not made where none is
/// listed. The first overflow is the answer.
#[tactic(auto, unfolding(rule_meaning::specs::Reading::pids_stop))]
fn advance_listed(
    rules: &Rules,
    state: &State,
    values: &Values,
    listed: &[ActionAt],
    memories: &[PidMemory],
    after: &mut [PidMemory],
) -> Option<Stop>
    requires sound { IsSound rules.now state.now values.now }
    requires counted { All (PairCounted rules.now.rules (length memories.now)) listed.now }
    requires room_after { length after.old ≡ length memories.now }
    ensures stop { result ≡ pids_stop rules.now state.now (memory_of memories.now) listed.now }
    ensures memories { listed.now ≢ [] → (number : ℕ) → memory_of after.new number
        ≡ memory_listed rules.now state.now (memory_of memories.now) number listed.now }
    ensures each { length after.new ≡ length memories.now }
{
    if listed.is_empty() {
        return None;
    }
    after.copy_from_slice(memories);
    advance_all(rules, state, values, listed, memories, after)
}
