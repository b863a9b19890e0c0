//! The orders that links get.
ghost use Rattle.std.specs.Prelude.{◌≡◌, ℕ, ◌+◌, ◌<◌, ◌≤◌, Some, Result, List, length, map};
ghost use Rattle.std.specs.Prelude.{[], ◌∷◌, ◌++◌, slice_get, IfSome, Ok};
ghost use Rattle.std.specs.Vec.{vec_len, vec_capacity};
ghost use Rattle.rule_types.specs.Fitting.{PairReady};
ghost use Rattle.rule_types.specs.declared.action.ActionAt.{ActionAt as AnyPair};
ghost use Rattle.rule_types.specs.Tables.{TableSet};
ghost use Rattle.rule_types.specs.declared.action.Order.{Order as AnyOrder};
ghost use Rattle.rule_types.specs.declared.action.PidMemory.{PidMemory as AnyMemory};
ghost use Rattle.rule_types.specs.declared.condition.Condition.{Condition as AnyCondition};
ghost use Rattle.rule_types.specs.declared.rules.Rules.{Rules as AnyRules};
ghost use Rattle.rule_types.specs.declared.state.State.{State as AnyState};
ghost use Rattle.rule_types.specs.declared.stop.Stop.{Stop as AnyStop};
ghost use Rattle.rule_meaning.specs.Memories.{memory_of};
ghost use Rattle.rule_meaning.specs.Reading.{Choice, action_worth, conditions_at, order_of};
ghost use Rattle.rule_meaning.specs.Reading.{order_then, orders_on};
ghost use Rattle.rule_meaning.specs.Settled.{action_at};
ghost use Rattle.rule_meaning.specs.Worth.{rate_of, worth as worth_of};
ghost use Rattle.action_values.specs.Links.{IsSound, IsLink, ControlledPlaces};
ghost use Rattle.action_values.specs.Readings.{told, prepended, step_then};

use crate::link::{LinkFacts, facts_at, facts_of};
use crate::worth::{capped, worth};
use curves_series::Tables;
use exact_fraction::error::Overflow;
use exact_fraction::frac::Frac;
use list_types::push_within_capacity;
use premise_eval::Values;
use rule_types::{
    Action, ActionAt, Order, PidMemory, Rules, State, Stop, StopCause, StopPlace, What,
};

/// The orders of the pairs that the controlled links take, in the order of links: `firsts` has for
/// each of them its pair, or None, and `places` its place among the tracked links. The first
/// overflow is the stop. It takes no memory, since `orders` has room.
pub fn give_orders(
    rules: &Rules,
    tables: &Tables,
    state: &State,
    values: &Values,
    places: &[usize],
    before: &[PidMemory],
    firsts: &[Option<ActionAt>],
    orders: &mut Vec<Order>,
) -> Result<(), Stop>
    requires sound { IsSound rules.now state.now values.now }
    requires places { ControlledPlaces rules.now places.now }
    requires each { length firsts.now ≡ length rules.now.controlled }
    requires ready { (at : AnyPair) → PairReady rules.now.rules tables.now (length before.now) at }
    requires room { length rules.now.controlled ≤ vec_capacity orders.old }
    ensures orders { (choice : Choice) → firsts.now ≡ map (choice state.now) rules.now.controlled
        → told result orders.new.items ≡ orders_on choice rules.now tables.now state.now
        (memory_of before.now) rules.now.controlled }
    ensures capacity { vec_capacity orders.old ≤ vec_capacity orders.new }
{
    orders.clear();
    for i in 0..firsts.len() {
        if let Err(stop) = add_order(
            rules, tables, state, values, places, before, i, &firsts[i], orders,
        ) {
            return Err(stop);
        }
    }
    Ok(())
}

/// Adds the order of the pair that a controlled link takes, if it takes one.
fn add_order(
    rules: &Rules,
    tables: &Tables,
    state: &State,
    values: &Values,
    places: &[usize],
    before: &[PidMemory],
    i: usize,
    first: &Option<ActionAt>,
    orders: &mut Vec<Order>,
) -> Result<(), Stop>
    requires sound { IsSound rules.now state.now values.now }
    requires places { ControlledPlaces rules.now places.now }
    requires within { i < length rules.now.controlled }
    requires ready { (at : AnyPair) → PairReady rules.now.rules tables.now (length before.now) at }
    requires room { vec_len orders.old < vec_capacity orders.old }
    ensures added { (link : ℕ) (later : Result (List AnyOrder) AnyStop)
        → slice_get rules.now.controlled i ≡ Some link
        → prepended orders.old.items (order_then rules.now tables.now state.now
        (memory_of before.now) link first.now later)
        ≡ step_then result (prepended orders.new.items later) }
    ensures longer { vec_len orders.new ≤ vec_len orders.old + 1 }
    ensures capacity { vec_capacity orders.new ≡ vec_capacity orders.old }
{
    match first {
        Some(at) => add_pair(rules, tables, state, values, places, before, i, at, orders),
        None => Ok(()),
    }
}

/// Adds the order of a pair.
fn add_pair(
    rules: &Rules,
    tables: &Tables,
    state: &State,
    values: &Values,
    places: &[usize],
    before: &[PidMemory],
    i: usize,
    at: &ActionAt,
    orders: &mut Vec<Order>,
) -> Result<(), Stop>
    requires sound { IsSound rules.now state.now values.now }
    requires places { ControlledPlaces rules.now places.now }
    requires within { i < length rules.now.controlled }
    requires ready { (at : AnyPair) → PairReady rules.now.rules tables.now (length before.now) at }
    requires room { vec_len orders.old < vec_capacity orders.old }
    ensures added { (link : ℕ) (later : Result (List AnyOrder) AnyStop)
        → slice_get rules.now.controlled i ≡ Some link
        → prepended orders.old.items (order_then rules.now tables.now state.now
        (memory_of before.now) link (Some at.now) later)
        ≡ step_then result (prepended orders.new.items later) }
    ensures longer { vec_len orders.new ≤ vec_len orders.old + 1 }
    ensures capacity { vec_capacity orders.new ≡ vec_capacity orders.old }
{
    let link = rules.controlled.as_slice()[i];
    let facts = facts_at(rules, state, i, places[i]);
    if let Some(order) = constant_order(rules, link, &facts.rate, at) {
        add(orders, order);
        return Ok(());
    }
    match order_of(rules, tables, state, values, before, link, &facts, at) {
        Ok(order) => {
            add(orders, order);
            Ok(())
        }
        Err(stop) => Err(stop),
    }
}

/// The order that a pair gives to a link of a rate where its action is a number on that link, which
/// is the same at every state. None for all other pairs.
fn constant_order(rules: &Rules, link: u32, rate: &Frac, at: &ActionAt) -> Option<Order>
    requires rate { rate.now ≡ rate_of rules.now link }
    ensures value { IfSome result (λ order. (tables : TableSet) (s : AnyState) (m : ℕ → AnyMemory)
        → Ok order ≡ order_of rules.now tables s m link at.now) }
{
    let action = rules.action_at(at)?;
    let value = constant_worth(action, link, rate)?;
    Some(Order {
        link,
        by: *at,
        value,
    })
}

/// The value of an action that is a number, on a link of a rate. None for all others.
fn constant_worth(action: &Action, link: u32, rate: &Frac) -> Option<Frac>
    ensures value { IfSome result (λ value. (x : AnyRules) (tables : TableSet) (s : AnyState)
        (m : ℕ → AnyMemory) (conditions : List AnyCondition) → rate.now ≡ rate_of x link
        → worth_of x tables s m conditions action.now ≡ Ok value) }
{
    if action.link != link {
        return None;
    }
    match &action.what {
        What::Constant(number) => Some(capped(rate, *number)),
        What::Curve(_) => None,
        What::Series(_) => None,
        What::Pid(_, _) => None,
    }
}

/// Adds an order where there is room.
fn add(orders: &mut Vec<Order>, order: Order)
    requires room { vec_len orders.old < vec_capacity orders.old }
    ensures items { orders.new.items ≡ orders.old.items ++ order ∷ [] }
    ensures longer { vec_len orders.new ≡ vec_len orders.old + 1 }
    ensures capacity { vec_capacity orders.new ≡ vec_capacity orders.old }
{
    match push_within_capacity(orders, order) {
        Ok(()) => {}
        Err(_) => {}
    }
}

/// The order that a pair gives to a link, or its overflow.
#[tactic(auto, unfolding(rule_meaning::specs::Reading::order_of))]
fn order_of(
    rules: &Rules,
    tables: &Tables,
    state: &State,
    values: &Values,
    before: &[PidMemory],
    link: u32,
    facts: &LinkFacts,
    at: &ActionAt,
) -> Result<Order, Stop>
    requires sound { IsSound rules.now state.now values.now }
    requires link { IsLink rules.now state.now link facts.now }
    requires ready { PairReady rules.now.rules tables.now (length before.now) at.now }
    ensures value { result ≡ order_of rules.now tables.now state.now (memory_of before.now) link
        at.now }
{
    match action_worth(rules, tables, state, values, before, link, facts, at) {
        Ok(value) => Ok(Order {
            link,
            by: *at,
            value,
        }),
        Err(_) => Err(Stop {
            place: StopPlace::Action(*at),
            cause: StopCause::Overflow,
        }),
    }
}

/// The value of the action at a place, where `facts` are those of a link on which it may act.
fn action_worth(
    rules: &Rules,
    tables: &Tables,
    state: &State,
    values: &Values,
    before: &[PidMemory],
    link: u32,
    facts: &LinkFacts,
    at: &ActionAt,
) -> Result<Frac, Overflow>
    requires sound { IsSound rules.now state.now values.now }
    requires link { IsLink rules.now state.now link facts.now }
    requires ready { PairReady rules.now.rules tables.now (length before.now) at.now }
    ensures value { result ≡ action_worth rules.now tables.now state.now (memory_of before.now)
        (conditions_at rules.now.rules at.now) (action_at rules.now.rules at.now) }
{
    match rules.action_at(at) {
        Some(action) => {
            let own = own_facts(rules, state, values, action.link, link, facts);
            worth(rules, tables, state, values, before, at, action, &own)
        }
        None => Ok(Frac::zero()),
    }
}

/// The facts of a link, which are given where it is the link `given`.
fn own_facts(
    rules: &Rules,
    state: &State,
    values: &Values,
    link: u32,
    given: u32,
    facts: &LinkFacts,
) -> LinkFacts
    requires sound { IsSound rules.now state.now values.now }
    requires link { IsLink rules.now state.now given facts.now }
    ensures is { IsLink rules.now state.now link result }
{
    let _columns = values.columns().len();
    if link == given {
        return *facts;
    }
    facts_of(rules, state, link)
}
