//! The targets of links.
ghost use Rattle.std.specs.Prelude.{◌≡◌, ◌≤◌, ℕ, Some, map, slice_get, if◌then◌else◌, ◌==◌};
ghost use Rattle.std.specs.List.Sorted.{IsStrictlyIncreasing};
ghost use Rattle.exact_fraction.specs.Number.{Rational};
ghost use Rattle.rule_types.specs.declared.action.Order.{Order as AnOrder};
ghost use Rattle.rule_meaning.specs.History.{new_target};

use exact_fraction::frac::Frac;
use rule_types::Order;

/// The new target of a link, by orders of which the first is on it or on a later one: the value of
/// its order, or the old target where it has none.
#[tactic(auto, unfolding(rule_meaning::specs::History::new_target))]
pub(crate) fn target_of(orders: &[Order], link: u32, old: &Frac) -> Frac
    requires in_order { IsStrictlyIncreasing (map (λ order. order.link) orders.now) }
    requires from_link { (order : AnOrder) → slice_get orders.now 0 ≡ Some order
        → link ≤ order.link }
    ensures { result ≡ new_target orders.now link old.now }
{
    match orders.first() {
        Some(order) => value_or(order, link, old),
        None => *old,
    }
}

/// The value of an order where it is on the link, and else the old target.
fn value_or(order: &Order, link: u32, old: &Frac) -> Frac
    ensures { result ≡ (if order.now.link == link then order.now.value else old.now) }
{
    if order.link == link {
        return order.value;
    }
    *old
}

/// Orders without those before the first one on a link at or after `link`. The links at or after it
/// have the same new targets by them, so that one walk serves links and orders that both rise.
#[tactic(auto, unfolding(rule_meaning::specs::History::new_target))]
pub(crate) fn from_link(orders: &[Order], link: u32) -> &[Order]
    requires in_order { IsStrictlyIncreasing (map (λ order. order.link) orders.now) }
    ensures in_order { IsStrictlyIncreasing (map (λ order. order.link) result.now) }
    ensures from_link { (order : AnOrder) → slice_get result.now 0 ≡ Some order
        → link ≤ order.link }
    ensures same { (other : ℕ) (old : Rational) → link ≤ other
        → new_target result.now other old ≡ new_target orders.now other old }
{
    for (index, order) in orders.iter().enumerate() {
        if link <= order.link {
            return &orders[index..];
        }
    }
    &orders[orders.len()..]
}
