//! Whether the values of a state are found by halving.
ghost use Rattle.std.specs.Prelude.{◌≡◌, true};
ghost use Rattle.std.specs.List.Sorted.{IsStrictlyIncreasing};
ghost use Rattle.std.specs.Ordering.{is_lt};
ghost use Rattle.rule_types.specs.KeyOrder.{IsInKeyOrder, key_cmp};
ghost use Rattle.report_text.specs.internal.Halving.{IsOrdered};

use rule_types::{Key, Rules, State};

/// Whether the input keys and the links of rules stand in order, each once, and a state has an input
/// for each input key and a link for each tracked link. It takes time by their number.
pub(crate) fn is_ordered(rules: &Rules, state: &State) -> bool
    ensures { result ≡ true → IsOrdered rules.now state.now }
{
    if state.inputs.len() != rules.input_keys.len() {
        return false;
    }
    if state.links.len() != rules.tracked.len() {
        return false;
    }
    if !keys_rise(rules.input_keys.as_slice()) {
        return false;
    }
    if !links_rise(rules.tracked.as_slice()) {
        return false;
    }
    links_rise(rules.controlled.as_slice())
}

/// Whether keys stand in key order, each once.
fn keys_rise(keys: &[Key]) -> bool
    ensures { result ≡ true → IsInKeyOrder keys.now }
{
    let mut at = 1;
    'keys: while at < keys.len() {
        if !stands_before(&keys[at - 1], &keys[at]) {
            return false;
        }
        at += 1;
    }
    true
}

/// Whether a key stands before another in key order.
fn stands_before(key: &Key, other: &Key) -> bool
    ensures { result ≡ is_lt (key_cmp key.now other.now) }
{
    key.cmp(other).is_lt()
}

/// Whether links rise.
fn links_rise(links: &[u32]) -> bool
    ensures { result ≡ true → IsStrictlyIncreasing links.now }
{
    let mut at = 1;
    'links: while at < links.len() {
        if links[at - 1] >= links[at] {
            return false;
        }
        at += 1;
    }
    true
}
