//! The numbers of keys.
ghost use Rattle.std.specs.Prelude.{◌≡◌, ◌∷◌, IfOk, List, filter, length, map, not, vec_len};
ghost use Rattle.exact_fraction.specs.Number.{Rational};
ghost use Rattle.rule_types.specs.declared.key.Key.{Key as AnyKey};
ghost use Rattle.rule_types.specs.KeyOrder.{IsInKeyOrder};
ghost use Rattle.rule_types.specs.Keys.{is_input};
ghost use Rattle.verdict_meaning.specs.Grids.{number_of_key};

use byte_edge::NoMemory;
use exact_fraction::frac::Frac;
use rule_types::{Attr, Key};
use std::alloc::Global;

/// The number of each of some keys in key order, or None where there is none. It takes time by the
/// number of keys, and for each number by its logarithm.
pub(crate) fn numbers_of_keys(
    alloc: Global,
    keys: &[Key],
    numbers: &[(Key, Frac)],
) -> Result<Vec<Option<Frac>>, NoMemory>
    requires in_order { IsInKeyOrder keys.now }
    ensures value { IfOk result (λ list.
        list.items ≡ map (λ key. number_of_key key numbers.now) keys.now) }
{
    let mut list = vec![in alloc; None; keys.len()]?;
    let mut at = numbers.len();
    'back: while at > 0 {
        at -= 1;
        place(keys, &numbers[at], &mut list);
    }
    Ok(list)
}

/// Puts a number in front of those that stand at the places of their keys.
fn place(keys: &[Key], number: &(Key, Frac), list: &mut Vec<Option<Frac>>)
    requires in_order { IsInKeyOrder keys.now }
    requires long { vec_len list.old ≡ length keys.now }
    ensures placed { (rest : List (AnyKey × Rational))
        → list.old.items ≡ map (λ key. number_of_key key rest) keys.now
        → list.new.items ≡ map (λ key. number_of_key key (number.now ∷ rest)) keys.now }
    ensures long { vec_len list.new ≡ length keys.now }
{
    if let Ok(at) = keys.binary_search(&number.0) {
        list[at] = Some(number.1);
    }
}

/// The numbers of keys that are not read from the trace.
pub(crate) fn link_numbers(
    alloc: Global,
    numbers: &[(Key, Frac)],
) -> Result<Vec<(Key, Frac)>, NoMemory>
    ensures value { IfOk result (λ list.
        list.items ≡ filter (λ number. not (is_input number.0)) numbers.now) }
{
    let mut list = Vec::new(alloc);
    let mut rest = numbers;
    'entries: while let Some((entry, more)) = rest.split_first() {
        if !is_input(&entry.0) {
            list.push(*entry)?;
        }
        rest = more;
    }
    Ok(list)
}

/// Whether a key is read from the trace.
fn is_input(key: &Key) -> bool
    ensures value { result ≡ is_input key.now }
{
    match key {
        Key::Object(_, Attr::Setting | Attr::Status) => false,
        Key::Object(_, Attr::TimeOpen | Attr::TimeClosed) => false,
        Key::Object(_, _) => true,
        Key::Clock(_) => false,
    }
}

/// The number of a key: that of the first entry with the key, or None.
#[tactic(auto, unfolding(verdict_meaning::specs::Grids::number_of_key))]
pub(crate) fn number_of_key(key: &Key, numbers: &[(Key, Frac)]) -> Option<Frac>
    ensures value { result ≡ number_of_key key.now numbers.now }
{
    let mut rest = numbers;
    'entries: while let Some((entry, more)) = rest.split_first() {
        if *key == entry.0 {
            return Some(entry.1);
        }
        rest = more;
    }
    None
}
