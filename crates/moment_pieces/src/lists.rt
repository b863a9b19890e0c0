//! Lists of rising numbers.
ghost use Rattle.std.specs.Prelude.{◌≡◌, ◌≤◌, ◌%◌, [], ◌∷◌, ◌++◌, length, not};
ghost use Rattle.std.specs.Prelude.{MatchOption, IfOk, OnOk};
ghost use Rattle.std.specs.List.{filter};
ghost use Rattle.moment_pieces.specs.internal.Starts.{Rises, rank, IsNext, IsLast};
ghost use Rattle.moment_pieces.specs.internal.Turns.{stands_in};

use byte_edge::NoMemory;
use std::alloc::Global;
use std::collections::BTreeSet;

/// How many of rising numbers are at most `n`: it takes time by the logarithm of their number.
pub(crate) fn rank(list: &[u64], n: u64) -> usize
    requires rising { Rises list.now }
    ensures value { result ≡ rank list.now n }
    ensures within { result ≤ length list.now }
{
    match list.binary_search(&n) {
        Ok(at) => at + 1,
        Err(at) => at,
    }
}

/// The first of rising numbers that is above `n`, if there is one.
pub(crate) fn next_after(list: &[u64], n: u64) -> Option<u64>
    requires rising { Rises list.now }
    ensures value { MatchOption result (IsLast (stands_in list.now) n)
        (IsNext (stands_in list.now) n) }
{
    let at = rank(list, n);
    if at < list.len() {
        Some(list[at])
    } else {
        None
    }
}

/// Whether a number is one of rising numbers.
pub(crate) fn stands_in(list: &[u64], n: u64) -> bool
    requires rising { Rises list.now }
    ensures value { result ≡ stands_in list.now n }
{
    list.binary_search(&n).is_ok()
}

/// The numbers of a set, in order.
pub(crate) fn numbers_of(alloc: Global, set: &BTreeSet<u64>) -> Result<Vec<u64>, NoMemory>
    ensures items { IfOk result (λ list. list.items ≡ set.now.keys) }
    ensures rising { Rises set.now.keys }
{
    let mut list = Vec::new(alloc);
    for number in set.iter() {
        list.push(*number)?;
    }
    Ok(list)
}

/// The numbers of a set, in order, but for those at a second of each day that a list has.
pub(crate) fn numbers_apart(
    alloc: Global,
    set: &BTreeSet<u64>,
    daily: &[u64],
) -> Result<Vec<u64>, NoMemory>
    requires rising { Rises daily.now }
    ensures items { IfOk result (λ list.
        list.items ≡ filter (λ m. not (stands_in daily.now (m % 86400))) set.now.keys) }
    ensures rising { Rises set.now.keys }
{
    let mut list = Vec::new(alloc);
    for number in set.iter() {
        push_apart(&mut list, *number, daily)?;
    }
    Ok(list)
}

/// Adds a number, unless it is at a second of each day that a list has.
fn push_apart(list: &mut Vec<u64>, number: u64, daily: &[u64]) -> Result<(), NoMemory>
    requires rising { Rises daily.now }
    ensures items { OnOk result (list.new.items ≡ list.old.items
        ++ filter (λ m. not (stands_in daily.now (m % 86400))) (number ∷ [])) }
{
    if stands_in(daily, number % 86_400) {
        return Ok(());
    }
    list.push(number)?;
    Ok(())
}
