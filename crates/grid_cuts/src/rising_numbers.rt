//! Numbers in rising order, each once.
ghost use Rattle.std.specs.Prelude.{◌≡◌, IfOk, OnOk, map};
ghost use Rattle.verdict_meaning.specs.Grids.{inserted, rising};
ghost use Rattle.grid_cuts.specs.internal.NumberOrder.{number_of};

use crate::cut::Cut;
use byte_edge::NoMemory;
use exact_fraction::frac::Frac;
use std::alloc::Global;
use std::collections::BTreeSet;

/// Numbers in rising order, each once. It takes time by their number times its logarithm.
pub(crate) fn rising(alloc: Global, numbers: &[Frac]) -> Result<Vec<Frac>, NoMemory>
    ensures value { IfOk result (λ list. list.items ≡ rising numbers.now) }
{
    let mut set = BTreeSet::new(alloc);
    let mut at = numbers.len();
    'back: while at > 0 {
        at -= 1;
        insert(&mut set, numbers[at])?;
    }
    numbers_of(alloc, &set)
}

/// Inserts a number, unless the same number is there.
fn insert(set: &mut BTreeSet<Cut>, number: Frac) -> Result<(), NoMemory>
    ensures inserted { OnOk result (map number_of set.new.keys
        ≡ inserted number (map number_of set.old.keys)) }
{
    match set.insert(Cut { number }) {
        Ok(_) => Ok(()),
        Err(_) => Err(NoMemory),
    }
}

/// The numbers of a set, in order.
fn numbers_of(alloc: Global, set: &BTreeSet<Cut>) -> Result<Vec<Frac>, NoMemory>
    ensures items { IfOk result (λ list. list.items ≡ map number_of set.now.keys) }
{
    let mut list = Vec::new(alloc);
    for cut in set.iter() {
        list.push(cut.number)?;
    }
    Ok(list)
}
