//! The pass that leaves facts out.
ghost use Rattle.std.specs.Prelude.{◌≡◌, ◌++◌, true, [], IfOk};
ghost use Rattle.lean_facts.specs.Lean.{kept_with, lean_of, none_spare};

use crate::judge::Judge;
use byte_edge::NoMemory;
use list_types::Items;
use std::alloc::Global;

/// Facts from among these that are accepted, of which none can be left out: each in turn is left
/// out where the others are accepted without it. The judge may be asked about them. It asks once
/// for each fact, about a copy of the others. NoMemory is the only error.
pub fn lean<J: Judge>(
    alloc: Global,
    judge: &J,
    facts: &[(u32, bool)],
) -> Result<Vec<(u32, bool)>, NoMemory>
    requires ready { J.is_ready judge.now }
    requires fits { J.fits judge.now facts.now }
    requires accepted { J.accepts judge.now facts.now ≡ true }
    ensures value { IfOk result (λ kept.
        kept.items ≡ lean_of (J.accepts judge.now) [] facts.now) }
    ensures accepted { IfOk result (λ kept. J.accepts judge.now kept.items ≡ true) }
    ensures fits { IfOk result (λ kept. J.fits judge.now kept.items) }
    ensures none_spare { IfOk result (λ kept.
        none_spare (J.accepts judge.now) [] kept.items ≡ true) }
{
    let mut kept = Vec::new(alloc);
    let mut rest = facts;
    'facts: while let Some((fact, more)) = rest.split_first() {
        kept = kept_with(alloc, judge, kept, *fact, more)?;
        rest = more;
    }
    Ok(kept)
}

/// The facts that are kept, with one more where these and the rest are not accepted without it.
/// NoMemory is the only error.
fn kept_with<J: Judge>(
    alloc: Global,
    judge: &J,
    kept: Vec<(u32, bool)>,
    fact: (u32, bool),
    rest: &[(u32, bool)],
) -> Result<Vec<(u32, bool)>, NoMemory>
    requires ready { J.is_ready judge.now }
    requires fits { J.fits judge.now (kept.items ++ rest.now) }
    ensures value { IfOk result (λ more.
        more.items ≡ kept_with (J.accepts judge.now) kept.items fact rest.now) }
{
    let others = Items::from_vec(both(alloc, &kept, rest)?);
    if judge.is_accepted(alloc, &others)? {
        return Ok(kept);
    }
    let mut more = kept;
    more.push(fact)?;
    Ok(more)
}

/// Facts and other facts behind them. NoMemory is the only error.
fn both(
    alloc: Global,
    first: &[(u32, bool)],
    second: &[(u32, bool)],
) -> Result<Vec<(u32, bool)>, NoMemory>
    ensures value { IfOk result (λ all. all.items ≡ first.now ++ second.now) }
{
    let mut all = Vec::new(alloc);
    all.extend_from_slice(first)?;
    all.extend_from_slice(second)?;
    Ok(all)
}
