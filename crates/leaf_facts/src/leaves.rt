//! The facts of a leaf.
ghost use Rattle.std.specs.Prelude.{◌≡◌, true, [], IfOk};
ghost use Rattle.rule_types.specs.Tables.{HoldsTables};
ghost use Rattle.rule_types.specs.WellFormed.{WellFormed};
ghost use Rattle.verdict_meaning.specs.Shown.{shown};
ghost use Rattle.verdict_meaning.specs.Verdicts.{is_leaf, none_spare};

use crate::judge::BoxJudge;
use crate::told::facts_in;
use byte_edge::NoMemory;
use curves_series::Tables;
use lean_facts::lean;
use list_types::Items;
use rule_types::Rules;
use std::alloc::Global;
use verdict_meaning::{Cell, Facts, Question};

/// Facts with which a leaf is accepted in a box that is shown for a question, of which none can be
/// left out. NoMemory is the one error. It takes memory by the number of rules. For each fact that
/// the box tells, at most one a rule of the question, it works out once whether the others that
/// are still there show the box, in time by the actions of all rules.
pub fn facts_of(
    alloc: Global,
    rules: &Rules,
    tables: &Tables,
    question: &Question,
    cell: &Cell,
) -> Result<Facts, NoMemory>
    requires formed { WellFormed rules.now }
    requires tables { HoldsTables tables.now rules.now.rules }
    requires shown { shown rules.now tables.now question.now cell.now ≡ true }
    ensures accepted { IfOk result (λ facts.
        is_leaf rules.now tables.now question.now cell.now facts ≡ true) }
    ensures lean { IfOk result (λ facts.
        none_spare (is_leaf rules.now tables.now question.now cell.now) [] facts ≡ true) }
{
    let told = facts_in(alloc, rules, tables, question, cell)?;
    let judge = BoxJudge {
        rules,
        tables,
        question,
        cell,
    };
    let kept = lean(alloc, &judge, &told)?;
    Ok(Items::from_vec(kept))
}
