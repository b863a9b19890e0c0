//! What accepts the facts of a box.
use box_eval::shown_by;
use byte_edge::NoMemory;
use curves_series::Tables;
use lean_facts::Judge;
use list_types::Items;
use rule_types::Rules;
use std::alloc::Global;
use verdict_meaning::{Cell, Question};

/// Accepts the facts that alone show a box for a question.
#[derive(Clone, Copy)]
pub(crate) struct BoxJudge<'a> {
    pub rules: &'a Rules,
    pub tables: &'a Tables,
    pub question: &'a Question,
    pub cell: &'a Cell,
}

impl Judge for BoxJudge<'_> {
    ghost use Rattle.rule_types.specs.Tables.{HoldsTables};
    ghost use Rattle.rule_types.specs.WellFormed.{WellFormed};
    ghost use Rattle.verdict_meaning.specs.Shown.{shown_by};
    ghost use Rattle.verdict_meaning.proofs.PublicLaws.{shown_boxes-one_more_fact};
    ghost use Rattle.leaf_facts.specs.internal.FewerFacts.{AreFacts, facts_without};

    ghost accepts = { λ judge. shown_by judge.rules.now judge.tables.now judge.question.now
        judge.cell.now };

    ghost is_ready = { λ judge. WellFormed judge.rules.now
        × HoldsTables judge.tables.now judge.rules.now.rules };

    ghost fits = { λ judge. AreFacts judge.rules.now judge.question.now judge.cell.now };

    fn is_accepted(&self, alloc: Global, facts: &Items<(u32, bool)>) -> Result<bool, NoMemory> {
        shown_by(
            alloc,
            self.question,
            self.rules,
            self.tables,
            self.cell,
            facts,
        )
    }

    ghost grows = { λ judge xs ys fact ready. shown_boxes-one_more_fact judge.rules.now
        judge.tables.now judge.question.now judge.cell.now xs ys fact };

    ghost fewer = { λ judge xs ys fact ready. facts_without judge.rules.now judge.question.now
        judge.cell.now xs ys fact };
}
