//! Laws of the definitions that the contracts cite: each function is empty, and its contract is the
//! law.
ghost use Rattle.std.specs.Prelude.{◌≡◌, ℕ};
ghost use Rattle.control_lines.specs.Faults.{FaultText, Checked, sooner, both};
ghost use Rattle.control_lines.specs.Faults.{refusal_on, refusal_at};
ghost use Rattle.control_lines.specs.examples.Clauses.{AreOrders};
ghost use Rattle.control_lines.specs.examples.Faults.{AreFaults};
ghost use Rattle.control_lines.specs.examples.Statements.{AreDeclarations, AreConditions};
ghost use Rattle.control_lines.specs.examples.Statements.{AreActions, AreOtherLines};
ghost use Rattle.rule_types.specs.Refusals.{lower, earlier};

/// The stages that some lists of clauses come to, worked out by hand.
#[tactic(auto, unfolding(crate::specs::Clauses::next_stage))]
pub fn clause_examples()
    ensures { AreOrders }
{}

/// The faults that are reported of some parts of a line, worked out by hand.
#[tactic(auto, unfolding(crate::specs::Faults::sooner, crate::specs::Faults::both))]
pub fn fault_examples()
    ensures { AreFaults }
{}

/// What some lines say, worked out by hand.
#[tactic(auto, unfolding(crate::specs::Statements::statement_of, crate::specs::Statements::statement_by, crate::specs::Statements::variable_by, crate::specs::Statements::expression_by, crate::specs::Statements::condition_by, crate::specs::Statements::action_by, crate::specs::Statements::value_of, crate::specs::Statements::key_at, crate::specs::Statements::side_at, key_words::specs::Words::object_word, key_words::specs::Words::relation_of))]
pub fn statement_examples()
    ensures declarations { AreDeclarations }
    ensures conditions { AreConditions }
    ensures actions { AreActions }
    ensures others { AreOtherLines }
{}

/// The refusal of a line by two of its parts is the lower of the refusals by each of them.
pub fn faults<A, B>()
    ensures sooner { (line : ℕ) (a b : FaultText)
        → lower (refusal_on line a) (refusal_on line b) ≡ refusal_on line (sooner a b) }
    ensures both { (line : ℕ) (a : Checked A) (b : Checked B)
        → refusal_at line (both a b) ≡ earlier (refusal_at line a) (refusal_at line b) }
{}
