//! The law of witnesses. The function here does nothing: its contract states a law for the proofs of
//! the crates above.
ghost use Rattle.std.specs.Prelude.{◌↔◌, IsTrue};
ghost use Rattle.rule_types.specs.declared.rules.Rules.{Rules};
ghost use Rattle.rule_types.specs.declared.state.State.{State};
ghost use Rattle.rule_types.specs.Tables.{TableSet};
ghost use Rattle.rule_types.specs.WellFormed.{WellFormed};
ghost use Rattle.verdict_meaning.specs.declared.question.Question.{Question};
ghost use Rattle.verdict_meaning.specs.declared.ranges.Ranges.{Ranges};
ghost use Rattle.state_checker.specs.Witnesses.{IsWitness, is_witness};

/// The test of a witness tests this.
pub fn witnesses()
    ensures test { (x : Rules) (tables : TableSet) (question : Question) (ranges : Ranges)
        (s : State) → WellFormed x → IsTrue (is_witness x tables question ranges s)
        ↔ IsWitness x tables question ranges s }
{}
