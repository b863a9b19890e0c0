//! Laws of events where what is known of premises is decided. Each function here does nothing: its
//! contract states laws for the proofs of the crates above.
ghost use Rattle.std.specs.Prelude.{◌≡◌, ℕ, true, false, None, Contains};
ghost use Rattle.exact_fraction.specs.Number.{Rational};
ghost use Rattle.rule_types.specs.declared.action.PidMemory.{PidMemory};
ghost use Rattle.rule_types.specs.declared.rules.Rules.{Rules};
ghost use Rattle.rule_types.specs.declared.state.State.{State};
ghost use Rattle.rule_types.specs.Reading.{links_acted};
ghost use Rattle.rule_types.specs.Tables.{TableSet};
ghost use Rattle.rule_meaning.specs.Formula.{names_stop_for};
ghost use Rattle.verdict_meaning.specs.declared.cell.Cell.{Cell};
ghost use Rattle.verdict_meaning.specs.declared.question.Question.{Question};
ghost use Rattle.verdict_meaning.specs.declared.question.Question.TheVariants.{Conflict, Dead};
ghost use Rattle.verdict_meaning.specs.declared.question.Question.TheVariants.{Limit};
ghost use Rattle.verdict_meaning.specs.Events.{has_event};
ghost use Rattle.verdict_meaning.specs.Questions.{asked_rules};
ghost use Rattle.verdict_meaning.specs.Shown.{KnownPremises, known_in, shown, shown_with};
ghost use Rattle.verdict_meaning.specs.Verdicts.{is_plain_question, orders_numbers};
ghost use Rattle.decided_events.specs.DecidedLimits.{DecidesLimit, IsLimitDecided};
ghost use Rattle.decided_events.specs.DecidedPremises.{DecidesAs, IsDecidedAt};

/// Where a box decides a question as a state does, what is known in it is decided at the state.
/// Where what is known is decided at a state at which no name of the question's rules stops, and
/// does not show that two rules have no conflict or that a rule is dead, the state has the event.
/// So it is for a limit where the setting of its link is decided too, and each action of its rules
/// on the link is a number.
pub fn decided_premises()
    ensures in_box { (x : Rules) (question : Question) (cell : Cell) (s : State)
        → DecidesAs x question cell s → IsDecidedAt x question s (known_in x question cell) }
    ensures conflict { (x : Rules) (tables : TableSet) (memory : ℕ → PidMemory) (s : State)
        (cell : Cell) (known : KnownPremises) (first second link : ℕ)
        → IsDecidedAt x (Conflict first second link) s known
        → names_stop_for x (asked_rules x (Conflict first second link)) s ≡ None
        → shown_with x tables cell known (Conflict first second link) ≡ false
        → has_event x tables memory s (Conflict first second link) ≡ true }
    ensures dead { (x : Rules) (tables : TableSet) (memory : ℕ → PidMemory) (s : State)
        (cell : Cell) (known : KnownPremises) (number : ℕ) → IsDecidedAt x (Dead number) s known
        → names_stop_for x (asked_rules x (Dead number)) s ≡ None
        → shown_with x tables cell known (Dead number) ≡ false
        → has_event x tables memory s (Dead number) ≡ true }
    ensures limit { (x : Rules) (tables : TableSet) (memory : ℕ → PidMemory) (s : State)
        (cell : Cell) (known : KnownPremises) (link : ℕ) (lo hi : Rational)
        → IsDecidedAt x (Limit link lo hi) s known → IsLimitDecided x cell s link lo hi
        → orders_numbers link (asked_rules x (Limit link lo hi)) ≡ true
        → names_stop_for x (asked_rules x (Limit link lo hi)) s ≡ None
        → shown_with x tables cell known (Limit link lo hi) ≡ false
        → has_event x tables memory s (Limit link lo hi) ≡ true }
{}

/// Some rule acts on the link of a limit that is not shown.
pub fn open_limits()
    ensures acted { (x : Rules) (tables : TableSet) (cell : Cell) (known : KnownPremises)
        (link : ℕ) (lo hi : Rational) → shown_with x tables cell known (Limit link lo hi) ≡ false
        → Contains (links_acted x.rules) link }
{}

/// No name stops that the rules of a plain question use. Where a box decides a plain question as a
/// state does, and for a limit the setting of its link, and the box is not shown, the state has the
/// question's event.
pub fn plain_questions()
    ensures no_stop { (x : Rules) (s : State) (question : Question)
        → is_plain_question x question ≡ true
        → names_stop_for x (asked_rules x question) s ≡ None }
    ensures event { (x : Rules) (tables : TableSet) (memory : ℕ → PidMemory) (s : State)
        (cell : Cell) (question : Question) → is_plain_question x question ≡ true
        → DecidesAs x question cell s → DecidesLimit x cell s question
        → shown x tables question cell ≡ false → has_event x tables memory s question ≡ true }
{}
