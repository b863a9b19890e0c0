//! The clauses of control rules and their order.
ghost use Rattle.std.specs.Prelude.{◌≡◌};
ghost use Rattle.control_lines.specs.Clauses.{is_complete, is_premise as is_in_premise};
ghost use Rattle.control_lines.specs.Clauses.{next_stage};

/// What a control line is in the order of clauses (SWMM 5.2 manual, [CONTROLS]).
#[derive(Clone, Copy, PartialEq, Eq)]
pub enum Clause {
    /// VARIABLE or EXPRESSION.
    Declaration,
    /// RULE.
    Head,
    /// IF.
    Premise,
    /// OR, or AND with a condition.
    MorePremise,
    /// THEN.
    Then,
    /// AND with an action.
    MoreActions,
    /// ELSE.
    Else,
    /// PRIORITY.
    Priority,
}

/// How far a file's clauses have come.
#[derive(Clone, Copy, PartialEq, Eq)]
pub enum Stage {
    /// At the start, or after a declaration.
    Outside,
    /// After a rule's head.
    Headed,
    /// After a condition.
    InPremise,
    /// After an action of THEN.
    InThen,
    /// After an action of ELSE.
    InElse,
    /// After a priority.
    Ranked,
}

impl Stage {
    /// The stage after a clause, or None exactly where the clause may not come at this stage (SWMM
    /// 5.2 manual, [CONTROLS]).
    #[tactic(auto, unfolding(crate::specs::Clauses::next_stage))]
    pub fn next(self, clause: Clause) -> Option<Stage>
        ensures value { result ≡ next_stage self clause }
    {
        match (self, clause) {
            (_, Clause::Declaration) if self.is_complete() => Some(Stage::Outside),
            (_, Clause::Head) if self.is_complete() => Some(Stage::Headed),
            (Stage::Headed, Clause::Premise) => Some(Stage::InPremise),
            (Stage::InPremise, Clause::MorePremise) => Some(Stage::InPremise),
            (Stage::InPremise, Clause::Then) => Some(Stage::InThen),
            (Stage::InThen, Clause::MoreActions) => Some(Stage::InThen),
            (Stage::InElse, Clause::MoreActions) => Some(Stage::InElse),
            (Stage::InThen, Clause::Else) => Some(Stage::InElse),
            (Stage::InThen | Stage::InElse, Clause::Priority) => Some(Stage::Ranked),
            _ => None,
        }
    }

    /// Whether a rule may begin, a name may be declared, or the file may end at this stage.
    pub fn is_complete(self) -> bool
        ensures value { result ≡ is_complete self }
    {
        !matches!(self, Stage::Headed | Stage::InPremise)
    }

    /// Whether the clause before was a condition.
    pub fn is_premise(self) -> bool
        ensures value { result ≡ is_in_premise self }
    {
        matches!(self, Stage::InPremise)
    }
}
