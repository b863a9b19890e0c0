//! What a control line says, as it is written.
ghost use Rattle.std.specs.Prelude.{◌≡◌};
ghost use Rattle.control_lines.specs.Statements.{clause_of};
ghost use Rattle.control_lines.specs.Views.{statement_now};

use crate::clause::Clause;
use exact_fraction::relation::Relation;
use rule_types::ObjectWord;

/// The word that a condition begins with (SWMM 5.2 manual, [CONTROLS]).
#[derive(Clone, Copy, PartialEq, Eq)]
pub enum ConditionWord {
    If,
    And,
    Or,
}

/// The word that an action begins with (SWMM 5.2 manual, [CONTROLS]).
#[derive(Clone, Copy, PartialEq, Eq)]
pub enum ActionWord {
    Then,
    And,
    Else,
}

/// An attribute of an object, with the word and the name of the object.
#[derive(Clone, Copy)]
pub struct ObjectAttribute<'a> {
    pub word: ObjectWord,
    pub name: &'a [u8],
    pub attribute: &'a [u8],
}

/// A key as it is written (SWMM 5.2 manual, [CONTROLS]).
#[derive(Clone, Copy)]
pub enum KeyText<'a> {
    Object(ObjectAttribute<'a>),
    /// An attribute of SIMULATION.
    Clock(&'a [u8]),
}

/// A side of a condition as it is written (SWMM 5.2 manual, [CONTROLS]).
#[derive(Clone, Copy)]
pub enum SideText<'a> {
    Key(KeyText<'a>),
    /// An item that is neither the word of an object nor SIMULATION: a name or a value.
    Single(&'a [u8]),
}

/// A curve or a series as it is written.
#[derive(Clone, Copy)]
pub struct TableText<'a> {
    /// CURVE or TIMESERIES, in the letters of the line.
    pub word: &'a [u8],
    pub name: &'a [u8],
}

/// A PID controller as it is written.
#[derive(Clone, Copy)]
pub struct PidText<'a> {
    /// PID, in the letters of the line.
    pub word: &'a [u8],
    pub gain: &'a [u8],
    pub integral: &'a [u8],
    pub derivative: &'a [u8],
}

/// The value of an action as it is written (SWMM 5.2 manual, modulated controls).
#[derive(Clone, Copy)]
pub enum ValueText<'a> {
    /// One item: a number or a status.
    Plain(&'a [u8]),
    Curve(TableText<'a>),
    Series(TableText<'a>),
    Pid(PidText<'a>),
}

/// A condition as it is written (SWMM 5.2 manual, [CONTROLS]).
#[derive(Clone, Copy)]
pub struct ConditionText<'a> {
    pub word: ConditionWord,
    pub left: SideText<'a>,
    pub relation: Relation,
    pub right: SideText<'a>,
}

/// An action as it is written (SWMM 5.2 manual, [CONTROLS]).
#[derive(Clone, Copy)]
pub struct ActionText<'a> {
    pub word: ActionWord,
    /// The link and what of it is set.
    pub target: ObjectAttribute<'a>,
    pub value: ValueText<'a>,
}

/// What a control line says, as it is written (SWMM 5.2 manual, [CONTROLS]).
#[derive(Clone, Copy)]
pub enum Statement<'a> {
    /// VARIABLE: a name and its key.
    Variable(&'a [u8], KeyText<'a>),
    /// EXPRESSION: a name and the items of its formula, of which there are some.
    Expression(&'a [u8], &'a [&'a [u8]]),
    /// RULE: the rule's id.
    Head(&'a [u8]),
    /// IF, AND or OR.
    Condition(ConditionText<'a>),
    /// THEN, AND or ELSE.
    Action(ActionText<'a>),
    /// PRIORITY: its number.
    Priority(&'a [u8]),
}

impl Statement<'_> {
    /// What the statement is in the order of clauses.
    pub fn clause(&self) -> Clause
        ensures value { result ≡ clause_of (statement_now self.now) }
    {
        match self {
            Statement::Variable(_, _) | Statement::Expression(_, _) => Clause::Declaration,
            Statement::Head(_) => Clause::Head,
            Statement::Condition(condition) => match condition.word {
                ConditionWord::If => Clause::Premise,
                ConditionWord::And | ConditionWord::Or => Clause::MorePremise,
            },
            Statement::Action(action) => match action.word {
                ActionWord::Then => Clause::Then,
                ActionWord::And => Clause::MoreActions,
                ActionWord::Else => Clause::Else,
            },
            Statement::Priority(_) => Clause::Priority,
        }
    }
}
