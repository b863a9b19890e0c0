//! The statements of control lines, one after the other.
ghost use Rattle.std.specs.Prelude.{◌≡◌, IfOk, Some};
ghost use Rattle.control_lines.specs.Faults.{then_with};
ghost use Rattle.control_lines.specs.Views.{checked_now, key_now, condition_now, action_now};
ghost use Rattle.control_lines.specs.Views.{statement_now};
ghost use Rattle.expr_parser.specs.Reading.{expr_in};
ghost use Rattle.rule_types.specs.declared.names.NameKind.TheVariants.{Formula};
ghost use Rattle.rule_parser.specs.Actions.{action_read};
ghost use Rattle.rule_parser.specs.Conditions.{condition_read};
ghost use Rattle.rule_parser.specs.Controls.{with_name, with_condition, with_action};
ghost use Rattle.rule_parser.specs.Controls.{variable_read, expression_read, head_read};
ghost use Rattle.rule_parser.specs.Controls.{condition_added, action_added, priority_read};
ghost use Rattle.rule_parser.specs.Controls.{statement_read, is_else};
ghost use Rattle.expr_parser.specs.Names.{declared_names};
ghost use Rattle.rule_parser.specs.Formulas.{formula_from};
ghost use Rattle.rule_parser.specs.internal.Views.{context_now, Follows};
ghost use Rattle.rule_parser.specs.internal.Views.{formula_text as text_of};

use crate::action::read_action;
use crate::condition::read_condition;
use crate::context::Context;
use crate::draft::Draft;
use crate::formula::read_formula;
use crate::keys::read_key;
use byte_edge::NoMemory;
use control_lines::{ActionText, ConditionText, Fault, KeyText, Statement, both};
use network_lines::{ValueKind, read_value, room_for};
use rule_types::{Action, Condition, Expr, NameKind};
use std::alloc::Global;

/// How many rules a file may have.
const MOST_RULES: usize = 4_096;

/// How many conditions a rule may have.
const MOST_CONDITIONS: usize = 256;

/// How many actions one part of a rule may have.
const MOST_ACTIONS: usize = 64;

impl Draft {
    /// Adds a statement, whatever its stage, unless it is at fault. `text` is the text of the
    /// formula of an expression.
    #[tactic(auto, unfolding(crate::specs::Controls::statement_read, crate::specs::Formulas::formula_read))]
    pub(crate) fn add<'a>(
        &mut self,
        alloc: Global,
        context: Context<'_>,
        statement: &Statement<'a>,
        text: &'a [u8],
    ) -> Result<Option<Fault<'a>>, NoMemory>
        requires text { text.now ≡ text_of (Some (statement_now statement.now)) }
        ensures { IfOk result (λ told. Follows (statement_read (context_now context.entry)
            self.old (statement_now statement.now)) told self.new) }
    {
        match statement {
            Statement::Variable(name, key) => self.add_variable(alloc, context, name, key),
            Statement::Expression(name, _) => self.add_expression(alloc, name, text),
            Statement::Head(id) => self.add_head(alloc, id),
            Statement::Condition(written) => self.add_condition(alloc, context, written),
            Statement::Action(written) => self.add_action(alloc, context, written),
            Statement::Priority(number) => Ok(self.add_priority(number)),
        }
    }

    /// Adds a variable.
    #[tactic(auto, unfolding(control_lines::specs::Faults::both))]
    fn add_variable<'a>(
        &mut self,
        alloc: Global,
        context: Context<'_>,
        name: &'a [u8],
        key: &KeyText<'a>,
    ) -> Result<Option<Fault<'a>>, NoMemory>
        ensures { IfOk result (λ told. Follows (variable_read (context_now context.entry)
            self.old name.now (key_now key.now)) told self.new) }
    {
        let key = read_key(alloc, context.objects, key)?;
        match both(self.names.check(name), key) {
            Ok((_, key)) => {
                self.push_name(alloc, name, NameKind::Variable(key))?;
                Ok(None)
            }
            Err(fault) => Ok(Some(fault)),
        }
    }

    /// Adds an expression.
    fn add_expression<'a>(
        &mut self,
        alloc: Global,
        name: &'a [u8],
        text: &'a [u8],
    ) -> Result<Option<Fault<'a>>, NoMemory>
        ensures { IfOk result (λ told. Follows (expression_read self.old name.now
            (formula_from name.now text.now (expr_in (declared_names self.old.names) text.now)))
            told self.new) }
    {
        match read_formula(alloc, self.names.index(), name, text) {
            Ok(formula) => {
                let checked = both(self.names.check(name), formula);
                self.push_formula(alloc, name, checked)
            }
            Err(_) => Err(NoMemory),
        }
    }

    /// Adds the name of a formula, unless it is at fault.
    fn push_formula<'a>(
        &mut self,
        alloc: Global,
        name: &'a [u8],
        checked: Result<(((), ((), ())), Expr), Fault<'a>>,
    ) -> Result<Option<Fault<'a>>, NoMemory>
        ensures { IfOk result (λ told. Follows (then_with
            (λ found. with_name self.old name.now (Formula found.1)) (checked_now checked.entry))
            told self.new) }
    {
        match checked {
            Ok((_, formula)) => match self.push_name(alloc, name, NameKind::Formula(formula)) {
                Ok(()) => Ok(None),
                Err(_) => Err(NoMemory),
            },
            Err(fault) => Ok(Some(fault)),
        }
    }

    /// Adds a rule that only has its id.
    fn add_head<'a>(&mut self, alloc: Global, id: &'a [u8]) -> Result<Option<Fault<'a>>, NoMemory>
        ensures { IfOk result (λ told. Follows (head_read self.old id.now) told self.new) }
    {
        let count = self.rule_count()?;
        match room_for(b"rules", MOST_RULES, count) {
            Ok(()) => {
                self.push_head(alloc, id)?;
                Ok(None)
            }
            Err(fault) => Ok(Some(fault)),
        }
    }

    /// Adds a condition.
    fn add_condition<'a>(
        &mut self,
        alloc: Global,
        context: Context<'_>,
        written: &ConditionText<'a>,
    ) -> Result<Option<Fault<'a>>, NoMemory>
        ensures { IfOk result (λ told. Follows (condition_added self.old
            (condition_read (context_now context.entry).objects self.old.names
            (condition_now written.now))) told self.new) }
    {
        let room = room_for(b"conditions", MOST_CONDITIONS, self.condition_count());
        match read_condition(alloc, context.objects, &self.names, written) {
            Ok(condition) => self.push_checked_condition(&both(room, condition)),
            Err(_) => Err(NoMemory),
        }
    }

    /// Adds a condition that is read, unless it is at fault.
    fn push_checked_condition<'a>(
        &mut self,
        checked: &Result<((), Condition), Fault<'a>>,
    ) -> Result<Option<Fault<'a>>, NoMemory>
        ensures { IfOk result (λ told. Follows (then_with
            (λ found. with_condition self.old found.1) (checked_now checked.now)) told self.new) }
    {
        match checked {
            Ok((_, condition)) => match self.push_condition(condition) {
                Ok(()) => Ok(None),
                Err(_) => Err(NoMemory),
            },
            Err(fault) => Ok(Some(*fault)),
        }
    }

    /// Adds an action.
    fn add_action<'a>(
        &mut self,
        alloc: Global,
        context: Context<'_>,
        written: &ActionText<'a>,
    ) -> Result<Option<Fault<'a>>, NoMemory>
        ensures { IfOk result (λ told. Follows (action_added self.old
            (is_else written.now.word self.old.last)
            (action_read (context_now context.entry).objects (context_now context.entry).tables
            self.old.pids (action_now written.now))) told self.new) }
    {
        let otherwise = self.is_else(written.word);
        let room = room_for(b"actions", MOST_ACTIONS, self.action_count(otherwise));
        match read_action(alloc, context, self.pids, written) {
            Ok(action) => self.push_checked_action(otherwise, &both(room, action)),
            Err(_) => Err(NoMemory),
        }
    }

    /// Adds an action that is read, unless it is at fault.
    fn push_checked_action<'a>(
        &mut self,
        otherwise: bool,
        checked: &Result<((), Action), Fault<'a>>,
    ) -> Result<Option<Fault<'a>>, NoMemory>
        ensures { IfOk result (λ told. Follows (then_with
            (λ found. with_action otherwise self.old found.1) (checked_now checked.now)) told
            self.new) }
    {
        match checked {
            Ok((_, action)) => match self.push_action(otherwise, action) {
                Ok(()) => Ok(None),
                Err(_) => Err(NoMemory),
            },
            Err(fault) => Ok(Some(*fault)),
        }
    }

    /// Gives the last rule its priority.
    fn add_priority<'a>(&mut self, number: &'a [u8]) -> Option<Fault<'a>>
        ensures { Follows (priority_read self.old number.now) result self.new }
    {
        match read_value(ValueKind::Number, number) {
            Ok(priority) => {
                self.set_priority(priority);
                None
            }
            Err(fault) => Some(fault),
        }
    }
}
