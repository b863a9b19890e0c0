//! The rules and names of a file as far as they are read.
ghost use Rattle.std.specs.Prelude.{◌≡◌, ◌+◌, length, IfOk, OnOk};
ghost use Rattle.rule_types.specs.Reading.{pid_of};
ghost use Rattle.rule_parser.specs.Controls.{no_draft, draft_rules, with_name, new_rule};
ghost use Rattle.rule_parser.specs.Controls.{with_head, with_condition, with_action, with_priority};
ghost use Rattle.rule_parser.specs.Controls.{and_action, condition_count, action_count};
ghost use Rattle.rule_parser.specs.Controls.{is_else as is_of_else};

use crate::names::NameList;
use byte_edge::NoMemory;
use control_lines::{ActionWord, Stage};
use exact_fraction::frac::Frac;
use list_types::{Bytes, Items};
use rule_types::{Action, Condition, NameKind, Rule, What};
use std::alloc::Global;
use std::mem;

/// What is read so far: the stage, the declared names, the rules before the last, the last rule, if
/// there is one, and how many PID actions there are.
#[derive(Drop)]
pub(crate) struct Draft {
    pub(crate) stage: Stage,
    pub(crate) names: NameList,
    pub(crate) closed: Items<Rule>,
    pub(crate) last: Option<Rule>,
    pub(crate) pids: u32,
}

/// A copy of a text.
fn copied(alloc: Global, text: &[u8]) -> Result<Bytes, NoMemory>
    ensures { IfOk result (λ copy. copy ≡ text.now) }
{
    match Vec::from_slice(alloc, text) {
        Ok(copy) => Ok(Bytes::from_vec(copy)),
        Err(_) => Err(NoMemory),
    }
}

impl Draft {
    /// Nothing is read.
    pub(crate) fn new(alloc: Global) -> Draft
        ensures { result ≡ no_draft }
    {
        Draft {
            stage: Stage::Outside,
            names: NameList::new(alloc),
            closed: Items::new(alloc),
            last: None,
            pids: 0,
        }
    }

    /// Adds a declared name.
    pub(crate) fn push_name(
        &mut self,
        alloc: Global,
        name: &[u8],
        stands_for: NameKind,
    ) -> Result<(), NoMemory>
        ensures { OnOk result (self.new ≡ with_name self.old name.now stands_for) }
    {
        self.names.push(alloc, name, stands_for)
    }

    /// Adds a rule that only has its id.
    pub(crate) fn push_head(&mut self, alloc: Global, id: &[u8]) -> Result<(), NoMemory>
        ensures { OnOk result (self.new ≡ with_head self.old id.now) }
    {
        let rule = new_rule(alloc, id)?;
        match mem::replace(&mut self.last, Some(rule)) {
            Some(before) => match self.closed.push(before) {
                Ok(()) => Ok(()),
                Err(_) => Err(NoMemory),
            },
            None => Ok(()),
        }
    }

    /// Adds a condition to the last rule.
    pub(crate) fn push_condition(&mut self, condition: &Condition) -> Result<(), NoMemory>
        ensures { OnOk result (self.new ≡ with_condition self.old condition.now) }
    {
        let _right = condition.right;
        let Some(mut rule) = mem::replace(&mut self.last, None) else {
            return Ok(());
        };
        let pushed = rule.conditions.push(*condition);
        self.last = Some(rule);
        match pushed {
            Ok(()) => Ok(()),
            Err(_) => Err(NoMemory),
        }
    }

    /// Adds an action to the THEN or to the ELSE part of the last rule.
    pub(crate) fn push_action(&mut self, otherwise: bool, action: &Action) -> Result<(), NoMemory>
        ensures { OnOk result (self.new ≡ with_action otherwise self.old action.now) }
    {
        self.count_pid(&action.what)?;
        let Some(rule) = mem::replace(&mut self.last, None) else {
            return Ok(());
        };
        let rule = and_action(rule, otherwise, action)?;
        self.last = Some(rule);
        Ok(())
    }

    /// Counts a PID action.
    fn count_pid(&mut self, what: &What) -> Result<(), NoMemory>
        ensures { OnOk result (self.new
            ≡ record self.old { pids = self.old.pids + length (pid_of what.now) }) }
    {
        if let What::Pid(_, _) = what {
            let Some(pids) = self.pids.checked_add(1) else {
                return Err(NoMemory);
            };
            self.pids = pids;
        }
        Ok(())
    }

    /// Gives the last rule its priority.
    pub(crate) fn set_priority(&mut self, priority: Frac)
        ensures { self.new ≡ with_priority self.old priority }
    {
        if let Some(mut rule) = mem::replace(&mut self.last, None) {
            rule.priority = Some(priority);
            self.last = Some(rule);
        }
    }

    /// How many rules there are.
    pub(crate) fn rule_count(&self) -> Result<usize, NoMemory>
        ensures { IfOk result (λ count. count ≡ length (draft_rules self.now)) }
    {
        if self.last.is_none() {
            return Ok(self.closed.len());
        }
        match self.closed.len().checked_add(1) {
            Some(count) => Ok(count),
            None => Err(NoMemory),
        }
    }

    /// How many conditions the last rule has.
    pub(crate) fn condition_count(&self) -> usize
        ensures { result ≡ condition_count self.now.last }
    {
        match &self.last {
            Some(rule) => rule.conditions.len(),
            None => 0,
        }
    }

    /// How many actions the last rule has in one of its parts.
    pub(crate) fn action_count(&self, otherwise: bool) -> usize
        ensures { result ≡ action_count otherwise self.now.last }
    {
        let Some(rule) = &self.last else {
            return 0;
        };
        if otherwise {
            rule.else_actions.len()
        } else {
            rule.then_actions.len()
        }
    }

    /// Whether an action belongs to the ELSE part.
    pub(crate) fn is_else(&self, word: ActionWord) -> bool
        ensures { result ≡ is_of_else word self.now.last }
    {
        match word {
            ActionWord::Then => false,
            ActionWord::Else => true,
            ActionWord::And => match &self.last {
                Some(rule) => rule.else_actions.len() > 0,
                None => false,
            },
        }
    }
}

/// A rule that only has its id.
fn new_rule(alloc: Global, id: &[u8]) -> Result<Rule, NoMemory>
    ensures { IfOk result (λ rule. rule ≡ new_rule id.now) }
{
    let id = copied(alloc, id)?;
    Ok(Rule {
        id,
        conditions: Items::new(alloc),
        then_actions: Items::new(alloc),
        else_actions: Items::new(alloc),
        priority: None,
    })
}

/// A rule with one more action.
fn and_action(rule: Rule, otherwise: bool, action: &Action) -> Result<Rule, NoMemory>
    ensures { IfOk result (λ more. more ≡ and_action otherwise action.now rule) }
{
    let _what = action.what;
    let mut rule = rule;
    if otherwise {
        return match rule.else_actions.push(*action) {
            Ok(()) => Ok(rule),
            Err(_) => Err(NoMemory),
        };
    }
    match rule.then_actions.push(*action) {
        Ok(()) => Ok(rule),
        Err(_) => Err(NoMemory),
    }
}
