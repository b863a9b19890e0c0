//! Sets of links.
ghost use Rattle.std.specs.Prelude.{◌≡◌, [], ◌∷◌, ◌++◌, map, filter, IfOk, OnOk};
ghost use Rattle.rule_types.specs.Reading.{links_acted as acted_on};
ghost use Rattle.verdict_meaning.specs.declared.question.Question.TheVariants as question;
ghost use Rattle.range_lines.specs.Entries.{in_link_order, is_among};
ghost use Rattle.range_lines.specs.Questions.{rule_links, shared_links};
ghost use Rattle.range_lines.specs.internal.Views.{action_links};

use byte_edge::NoMemory;
use list_types::Items;
use rule_types::{Action, Rule};
use std::alloc::Global;
use std::collections::BTreeSet;
use std::marker::Model;
use verdict_meaning::Question;

/// Links; contracts see them in link order, each once. A look-up takes time in proportion to the
/// logarithm of their number.
#[derive(Drop)]
pub struct LinkSet {
    links: BTreeSet<u32>,
}

impl Model for LinkSet {
    ghost use Rattle.std.specs.Prelude.{List, ℕ};

    ghost Value = { List ℕ };

    ghost view = { λ set. set.links.keys };
}

impl LinkSet {
    /// The links that rules act on: NoMemory only where memory is wanting. It takes time by the
    /// number of actions and its logarithm.
    pub fn of_rules(alloc: Global, rules: &[Rule]) -> Result<LinkSet, NoMemory>
        ensures value { IfOk result (λ set. set ≡ in_link_order [] (acted_on rules.now)) }
    {
        let links = links_acted(alloc, rules)?;
        Ok(LinkSet { links })
    }

    /// The links that a rule acts on.
    pub(crate) fn of_rule(alloc: Global, rule: &Rule) -> Result<LinkSet, NoMemory>
        ensures { IfOk result (λ set. set ≡ rule_links rule.now) }
    {
        let mut links = BTreeSet::new(alloc);
        add_links(&mut links, rule.then_actions.as_slice())?;
        add_links(&mut links, rule.else_actions.as_slice())?;
        Ok(LinkSet { links })
    }

    /// Whether a link is one of these.
    pub fn contains(&self, link: u32) -> bool
        ensures value { result ≡ is_among link self.now }
    {
        self.links.contains(&link)
    }

    /// Asks whether two rules conflict on each link of these that others have too.
    pub(crate) fn ask_conflicts(
        &self,
        questions: &mut Items<Question>,
        first: u32,
        second: u32,
        others: &LinkSet,
    ) -> Result<(), NoMemory>
        ensures { OnOk result (questions.new ≡ questions.old
            ++ map (question.Conflict first second) (shared_links self.now others.now)) }
    {
        for link in self.links.iter() {
            if others.contains(*link) {
                push_question(questions, Question::Conflict(first, second, *link))?;
            }
        }
        Ok(())
    }
}

/// Adds a question.
pub(crate) fn push_question(
    questions: &mut Items<Question>,
    question: Question,
) -> Result<(), NoMemory>
    ensures { OnOk result (questions.new ≡ questions.old ++ question ∷ []) }
{
    match questions.push(question) {
        Ok(()) => Ok(()),
        Err(_) => Err(NoMemory),
    }
}

/// The links that rules act on.
fn links_acted(alloc: Global, rules: &[Rule]) -> Result<BTreeSet<u32>, NoMemory>
    ensures { IfOk result (λ found. found.keys ≡ in_link_order [] (acted_on rules.now)) }
{
    let mut found = BTreeSet::new(alloc);
    for rule in rules {
        add_links(&mut found, rule.then_actions.as_slice())?;
        add_links(&mut found, rule.else_actions.as_slice())?;
    }
    Ok(found)
}

/// Adds the links of some actions.
fn add_links(found: &mut BTreeSet<u32>, actions: &[Action]) -> Result<(), NoMemory>
    ensures { OnOk result (found.new.keys
        ≡ in_link_order found.old.keys (action_links actions.now)) }
{
    for action in actions {
        add_link(found, action.link)?;
    }
    Ok(())
}

/// Adds a link.
fn add_link(found: &mut BTreeSet<u32>, link: u32) -> Result<(), NoMemory>
    ensures { OnOk result (found.new.keys ≡ in_link_order found.old.keys (link ∷ [])) }
{
    match found.insert(link) {
        Ok(_) => Ok(()),
        Err(_) => Err(NoMemory),
    }
}
