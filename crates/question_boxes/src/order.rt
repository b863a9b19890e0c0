//! The keys of a question's grid.
ghost use Rattle.std.specs.Prelude.{◌≡◌, ◌&&◌, OnOk, IfOk, slice_get};
ghost use Rattle.std.specs.BTreeSet.{insert_key};
ghost use Rattle.rule_types.specs.KeyOrder.{key_cmp};
ghost use Rattle.std.specs.List.{list_any, flat_map};
ghost use Rattle.rule_types.specs.Reading.{rule_actions};
ghost use Rattle.verdict_meaning.specs.Questions.{asked_rules, grid_keys as keys_of_grid, is_asked};
ghost use Rattle.verdict_meaning.specs.Questions.{grid_keys_of, has_moments, in_key_order, is_clock};
ghost use Rattle.verdict_meaning.specs.Questions.{is_series, limit_keys};
ghost use Rattle.question_boxes.specs.internal.KeyLists.{Adds, grid_keys_read, rule_has_series};

use crate::reads::KeyList;
use crate::rule_reads::keys_read;
use box_eval::is_asked;
use byte_edge::NoMemory;
use rule_types::{Action, Attr, Key, ObjectNo, Rules, Space, What};
use std::alloc::Global;
use std::collections::BTreeSet;
use verdict_meaning::Question;

/// The keys of a question's grid, in key order: those that the conditions of its rules read, by
/// themselves or through a name, with SETTING in place of STATUS and beside a timer, and the SETTING
/// of a limit's link. NoMemory is the one error. It takes time and memory by the number of keys that
/// are read, and time by the actions of all rules.
#[tactic(auto, unfolding(verdict_meaning::specs::Questions::grid_keys))]
pub fn grid_keys(
    alloc: Global,
    rules: &Rules,
    question: &Question,
) -> Result<BTreeSet<Key>, NoMemory>
    ensures value { IfOk result (λ set. set.keys ≡ keys_of_grid rules.now question.now) }
{
    let read = keys_read(alloc, rules, question)?;
    let mut list = KeyList {
        keys: Vec::new(alloc),
    };
    list.grid_keys_read(question, read.keys.as_slice())?;
    in_key_order(alloc, list.keys.as_slice())
}

impl KeyList {
    /// Adds the grid's keys for keys that are read, and for a question itself.
    #[tactic(auto, using(crate::proofs::Additions::additions))]
    fn grid_keys_read(&mut self, question: &Question, keys: &[Key]) -> Result<(), NoMemory>
        ensures adds { OnOk result (Adds self.old self.new
            (grid_keys_read question.now keys.now)) }
    {
        self.all_grid_keys(keys)?;
        self.limit_keys(question)
    }

    /// Adds the grid's keys for keys that are read.
    fn all_grid_keys(&mut self, keys: &[Key]) -> Result<(), NoMemory>
        ensures adds { OnOk result (Adds self.old self.new (flat_map grid_keys_of keys.now)) }
    {
        for key in keys {
            self.grid_keys_of(key)?;
        }
        Ok(())
    }

    /// Adds the grid's keys for a key that is read.
    #[tactic(auto, using(crate::proofs::Additions::additions))]
    fn grid_keys_of(&mut self, key: &Key) -> Result<(), NoMemory>
        ensures adds { OnOk result (Adds self.old self.new (grid_keys_of key.now)) }
    {
        match key {
            Key::Clock(_) => Ok(()),
            Key::Object(object, Attr::Status) => self.key(&Key::Object(*object, Attr::Setting)),
            Key::Object(object, Attr::TimeOpen) => {
                self.key(&Key::Object(*object, Attr::Setting))?;
                self.key(key)
            }
            Key::Object(object, Attr::TimeClosed) => {
                self.key(&Key::Object(*object, Attr::Setting))?;
                self.key(key)
            }
            Key::Object(_, _) => self.key(key),
        }
    }

    /// Adds the SETTING of a limit's link.
    #[tactic(auto, using(crate::proofs::Additions::additions))]
    fn limit_keys(&mut self, question: &Question) -> Result<(), NoMemory>
        ensures adds { OnOk result (Adds self.old self.new (limit_keys question.now)) }
    {
        match question {
            Question::Limit(link, _, _) => {
                let object = ObjectNo {
                    space: Space::Links,
                    index: *link,
                };
                self.key(&Key::Object(object, Attr::Setting))
            }
            _ => Ok(()),
        }
    }
}

/// Keys in key order, each once.
fn in_key_order(alloc: Global, keys: &[Key]) -> Result<BTreeSet<Key>, NoMemory>
    ensures value { IfOk result (λ set. set.keys ≡ in_key_order keys.now) }
{
    let mut set = BTreeSet::new(alloc);
    let mut at = keys.len();
    'back: while at > 0 {
        at -= 1;
        insert(&mut set, keys[at])?;
    }
    Ok(set)
}

/// Inserts a key.
fn insert(set: &mut BTreeSet<Key>, key: Key) -> Result<(), NoMemory>
    ensures inserted { OnOk result (set.new.keys ≡ insert_key key_cmp set.old.keys key) }
{
    match set.insert(key) {
        Ok(_) => Ok(()),
        Err(_) => Err(NoMemory),
    }
}

/// Whether a question's grid has moments: its rules read the clock or have a series. NoMemory is
/// the one error.
#[tactic(auto, unfolding(verdict_meaning::specs::Questions::has_moments))]
pub fn has_moments(alloc: Global, rules: &Rules, question: &Question) -> Result<bool, NoMemory>
    ensures value { IfOk result (λ b. b ≡ has_moments rules.now question.now) }
{
    let read = keys_read(alloc, rules, question)?;
    let clock = reads_clock(read.keys.as_slice());
    Ok(clock | has_series(rules, question))
}

/// Whether a key of the clock is read.
fn reads_clock(keys: &[Key]) -> bool
    ensures value { result ≡ list_any is_clock keys.now }
{
    let mut rest = keys;
    'keys: while let Some((key, more)) = rest.split_first() {
        if is_clock(key) {
            return true;
        }
        rest = more;
    }
    false
}

/// Whether a key is one of the clock.
fn is_clock(key: &Key) -> bool
    ensures value { result ≡ is_clock key.now }
{
    match key {
        Key::Object(_, _) => false,
        Key::Clock(_) => true,
    }
}

/// Whether a rule of a question has a series.
fn has_series(rules: &Rules, question: &Question) -> bool
    ensures value { result ≡ list_any
        (λ rule. list_any (λ action. is_series action.what) (rule_actions rule))
        (asked_rules rules.now question.now) }
{
    for number in 0..rules.rules.len() {
        if asked_has_series(rules, question, number) {
            return true;
        }
    }
    false
}

/// Whether a rule is a question's and has a series.
fn asked_has_series(rules: &Rules, question: &Question, number: usize) -> bool
    ensures value { result ≡ (is_asked rules.now question.now number
        && rule_has_series (slice_get rules.now.rules number)) }
{
    if !is_asked(rules, question, number) {
        return false;
    }
    rule_has_series(rules, number)
}

/// Whether a rule has a series.
#[tactic(auto, using(crate::proofs::Additions::either_list))]
fn rule_has_series(rules: &Rules, number: usize) -> bool
    ensures value { result ≡ rule_has_series (slice_get rules.now.rules number) }
{
    match rules.rules.get(number) {
        Some(rule) => {
            actions_have_series(rule.then_actions.as_slice())
                | actions_have_series(rule.else_actions.as_slice())
        }
        None => false,
    }
}

/// Whether one of some actions is a series.
fn actions_have_series(actions: &[Action]) -> bool
    ensures value { result ≡ list_any (λ action. is_series action.what) actions.now }
{
    let mut rest = actions;
    'actions: while let Some((action, more)) = rest.split_first() {
        if is_series(&action.what) {
            return true;
        }
        rest = more;
    }
    false
}

/// Whether an action is a series.
fn is_series(what: &What) -> bool
    ensures value { result ≡ is_series what.now }
{
    match what {
        What::Constant(_) => false,
        What::Curve(_) => false,
        What::Series(_) => true,
        What::Pid(_, _) => false,
    }
}
