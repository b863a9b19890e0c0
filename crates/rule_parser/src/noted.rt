//! The links that rules act on, and the keys and links that they read.
ghost use Rattle.std.specs.Prelude.{◌≡◌, [], ◌∷◌, IfOk, OnOk};
ghost use Rattle.std.specs.List.{flat_map};
ghost use Rattle.rule_types.specs.Formulas.{formula_names};
ghost use Rattle.rule_types.specs.Reading.{right_keys, condition_keys, condition_reads, keys_read};
ghost use Rattle.rule_types.specs.Reading.{variable_keys, name_keys, links_acted as acted_on};
ghost use Rattle.rule_parser.specs.Projects.{keys_with, links_with};
ghost use Rattle.rule_parser.specs.internal.Noting.{Notes, NamesNoted};
ghost use Rattle.rule_parser.specs.internal.Views.{action_links};

use byte_edge::NoMemory;
use list_types::Boxed;
use rule_types::{Action, Attr, Condition, Expr, Key, NameDef, NameKind, Right, Rule, Side};
use std::alloc::Global;
use std::collections::BTreeSet;

/// The links that rules act on.
pub(crate) fn links_acted(alloc: Global, rules: &[Rule]) -> Result<BTreeSet<u32>, NoMemory>
    ensures { IfOk result (λ found. found.keys ≡ links_with [] (acted_on rules.now)) }
{
    let mut found = BTreeSet::new(alloc);
    for rule in rules {
        add_links(&mut found, rule.then_actions.as_slice())?;
        add_links(&mut found, rule.else_actions.as_slice())?;
    }
    Ok(found)
}

/// Adds the links of some actions.
fn add_links(found: &mut BTreeSet<u32>, actions: &[Action]) -> Result<(), NoMemory>
    ensures { OnOk result (found.new.keys ≡ links_with found.old.keys (action_links actions.now)) }
{
    for action in actions {
        add_link(found, action.link)?;
    }
    Ok(())
}

/// Adds a link.
fn add_link(found: &mut BTreeSet<u32>, link: u32) -> Result<(), NoMemory>
    ensures { OnOk result (found.new.keys ≡ links_with found.old.keys (link ∷ [])) }
{
    match found.insert(link) {
        Ok(_) => Ok(()),
        Err(_) => Err(NoMemory),
    }
}

/// The keys that are read from the trace, and the links that are tracked.
#[derive(Drop)]
pub(crate) struct Noted {
    pub(crate) keys: BTreeSet<Key>,
    pub(crate) links: BTreeSet<u32>,
}

impl Noted {
    /// Notes what rules read, in time in proportion to their conditions and to the formulas of the
    /// names that they read, with an insertion into an ordered set for each key.
    pub(crate) fn rules(
        &mut self,
        alloc: Global,
        names: &[NameDef],
        rules: &[Rule],
    ) -> Result<(), NoMemory>
        ensures { OnOk result (Notes self.old self.new (keys_read names.now rules.now)) }
    {
        let mut seen = BTreeSet::new(alloc);
        for rule in rules {
            self.conditions(names, &mut seen, rule.conditions.as_slice())?;
        }
        Ok(())
    }

    /// Notes what conditions read, where `seen` has the names that are noted.
    fn conditions(
        &mut self,
        names: &[NameDef],
        seen: &mut BTreeSet<u32>,
        conditions: &[Condition],
    ) -> Result<(), NoMemory>
        requires seen { NamesNoted names.now self.old seen.old.keys }
        ensures reads { OnOk result (Notes self.old self.new
            (flat_map (condition_reads names.now) conditions.now)) }
        ensures seen { OnOk result (NamesNoted names.now self.new seen.new.keys) }
    {
        for condition in conditions {
            self.condition(names, seen, condition)?;
        }
        Ok(())
    }

    /// Notes what a condition reads, where `seen` has the names that are noted.
    fn condition(
        &mut self,
        names: &[NameDef],
        seen: &mut BTreeSet<u32>,
        condition: &Condition,
    ) -> Result<(), NoMemory>
        requires seen { NamesNoted names.now self.old seen.old.keys }
        ensures reads { OnOk result (Notes self.old self.new
            (condition_reads names.now condition.now)) }
        ensures seen { OnOk result (NamesNoted names.now self.new seen.new.keys) }
    {
        self.sides(condition)?;
        match &condition.left {
            Side::Key(_) => Ok(()),
            Side::Expr(name) => self.name(names, seen, *name),
        }
    }

    /// Notes what the sides of a condition read by themselves.
    #[tactic(auto, using(crate::proofs::Sums::notes_steps))]
    fn sides(&mut self, condition: &Condition) -> Result<(), NoMemory>
        ensures { OnOk result (Notes self.old self.new (condition_keys condition.now)) }
    {
        if let Side::Key(key) = &condition.left {
            self.key(key)?;
        }
        self.right(&condition.right)
    }

    /// Notes what a right side reads by itself.
    fn right(&mut self, right: &Right) -> Result<(), NoMemory>
        ensures { OnOk result (Notes self.old self.new (right_keys right.now)) }
    {
        match right {
            Right::Key(key) => self.key(key),
            Right::Value(_) => Ok(()),
        }
    }

    /// Notes what a name reads, where `seen` has the names that are noted: to note one of these
    /// again changes nothing, so the formula of a name is gone through once.
    fn name(
        &mut self,
        names: &[NameDef],
        seen: &mut BTreeSet<u32>,
        name: u32,
    ) -> Result<(), NoMemory>
        requires seen { NamesNoted names.now self.old seen.old.keys }
        ensures reads { OnOk result (Notes self.old self.new (name_keys names.now name)) }
        ensures seen { OnOk result (NamesNoted names.now self.new seen.new.keys) }
    {
        if seen.contains(&name) {
            return Ok(());
        }
        self.new_name(names, name)?;
        match seen.insert(name) {
            Ok(_) => Ok(()),
            Err(_) => Err(NoMemory),
        }
    }

    /// Notes what a name reads: a variable its key, an expression those of its variables.
    #[tactic(auto, using(crate::proofs::Sums::notes_steps))]
    fn new_name(&mut self, names: &[NameDef], name: u32) -> Result<(), NoMemory>
        ensures { OnOk result (Notes self.old self.new (name_keys names.now name)) }
    {
        self.variable(names, name)?;
        match names.get(name as usize) {
            Some(named) => match &named.stands_for {
                NameKind::Variable(_) => Ok(()),
                NameKind::Formula(formula) => self.formula(names, formula),
            },
            None => Ok(()),
        }
    }

    /// Notes the key of a variable.
    fn variable(&mut self, names: &[NameDef], name: u32) -> Result<(), NoMemory>
        ensures { OnOk result (Notes self.old self.new (variable_keys names.now name)) }
    {
        match names.get(name as usize) {
            Some(named) => match &named.stands_for {
                NameKind::Variable(key) => self.key(key),
                NameKind::Formula(_) => Ok(()),
            },
            None => Ok(()),
        }
    }

    /// Notes the keys of the variables of a formula.
    #[cycle(formula)]
    fn formula(&mut self, names: &[NameDef], formula: &Expr) -> Result<(), NoMemory>
        ensures { OnOk result (Notes self.old self.new
            (flat_map (variable_keys names.now) (formula_names formula.now))) }
    {
        match formula {
            Expr::Number(_) => Ok(()),
            Expr::Name(name) => self.variable(names, *name),
            Expr::Neg(a) => self.operand(names, a),
            Expr::Abs(a) => self.operand(names, a),
            Expr::Sgn(a) => self.operand(names, a),
            Expr::Step(a) => self.operand(names, a),
            Expr::Add(a, b) => {
                self.operand(names, a)?;
                self.operand(names, b)
            }
            Expr::Sub(a, b) => {
                self.operand(names, a)?;
                self.operand(names, b)
            }
            Expr::Mul(a, b) => {
                self.operand(names, a)?;
                self.operand(names, b)
            }
            Expr::Div(a, b) => {
                self.operand(names, a)?;
                self.operand(names, b)
            }
            Expr::Pow(a, _) => self.operand(names, a),
        }
    }

    /// Notes the keys of the variables of an operand.
    #[cycle(formula)]
    fn operand(&mut self, names: &[NameDef], operand: &Boxed<Expr>) -> Result<(), NoMemory>
        ensures { OnOk result (Notes self.old self.new
            (flat_map (variable_keys names.now) (formula_names operand.now))) }
    {
        self.formula(names, operand.get())
    }

    /// Notes a key: one that the trace gives, or one that reads a link's setting.
    fn key(&mut self, key: &Key) -> Result<(), NoMemory>
        ensures { OnOk result (Notes self.old self.new (key.now ∷ [])) }
    {
        match key {
            Key::Clock(_) => Ok(()),
            Key::Object(object, attribute) => match attribute {
                Attr::Setting | Attr::Status | Attr::TimeOpen | Attr::TimeClosed => {
                    add_link(&mut self.links, object.index)
                }
                _ => self.input(key),
            },
        }
    }

    /// Notes a key that the trace gives.
    fn input(&mut self, key: &Key) -> Result<(), NoMemory>
        ensures keys { OnOk result (self.new.keys.keys
            ≡ keys_with self.old.keys.keys (key.now ∷ [])) }
        ensures links { self.new.links.keys ≡ self.old.links.keys }
    {
        match self.keys.insert(*key) {
            Ok(_) => Ok(()),
            Err(_) => Err(NoMemory),
        }
    }
}
