//! The keys that conditions read, by themselves or through a name (SWMM 5.2 manual, [CONTROLS]).
ghost use Rattle.std.specs.Prelude.{[], ◌∷◌, OnOk};
ghost use Rattle.std.specs.List.{flat_map};
ghost use Rattle.rule_types.specs.Formulas.{formula_names};
ghost use Rattle.rule_types.specs.Reading.{condition_reads, name_keys, right_keys, variable_keys};
ghost use Rattle.question_boxes.specs.internal.KeyLists.{Adds};

use byte_edge::NoMemory;
use list_types::Boxed;
use rule_types::{Condition, Expr, Key, NameDef, NameKind, Right, Side};

/// Keys, in the order in which they are read.
#[derive(Drop)]
pub(crate) struct KeyList {
    pub(crate) keys: Vec<Key>,
}

impl KeyList {
    /// Adds what conditions read.
    pub(crate) fn conditions(
        &mut self,
        names: &[NameDef],
        conditions: &[Condition],
    ) -> Result<(), NoMemory>
        ensures adds { OnOk result (Adds self.old self.new
            (flat_map (condition_reads names.now) conditions.now)) }
    {
        for condition in conditions {
            self.condition(names, condition)?;
        }
        Ok(())
    }

    /// Adds what a condition reads.
    #[tactic(auto, using(crate::proofs::Additions::additions))]
    fn condition(&mut self, names: &[NameDef], condition: &Condition) -> Result<(), NoMemory>
        ensures adds { OnOk result (Adds self.old self.new
            (condition_reads names.now condition.now)) }
    {
        if let Side::Key(key) = &condition.left {
            self.key(key)?;
        }
        self.right(&condition.right)?;
        if let Side::Expr(name) = &condition.left {
            self.name(names, *name)?;
        }
        Ok(())
    }

    /// Adds what a right side reads by itself.
    #[tactic(auto, using(crate::proofs::Additions::additions))]
    fn right(&mut self, right: &Right) -> Result<(), NoMemory>
        ensures adds { OnOk result (Adds self.old self.new (right_keys right.now)) }
    {
        match right {
            Right::Key(key) => self.key(key),
            Right::Value(_) => Ok(()),
        }
    }

    /// Adds what a name reads: a variable its key, an expression those of its variables.
    #[tactic(auto, using(crate::proofs::Additions::additions))]
    fn name(&mut self, names: &[NameDef], name: u32) -> Result<(), NoMemory>
        ensures adds { OnOk result (Adds self.old self.new (name_keys names.now name)) }
    {
        self.variable(names, name)?;
        match names.get(name as usize) {
            Some(named) => match &named.stands_for {
                NameKind::Variable(_) => Ok(()),
                NameKind::Formula(formula) => self.formula(names, formula),
            },
            None => Ok(()),
        }
    }

    /// Adds the key of a variable.
    #[tactic(auto, using(crate::proofs::Additions::additions))]
    fn variable(&mut self, names: &[NameDef], name: u32) -> Result<(), NoMemory>
        ensures adds { OnOk result (Adds self.old self.new (variable_keys names.now name)) }
    {
        match names.get(name as usize) {
            Some(named) => match &named.stands_for {
                NameKind::Variable(key) => self.key(key),
                NameKind::Formula(_) => Ok(()),
            },
            None => Ok(()),
        }
    }

    /// Adds the keys of the variables of a formula.
    #[cycle(formula)]
    fn formula(&mut self, names: &[NameDef], formula: &Expr) -> Result<(), NoMemory>
        ensures adds { OnOk result (Adds self.old self.new
            (flat_map (variable_keys names.now) (formula_names formula.now))) }
    {
        match formula {
            Expr::Number(_) => Ok(()),
            Expr::Name(name) => self.variable(names, *name),
            Expr::Neg(a) => self.operand(names, a),
            Expr::Abs(a) => self.operand(names, a),
            Expr::Sgn(a) => self.operand(names, a),
            Expr::Step(a) => self.operand(names, a),
            Expr::Add(a, b) => {
                self.operand(names, a)?;
                self.operand(names, b)
            }
            Expr::Sub(a, b) => {
                self.operand(names, a)?;
                self.operand(names, b)
            }
            Expr::Mul(a, b) => {
                self.operand(names, a)?;
                self.operand(names, b)
            }
            Expr::Div(a, b) => {
                self.operand(names, a)?;
                self.operand(names, b)
            }
            Expr::Pow(a, _) => self.operand(names, a),
        }
    }

    /// Adds the keys of the variables of an operand.
    #[cycle(formula)]
    fn operand(&mut self, names: &[NameDef], operand: &Boxed<Expr>) -> Result<(), NoMemory>
        ensures adds { OnOk result (Adds self.old self.new
            (flat_map (variable_keys names.now) (formula_names operand.now))) }
    {
        self.formula(names, operand.get())
    }

    /// Adds a key.
    pub(crate) fn key(&mut self, key: &Key) -> Result<(), NoMemory>
        ensures adds { OnOk result (Adds self.old self.new (key.now ∷ [])) }
    {
        self.keys.push(*key)?;
        Ok(())
    }
}
