//! Marks of the names that rules use.
ghost use Rattle.std.specs.Prelude.{◌≡◌, ◌<◌, ◌∷◌, [], false, length, replicate, slice_get, All};
ghost use Rattle.std.specs.Option.{option_copied};
ghost use Rattle.rule_types.specs.Formulas.{formula_names};
ghost use Rattle.rule_types.specs.Reading.{kind_names};
ghost use Rattle.rule_meaning.specs.SomeRules.{rules_at};
ghost use Rattle.premise_eval.specs.Kept.{MarksUsed};
ghost use Rattle.premise_eval.specs.internal.Marks.{MarksNames, name_uses, uses_of, rule_uses};

use rule_types::{Condition, Expr, NameDef, NameKind, Rule, Rules, Side};

/// Marks the names that the rules use, and no other.
pub(crate) fn mark_all(rules: &Rules, marks: &mut [bool])
    requires each { length marks.old ≡ length rules.now.names }
    ensures marks { MarksUsed rules.now rules.now.rules marks.new }
{
    clear(marks);
    let names = rules.names.as_slice();
    for rule in rules.rules.as_slice() {
        mark_rule(names, rule, marks);
    }
}

/// Marks the names that the rules of some numbers use, and no other.
pub(crate) fn mark_some(rules: &Rules, only: &[u32], marks: &mut [bool])
    requires each { length marks.old ≡ length rules.now.names }
    requires exist { All (λ number. number < length rules.now.rules) only.now }
    ensures marks { MarksUsed rules.now (rules_at rules.now.rules only.now) marks.new }
{
    clear(marks);
    let names = rules.names.as_slice();
    let all = rules.rules.as_slice();
    for number in only {
        mark_rule(names, &all[*number as usize], marks);
    }
}

/// Takes all marks away.
fn clear(marks: &mut [bool])
    ensures { marks.new ≡ replicate (length marks.old) false }
{
    marks.fill(false);
}

/// Marks the names that a rule uses.
fn mark_rule(names: &[NameDef], rule: &Rule, marks: &mut [bool])
    ensures marks { MarksNames (rule_uses names.now rule.now) marks.old marks.new }
{
    for condition in rule.conditions.as_slice() {
        mark_condition(names, condition, marks);
    }
}

/// Marks the name on the left side of a condition, and the names in its expression.
fn mark_condition(names: &[NameDef], condition: &Condition, marks: &mut [bool])
    ensures marks { MarksNames (uses_of names.now condition.now) marks.old marks.new }
{
    match &condition.left {
        Side::Expr(name) => mark_name(names, *name, marks),
        Side::Key(_) => {}
    }
}

/// Marks a name, and the names in its expression.
fn mark_name(names: &[NameDef], name: u32, marks: &mut [bool])
    ensures marks { MarksNames (name_uses names.now name) marks.old marks.new }
{
    mark(marks, name);
    match name_at(names, name) {
        Some(named) => mark_kind(&named.stands_for, marks),
        None => {}
    }
}

/// The name of a number.
fn name_at(names: &[NameDef], name: u32) -> Option<&NameDef>
    ensures value { option_copied result ≡ slice_get names.now name }
{
    names.get(name as usize)
}

/// Marks the names in what a name stands for.
fn mark_kind(kind: &NameKind, marks: &mut [bool])
    ensures marks { MarksNames (kind_names kind.now) marks.old marks.new }
{
    match kind {
        NameKind::Variable(_) => {}
        NameKind::Formula(formula) => mark_formula(formula, marks),
    }
}

/// Marks the names in a formula.
fn mark_formula(formula: &Expr, marks: &mut [bool])
    ensures marks { MarksNames (formula_names formula.now) marks.old marks.new }
{
    match formula {
        Expr::Number(_) => {}
        Expr::Name(name) => mark(marks, *name),
        Expr::Neg(a) => mark_formula(a.get(), marks),
        Expr::Abs(a) => mark_formula(a.get(), marks),
        Expr::Sgn(a) => mark_formula(a.get(), marks),
        Expr::Step(a) => mark_formula(a.get(), marks),
        Expr::Add(a, b) => {
            mark_formula(a.get(), marks);
            mark_formula(b.get(), marks);
        }
        Expr::Sub(a, b) => {
            mark_formula(a.get(), marks);
            mark_formula(b.get(), marks);
        }
        Expr::Mul(a, b) => {
            mark_formula(a.get(), marks);
            mark_formula(b.get(), marks);
        }
        Expr::Div(a, b) => {
            mark_formula(a.get(), marks);
            mark_formula(b.get(), marks);
        }
        Expr::Pow(a, _) => mark_formula(a.get(), marks),
    }
}

/// Marks one name, where it is there.
fn mark(marks: &mut [bool], name: u32)
    ensures marks { MarksNames (name ∷ []) marks.old marks.new }
{
    let at = name as usize;
    if at < marks.len() {
        marks[at] = true;
    }
}
