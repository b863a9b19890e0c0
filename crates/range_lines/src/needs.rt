//! What rules need of a ranges file.
ghost use Rattle.std.specs.Prelude.{◌≡◌, [], ◌∷◌, IfOk, None, Some, slice_get};
ghost use Rattle.std.specs.List.{flat_map, list_any};
ghost use Rattle.rule_types.specs.Formulas.{formula_names};
ghost use Rattle.rule_types.specs.Reading.{right_keys, condition_reads, keys_read};
ghost use Rattle.rule_types.specs.Reading.{variable_keys, name_keys, rule_actions};
ghost use Rattle.range_lines.specs.Needs.{earlier_key as earlier, is_missing as is_wanting};
ghost use Rattle.range_lines.specs.Needs.{first_missing as first_wanting, is_series as has_series_in};
ghost use Rattle.range_lines.specs.Needs.{has_series as have_series};
ghost use Rattle.range_lines.specs.internal.Views.{first_of, kind_keys, name_finds, held_or};
ghost use Rattle.range_lines.specs.internal.Views.{earlier_of as first_of_two};

use crate::given::Given;
use byte_edge::NoMemory;
use list_types::Boxed;
use rule_types::{
    Action, Attr, Condition, Expr, Key, NameDef, NameKind, Right, Rule, Rules, Side, What,
};
use std::alloc::Global;

/// The first key in key order that rules read and that is not given what it needs. It takes time in
/// proportion to the rules and their names, and for each key that these have one look-up.
#[tactic(auto, unfolding(crate::specs::Needs::first_missing))]
pub(crate) fn first_missing(
    alloc: Global,
    rules: &Rules,
    given: &Given,
) -> Result<Option<Key>, NoMemory>
    ensures { IfOk result (λ key. key ≡ first_wanting rules.now given.now) }
{
    let names = rules.names.as_slice();
    let finds = find_by_name(alloc, given, names)?;
    Ok(of_rules(given, names, finds.as_slice(), rules.rules.as_slice()))
}

/// For each name the first key that it reads and that is not given what it needs.
fn find_by_name(
    alloc: Global,
    given: &Given,
    names: &[NameDef],
) -> Result<Vec<Option<Key>>, NoMemory>
    ensures { IfOk result (λ finds. finds.items ≡ name_finds given.now names.now names.now) }
{
    let mut finds = Vec::new(alloc);
    for named in names {
        let Ok(()) = finds.push(of_kind(given, names, &named.stands_for)) else {
            return Err(NoMemory);
        };
    }
    Ok(finds)
}

/// The first of the keys that a name of this kind reads.
fn of_kind(given: &Given, names: &[NameDef], kind: &NameKind) -> Option<Key>
    ensures { result ≡ first_of given.now None (kind_keys names.now kind.now) }
{
    match kind {
        NameKind::Variable(key) => after_key(given, None, key),
        NameKind::Formula(formula) => after_formula(given, names, None, formula),
    }
}

/// The first of what was found before and of a key.
fn after_key(given: &Given, found: Option<Key>, key: &Key) -> Option<Key>
    ensures { result ≡ first_of given.now found (key.now ∷ []) }
{
    if is_missing(given, key) {
        Some(earlier_key(found, *key))
    } else {
        found
    }
}

/// The first of two keys, in key order.
fn earlier_key(found: Option<Key>, key: Key) -> Key
    ensures { Some result ≡ earlier found key }
{
    match found {
        Some(before) => { if key < before { key } else { before } }
        None => key,
    }
}

/// Whether a key that rules read is not given what it needs.
fn is_missing(given: &Given, key: &Key) -> bool
    ensures { result ≡ is_wanting given.now key.now }
{
    match key {
        Key::Clock(_) => given.moments.is_none(),
        Key::Object(_, Attr::Setting | Attr::Status) => false,
        Key::Object(_, _) => !given.ranges.has(key),
    }
}

/// The first of what was found before and of the keys of the variables of a formula.
#[cycle(formula)]
fn after_formula(
    given: &Given,
    names: &[NameDef],
    found: Option<Key>,
    formula: &Expr,
) -> Option<Key>
    ensures { result ≡ first_of given.now found
        (flat_map (variable_keys names.now) (formula_names formula.now)) }
{
    match formula {
        Expr::Number(_) => found,
        Expr::Name(name) => after_variable(given, names, found, *name),
        Expr::Neg(a) => after_operand(given, names, found, a),
        Expr::Abs(a) => after_operand(given, names, found, a),
        Expr::Sgn(a) => after_operand(given, names, found, a),
        Expr::Step(a) => after_operand(given, names, found, a),
        Expr::Add(a, b) => {
            let first = after_operand(given, names, found, a);
            after_operand(given, names, first, b)
        }
        Expr::Sub(a, b) => {
            let first = after_operand(given, names, found, a);
            after_operand(given, names, first, b)
        }
        Expr::Mul(a, b) => {
            let first = after_operand(given, names, found, a);
            after_operand(given, names, first, b)
        }
        Expr::Div(a, b) => {
            let first = after_operand(given, names, found, a);
            after_operand(given, names, first, b)
        }
        Expr::Pow(a, _) => after_operand(given, names, found, a),
    }
}

/// The first of what was found before and of the keys of the variables of an operand.
#[cycle(formula)]
fn after_operand(
    given: &Given,
    names: &[NameDef],
    found: Option<Key>,
    operand: &Boxed<Expr>,
) -> Option<Key>
    ensures { result ≡ first_of given.now found
        (flat_map (variable_keys names.now) (formula_names operand.now)) }
{
    after_formula(given, names, found, operand.get())
}

/// The first of what was found before and of the key of a variable.
fn after_variable(given: &Given, names: &[NameDef], found: Option<Key>, name: u32) -> Option<Key>
    ensures { result ≡ first_of given.now found (variable_keys names.now name) }
{
    match names.get(name as usize) {
        Some(named) => match &named.stands_for {
            NameKind::Variable(key) => after_key(given, found, key),
            NameKind::Formula(_) => found,
        },
        None => found,
    }
}

/// The first of the keys that rules read.
fn of_rules(given: &Given, names: &[NameDef], finds: &[Option<Key>], rules: &[Rule]) -> Option<Key>
    requires finds { finds.now ≡ name_finds given.now names.now names.now }
    ensures { result ≡ first_of given.now None (keys_read names.now rules.now) }
{
    let mut found = None;
    for rule in rules {
        found = after_conditions(given, names, finds, found, rule.conditions.as_slice());
    }
    found
}

/// The first of what was found before and of the keys that conditions read.
fn after_conditions(
    given: &Given,
    names: &[NameDef],
    finds: &[Option<Key>],
    found: Option<Key>,
    conditions: &[Condition],
) -> Option<Key>
    requires finds { finds.now ≡ name_finds given.now names.now names.now }
    ensures { result ≡ first_of given.now found
        (flat_map (condition_reads names.now) conditions.now) }
{
    let mut first = found;
    for condition in conditions {
        first = after_condition(given, names, finds, first, condition);
    }
    first
}

/// The first of what was found before and of the keys that a condition reads.
fn after_condition(
    given: &Given,
    names: &[NameDef],
    finds: &[Option<Key>],
    found: Option<Key>,
    condition: &Condition,
) -> Option<Key>
    requires finds { finds.now ≡ name_finds given.now names.now names.now }
    ensures { result ≡ first_of given.now found (condition_reads names.now condition.now) }
{
    match &condition.left {
        Side::Key(key) => after_right(given, after_key(given, found, key), &condition.right),
        Side::Expr(name) => {
            let first = after_right(given, found, &condition.right);
            after_name(given, names, finds, first, *name)
        }
    }
}

/// The first of what was found before and of the key of a right side.
fn after_right(given: &Given, found: Option<Key>, right: &Right) -> Option<Key>
    ensures { result ≡ first_of given.now found (right_keys right.now) }
{
    match right {
        Right::Key(key) => after_key(given, found, key),
        Right::Value(_) => found,
    }
}

/// The first of what was found before and of what was found for a name.
fn after_name(
    given: &Given,
    names: &[NameDef],
    finds: &[Option<Key>],
    found: Option<Key>,
    name: u32,
) -> Option<Key>
    requires finds { finds.now ≡ name_finds given.now names.now names.now }
    ensures { result ≡ first_of given.now found (flat_map (name_keys names.now) (name ∷ [])) }
{
    earlier_of(found, held_at(finds, name))
}

/// What was found for a name.
fn held_at(finds: &[Option<Key>], name: u32) -> Option<Key>
    ensures { result ≡ held_or (slice_get finds.now name) }
{
    match finds.get(name as usize) {
        Some(found) => *found,
        None => None,
    }
}

/// The first of two finds.
fn earlier_of(found: Option<Key>, other: Option<Key>) -> Option<Key>
    ensures { result ≡ first_of_two found other }
{
    match other {
        Some(key) => Some(earlier_key(found, key)),
        None => found,
    }
}

/// Whether an action of rules is a series.
#[tactic(auto, unfolding(crate::specs::Needs::has_series))]
pub(crate) fn has_series(rules: &[Rule]) -> bool
    ensures { result ≡ have_series rules.now }
{
    for rule in rules {
        if rule_has_series(rule) {
            return true;
        }
    }
    false
}

/// Whether an action of a rule is a series.
fn rule_has_series(rule: &Rule) -> bool
    ensures { result ≡ list_any (λ action. has_series_in action.what) (rule_actions rule.now) }
{
    any_series(rule.then_actions.as_slice()) || any_series(rule.else_actions.as_slice())
}

/// Whether some action is a series.
fn any_series(actions: &[Action]) -> bool
    ensures { result ≡ list_any (λ action. has_series_in action.what) actions.now }
{
    for action in actions {
        if matches!(&action.what, What::Series(_)) {
            return true;
        }
    }
    false
}
