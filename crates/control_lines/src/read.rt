//! Control lines by their forms.
ghost use Rattle.std.specs.Prelude.{◌≡◌, option_map};
ghost use Rattle.control_lines.specs.Statements.{variable_by, expression_by, condition_by};
ghost use Rattle.control_lines.specs.Statements.{action_by, and_by, target_of, is_acted_on};
ghost use Rattle.control_lines.specs.Statements.{single as one_item, statement_by, statement_of};
ghost use Rattle.control_lines.specs.Statements.{Head, Priority};
ghost use Rattle.control_lines.specs.Clauses.{is_premise};
ghost use Rattle.key_words.specs.Words.{object_word};
ghost use Rattle.control_lines.specs.Views.{statement_now, attribute_now, texts};

use crate::clause::Stage;
use crate::parts::{key, past_equals, relation, side, single, value};
use crate::statement::{
    ActionText, ActionWord, ConditionText, ConditionWord, ObjectAttribute, Statement,
};
use key_words::read_object_word;
use rule_types::ObjectWord;

/// What the items of a control line say, at the stage before it: None exactly where they have none
/// of the forms of control lines. An AND behind a condition is read as a condition; elsewhere it is
/// read as an action where it has that form, and else as a condition. It takes no memory, and time
/// in proportion to the items (SWMM 5.2 manual, [CONTROLS]).
#[tactic(auto, unfolding(crate::specs::Statements::statement_of))]
pub fn read_statement<'a>(stage: Stage, items: &'a [&'a [u8]]) -> Option<Statement<'a>>
    ensures value { option_map statement_now result ≡ statement_of stage (texts items.now) }
{
    let [word, later @ ..] = items else {
        return None;
    };
    line(stage, word, later)
}

/// The line that begins with a word.
#[tactic(auto, unfolding(crate::specs::Statements::statement_by))]
fn line<'a>(stage: Stage, word: &'a [u8], later: &'a [&'a [u8]]) -> Option<Statement<'a>>
    ensures { option_map statement_now result ≡ statement_by stage word.now (texts later.now) }
{
    if word.eq_ignore_ascii_case(b"VARIABLE") {
        return variable(later);
    }
    if word.eq_ignore_ascii_case(b"EXPRESSION") {
        return expression(later);
    }
    if word.eq_ignore_ascii_case(b"RULE") {
        return head(later);
    }
    if word.eq_ignore_ascii_case(b"IF") {
        return condition(ConditionWord::If, later);
    }
    if word.eq_ignore_ascii_case(b"OR") {
        return condition(ConditionWord::Or, later);
    }
    if word.eq_ignore_ascii_case(b"AND") {
        return joined(stage, later);
    }
    if word.eq_ignore_ascii_case(b"THEN") {
        return action(ActionWord::Then, later);
    }
    if word.eq_ignore_ascii_case(b"ELSE") {
        return action(ActionWord::Else, later);
    }
    if word.eq_ignore_ascii_case(b"PRIORITY") {
        return priority(later);
    }
    None
}

/// VARIABLE, behind this word.
#[tactic(auto, unfolding(crate::specs::Statements::variable_by))]
fn variable<'a>(items: &'a [&'a [u8]]) -> Option<Statement<'a>>
    ensures { option_map statement_now result ≡ variable_by (texts items.now) }
{
    let [name, later @ ..] = items else {
        return None;
    };
    let cut = key(past_equals(later)?)?;
    if cut.rest.is_empty() {
        Some(Statement::Variable(name, cut.key))
    } else {
        None
    }
}

/// EXPRESSION, behind this word.
#[tactic(auto, unfolding(crate::specs::Statements::expression_by))]
fn expression<'a>(items: &'a [&'a [u8]]) -> Option<Statement<'a>>
    ensures { option_map statement_now result ≡ expression_by (texts items.now) }
{
    let [name, later @ ..] = items else {
        return None;
    };
    let formula = past_equals(later)?;
    if formula.is_empty() {
        None
    } else {
        Some(Statement::Expression(name, formula))
    }
}

/// RULE, behind this word.
fn head<'a>(items: &'a [&'a [u8]]) -> Option<Statement<'a>>
    ensures { option_map statement_now result ≡ option_map Head (one_item (texts items.now)) }
{
    let id = single(items)?;
    Some(Statement::Head(id))
}

/// PRIORITY, behind this word.
fn priority<'a>(items: &'a [&'a [u8]]) -> Option<Statement<'a>>
    ensures { option_map statement_now result ≡ option_map Priority (one_item (texts items.now)) }
{
    let number = single(items)?;
    Some(Statement::Priority(number))
}

/// A condition, behind its word.
#[tactic(auto, unfolding(crate::specs::Statements::condition_by))]
fn condition<'a>(word: ConditionWord, items: &'a [&'a [u8]]) -> Option<Statement<'a>>
    ensures { option_map statement_now result ≡ condition_by word (texts items.now) }
{
    let left = side(items)?;
    let sign = relation(left.rest)?;
    let right = side(sign.rest)?;
    if right.rest.is_empty() {
        Some(Statement::Condition(ConditionText {
            word,
            left: left.side,
            relation: sign.relation,
            right: right.side,
        }))
    } else {
        None
    }
}

/// An action, behind its word.
#[tactic(auto, unfolding(crate::specs::Statements::action_by))]
fn action<'a>(word: ActionWord, items: &'a [&'a [u8]]) -> Option<Statement<'a>>
    ensures { option_map statement_now result ≡ action_by word (texts items.now) }
{
    let [object, name, attribute, later @ ..] = items else {
        return None;
    };
    let target = target(object, name, attribute)?;
    let value = value(past_equals(later)?)?;
    Some(Statement::Action(ActionText {
        word,
        target,
        value,
    }))
}

/// The target of an action.
fn target<'a>(object: &'a [u8], name: &'a [u8], attribute: &'a [u8]) -> Option<ObjectAttribute<'a>>
    ensures { option_map attribute_now result
        ≡ target_of (object_word object.now) name.now attribute.now }
{
    let word = read_object_word(object)?;
    if acts_on(word) {
        Some(ObjectAttribute {
            word,
            name,
            attribute,
        })
    } else {
        None
    }
}

/// Whether an action may begin with the word of an object.
fn acts_on(word: ObjectWord) -> bool
    ensures { result ≡ is_acted_on word }
{
    !matches!(word, ObjectWord::Gage | ObjectWord::Node | ObjectWord::Link)
}

/// AND, behind this word.
fn joined<'a>(stage: Stage, items: &'a [&'a [u8]]) -> Option<Statement<'a>>
    ensures { option_map statement_now result ≡ and_by (is_premise stage) (texts items.now) }
{
    if stage.is_premise() {
        return condition(ConditionWord::And, items);
    }
    let found = action(ActionWord::And, items);
    if found.is_some() {
        return found;
    }
    condition(ConditionWord::And, items)
}
