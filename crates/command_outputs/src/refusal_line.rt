//! The finished line of a refusal.
ghost use Rattle.std.specs.Prelude.{◌≡◌, ◌++◌, IsTrue, IfOk, OnOk};
ghost use Rattle.command_outputs.specs.Messages.{is_cause, IsRefusal, fault_line, cause_text};
ghost use Rattle.command_outputs.specs.Messages.{token_part, action_text};
ghost use Rattle.command_outputs.specs.Messages.{stop_in_name_line, stop_in_rule_line};

use crate::place::{BranchWord, Place, StopWord, push_numbered, push_words};
use byte_edge::NoMemory;
use std::alloc::Global;
use std::marker::Model;

/// The finished line of a refusal. It is one of the defined lines, and saying it takes no memory.
#[derive(Drop)]
pub struct RefusalLine {
    bytes: Vec<u8>,
}

impl Model for RefusalLine {
    ghost use Rattle.std.specs.Prelude.{ℕ, List};
    ghost use Rattle.command_outputs.specs.Messages.{IsRefusal};

    ghost Value = { List ℕ };

    ghost view = { λ line. line.bytes.items };

    ghost invariant = { λ line. IsRefusal line.bytes.items };
}

impl RefusalLine {
    /// The line of a cause at its place, and of its token, where that is not empty: as
    /// `error: input line 9: ClauseOrder (8): IF`. The cause, its name and its number, is one of
    /// those of the place.
    pub fn fault(
        alloc: Global,
        place: Place,
        name: &[u8],
        number: u8,
        token: &[u8],
    ) -> Result<RefusalLine, NoMemory>
        requires cause { IsTrue (is_cause place name.now number) }
        ensures value { IfOk result (λ line. line ≡ fault_line place name.now number token.now) }
    {
        let mut bytes = Vec::new(alloc);
        push_words(&mut bytes, b"error: ")?;
        place.push_to(alloc, &mut bytes)?;
        push_words(&mut bytes, b": ")?;
        push_cause(alloc, &mut bytes, name, number)?;
        push_token(&mut bytes, token)?;
        push_words(&mut bytes, b"\n")?;
        Ok(RefusalLine { bytes })
    }

    /// The line of a row of the trace that stops at a name.
    pub fn stop_in_name(
        alloc: Global,
        line: u64,
        cause: StopWord,
        name: &[u8],
    ) -> Result<RefusalLine, NoMemory>
        ensures value { IfOk result (λ text. text ≡ stop_in_name_line line cause name.now) }
    {
        let mut bytes = Vec::new(alloc);
        push_numbered(alloc, &mut bytes, b"error: trace line ", line)?;
        push_words(&mut bytes, b": ")?;
        push_words(&mut bytes, cause.text())?;
        push_words(&mut bytes, b" in name ")?;
        push_words(&mut bytes, name)?;
        push_words(&mut bytes, b"\n")?;
        Ok(RefusalLine { bytes })
    }

    /// The line of a row of the trace that stops at an action of a rule, both counted from 1.
    pub fn stop_in_rule(
        alloc: Global,
        line: u64,
        rule: u64,
        branch: BranchWord,
        action: u64,
    ) -> Result<RefusalLine, NoMemory>
        ensures value { IfOk result (λ text.
            text ≡ stop_in_rule_line line rule branch action) }
    {
        let mut bytes = Vec::new(alloc);
        push_numbered(alloc, &mut bytes, b"error: trace line ", line)?;
        push_words(&mut bytes, b": Overflow in rule ")?;
        push_action(alloc, &mut bytes, rule, branch, action)?;
        push_words(&mut bytes, b"\n")?;
        Ok(RefusalLine { bytes })
    }

    /// The bytes of the line, with its end.
    pub fn as_slice(&self) -> &[u8]
        ensures value { result.now ≡ self.now }
        ensures defined { IsRefusal self.now }
    {
        self.bytes.as_slice()
    }
}

/// Adds a cause to a line: its name and its number.
fn push_cause(alloc: Global, text: &mut Vec<u8>, name: &[u8], number: u8) -> Result<(), NoMemory>
    ensures value { OnOk result (text.new.items ≡ text.old.items ++ cause_text name.now number) }
{
    push_words(text, name)?;
    push_numbered(alloc, text, b" (", u64::from(number))?;
    push_words(text, b")")
}

/// Adds a token to a line, where there is one.
fn push_token(text: &mut Vec<u8>, token: &[u8]) -> Result<(), NoMemory>
    ensures value { OnOk result (text.new.items ≡ text.old.items ++ token_part token.now) }
{
    if token.is_empty() {
        return Ok(());
    }
    push_words(text, b": ")?;
    push_words(text, token)
}

/// Adds the place of an action: its rule, its branch and its number.
fn push_action(
    alloc: Global,
    text: &mut Vec<u8>,
    rule: u64,
    branch: BranchWord,
    action: u64,
) -> Result<(), NoMemory>
    ensures value { OnOk result
        (text.new.items ≡ text.old.items ++ action_text rule branch action) }
{
    push_numbered(alloc, text, b"", rule)?;
    push_words(text, b" ")?;
    push_words(text, branch.text())?;
    push_numbered(alloc, text, b" ", action)
}
