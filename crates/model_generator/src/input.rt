//! The input file of the generated model.
ghost use Rattle.std.specs.Prelude.{◌≡◌, ◌++◌, ◌≤◌, IfOk, OnOk};
ghost use Rattle.std.specs.List.{flat_map};
ghost use Rattle.model_generator.specs.InputFile.{generated_input, junction_line, pump_line};
ghost use Rattle.model_generator.specs.InputFile.{numbered, rule_text, rules_text, up_to};

use byte_edge::NoMemory;
use std::alloc::Global;

/// The bytes of the input file.
pub(crate) fn input_bytes(alloc: Global, n: u32) -> Result<Vec<u8>, NoMemory>
    requires most { n ≤ 1000 }
    ensures { IfOk result (λ text. text.items ≡ generated_input n) }
{
    let mut text = Vec::new(alloc);
    text.extend_from_slice(b"[JUNCTIONS]\n")?;
    push_junctions(alloc, &mut text, n)?;
    text.extend_from_slice(b"[OUTFALLS]\nOUT 0 FREE\n[PUMPS]\n")?;
    push_pumps(alloc, &mut text, n)?;
    text.extend_from_slice(b"[CONTROLS]\n")?;
    push_rules(alloc, &mut text, n)?;
    Ok(text)
}

/// Adds the lines of the junctions.
fn push_junctions(alloc: Global, text: &mut Vec<u8>, n: u32) -> Result<(), NoMemory>
    requires most { n ≤ 1000 }
    ensures { OnOk result
        (text.new.items ≡ text.old.items ++ flat_map junction_line (up_to n)) }
{
    for number in 1..n + 1 {
        push_junction(alloc, text, number)?;
    }
    Ok(())
}

/// Adds the line of a junction.
fn push_junction(alloc: Global, text: &mut Vec<u8>, number: u32) -> Result<(), NoMemory>
    ensures { OnOk result (text.new.items ≡ text.old.items ++ junction_line number) }
{
    push_numbered(alloc, text, b"N", number)?;
    text.extend_from_slice(b" 0\n")?;
    Ok(())
}

/// Adds the lines of the pumps.
fn push_pumps(alloc: Global, text: &mut Vec<u8>, n: u32) -> Result<(), NoMemory>
    requires most { n ≤ 1000 }
    ensures { OnOk result (text.new.items ≡ text.old.items ++ flat_map pump_line (up_to n)) }
{
    for number in 1..n + 1 {
        push_pump(alloc, text, number)?;
    }
    Ok(())
}

/// Adds the line of a pump.
fn push_pump(alloc: Global, text: &mut Vec<u8>, number: u32) -> Result<(), NoMemory>
    ensures { OnOk result (text.new.items ≡ text.old.items ++ pump_line number) }
{
    push_numbered(alloc, text, b"P", number)?;
    push_numbered(alloc, text, b" N", number)?;
    text.extend_from_slice(b" OUT * OFF\n")?;
    Ok(())
}

/// Adds the rules.
fn push_rules(alloc: Global, text: &mut Vec<u8>, n: u32) -> Result<(), NoMemory>
    requires most { n ≤ 1000 }
    ensures { OnOk result (text.new.items ≡ text.old.items ++ flat_map rules_text (up_to n)) }
{
    for number in 1..n + 1 {
        push_three_rules(alloc, text, number)?;
    }
    Ok(())
}

/// Adds the three rules of a pump.
fn push_three_rules(alloc: Global, text: &mut Vec<u8>, number: u32) -> Result<(), NoMemory>
    ensures { OnOk result (text.new.items ≡ text.old.items ++ rules_text number) }
{
    let on = b" DEPTH > 6\nTHEN PUMP P";
    let off = b" DEPTH < 3\nTHEN PUMP P";
    let fast = b" DEPTH > 8\nTHEN PUMP P";
    let twice = b" SETTING = 2\nPRIORITY 1\n";
    push_rule(alloc, text, b"RULE A", on, b" STATUS = ON\n", number)?;
    push_rule(alloc, text, b"RULE B", off, b" STATUS = OFF\n", number)?;
    push_rule(alloc, text, b"RULE C", fast, twice, number)?;
    Ok(())
}

/// Adds a rule: its name, what it tests, and what it does.
#[tactic(auto, unfolding(crate::specs::InputFile::rule_text))]
fn push_rule(
    alloc: Global,
    text: &mut Vec<u8>,
    name: &[u8],
    test: &[u8],
    action: &[u8],
    number: u32,
) -> Result<(), NoMemory>
    ensures { OnOk result (text.new.items
        ≡ text.old.items ++ rule_text name.now test.now action.now number) }
{
    push_numbered(alloc, text, name, number)?;
    push_numbered(alloc, text, b"\nIF NODE N", number)?;
    push_numbered(alloc, text, test, number)?;
    text.extend_from_slice(action)?;
    Ok(())
}

/// Adds words with a number behind them.
#[tactic(auto, unfolding(crate::specs::InputFile::numbered))]
pub(crate) fn push_numbered(
    alloc: Global,
    text: &mut Vec<u8>,
    words: &[u8],
    number: u32,
) -> Result<(), NoMemory>
    ensures { OnOk result (text.new.items ≡ text.old.items ++ numbered words.now number) }
{
    let digits = number.to_string(alloc)?;
    text.extend_from_slice(words)?;
    text.extend_from_slice(digits.as_bytes())?;
    Ok(())
}
