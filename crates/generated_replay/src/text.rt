//! The text of the command.
ghost use Rattle.std.specs.Prelude.{◌≡◌, ◌++◌, ◌≤◌, IfOk, OnOk};
ghost use Rattle.generated_replay.specs.GeneratedText.{counted, model_numbers, numbers_line};
ghost use Rattle.generated_replay.specs.GeneratedText.{setting_line, setting_lines};
ghost use Rattle.generated_replay.specs.GeneratedText.{tally_text as text_of_tally};
ghost use Rattle.trace_tally.specs.Giving.{tally_seen};

use byte_edge::NoMemory;
use exact_fraction::frac::Frac;
use key_words::name_text;
use num_text::values::value_text;
use object_index::ObjectIndex;
use rule_parser::Project;
use rule_types::{ObjectNo, Space};
use std::alloc::Global;
use trace_tally::Replayed;

/// The text of what a replay of the model of `n` pumps came to.
pub(crate) fn tally_text(
    alloc: Global,
    n: u32,
    project: &Project,
    replayed: &Replayed,
) -> Result<Vec<u8>, NoMemory>
    requires most { n ≤ 1000 }
    ensures { IfOk result (λ text. text.items
        ≡ text_of_tally n project.now (tally_seen replayed.now)) }
{
    let mut text = Vec::new(alloc);
    push_numbers(alloc, &mut text, n, replayed.switches)?;
    let links = project.rules.controlled.as_slice();
    push_settings(&mut text, &project.objects, links, &replayed.settings)?;
    Ok(text)
}

/// Adds the line with the numbers of pumps, rules, rows and switches.
fn push_numbers(alloc: Global, text: &mut Vec<u8>, n: u32, switches: u64) -> Result<(), NoMemory>
    requires most { n ≤ 1000 }
    ensures { OnOk result (text.new.items ≡ text.old.items ++ numbers_line n switches) }
{
    push_model(alloc, text, n as u64)?;
    push_counted(alloc, text, b" switches ", switches)?;
    text.push(b'\n')?;
    Ok(())
}

/// Adds the numbers of pumps, rules and rows.
#[tactic(auto, unfolding(crate::specs::GeneratedText::model_numbers))]
fn push_model(alloc: Global, text: &mut Vec<u8>, n: u64) -> Result<(), NoMemory>
    requires most { n ≤ 1000 }
    ensures { OnOk result (text.new.items ≡ text.old.items ++ model_numbers n) }
{
    push_counted(alloc, text, b"pumps ", n)?;
    push_counted(alloc, text, b" rules ", 3 * n)?;
    push_counted(alloc, text, b" rows ", 10 * n)?;
    Ok(())
}

/// Adds words with a number behind them.
#[tactic(auto, unfolding(crate::specs::GeneratedText::counted))]
fn push_counted(
    alloc: Global,
    text: &mut Vec<u8>,
    words: &[u8],
    number: u64,
) -> Result<(), NoMemory>
    ensures { OnOk result (text.new.items ≡ text.old.items ++ counted words.now number) }
{
    let digits = number.to_string(alloc)?;
    text.extend_from_slice(words)?;
    text.extend_from_slice(digits.as_bytes())?;
    Ok(())
}

/// Adds a line for each of these links, with its name and its setting.
fn push_settings(
    text: &mut Vec<u8>,
    objects: &ObjectIndex,
    links: &[u32],
    settings: &[Frac],
) -> Result<(), NoMemory>
    ensures { OnOk result (text.new.items
        ≡ text.old.items ++ setting_lines objects.now links.now settings.now) }
{
    let mut links = links;
    let mut settings = settings;
    'links: loop {
        let Some((link, later_links)) = links.split_first() else {
            return Ok(());
        };
        let Some((setting, later)) = settings.split_first() else {
            return Ok(());
        };
        push_setting(text, objects, *link, *setting)?;
        links = later_links;
        settings = later;
    }
}

/// Adds the line of a link.
fn push_setting(
    text: &mut Vec<u8>,
    objects: &ObjectIndex,
    link: u32,
    setting: Frac,
) -> Result<(), NoMemory>
    ensures { OnOk result (text.new.items
        ≡ text.old.items ++ setting_line objects.now link setting) }
{
    let object = ObjectNo {
        space: Space::Links,
        index: link,
    };
    let written = value_text(setting);
    text.extend_from_slice(name_text(objects, object))?;
    text.extend_from_slice(b" ")?;
    text.extend_from_slice(written.as_bytes())?;
    text.extend_from_slice(b"\n")?;
    Ok(())
}
