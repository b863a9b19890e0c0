//! The words of the commands.
ghost use Rattle.std.specs.Prelude.{◌≡◌, ◌≤◌, IfSome, MatchOption};
ghost use Rattle.std.specs.Prelude.{None, Some, map, option_map, string_bytes};
ghost use Rattle.swmm_rules.specs.Commands.{Generate, command_of, in_bounds, pumps_of};
ghost use Rattle.swmm_rules.specs.Commands.{with_one, with_two, with_three, usage_text};
ghost use Rattle.swmm_rules.specs.Words.{line_of, IsInBounds};

use num_text::counts::read_count;

/// A command with the names of its files, or with the number of pumps of a generated model.
#[derive(Clone, Copy)]
pub enum Command<'a> {
    /// `check IN`
    Check {
        input: &'a str,
    },
    /// `tables IN`
    Tables {
        input: &'a str,
    },
    /// `replay IN TRACE`
    Replay {
        input: &'a str,
        trace: &'a str,
    },
    /// `prove IN RANGES`
    Prove {
        input: &'a str,
        ranges: &'a str,
    },
    /// `verify IN RANGES REPORT`
    Verify {
        input: &'a str,
        ranges: &'a str,
        report: &'a str,
    },
    /// `gen N`
    Generate {
        pumps: u32,
    },
}

/// The command that these words are; None where they are no command.
pub fn command_of(words: &[String]) -> Option<Command<'_>>
    ensures value { MatchOption result (command_of (map string_bytes words.now) ≡ None)
        (λ command. command_of (map string_bytes words.now) ≡ Some (line_of command)) }
    ensures bounds { IfSome result IsInBounds }
{
    match words {
        [word, next] => with_one(word.as_str(), next.as_str()),
        [word, first, second] => with_two(word.as_str(), first.as_str(), second.as_str()),
        [word, first, second, third] => with_three(
            word.as_str(),
            first.as_str(),
            second.as_str(),
            third.as_str(),
        ),
        _ => None,
    }
}

/// A command of a word and one more.
fn with_one<'a>(word: &str, next: &'a str) -> Option<Command<'a>>
    ensures value { MatchOption result (with_one word.now next.now ≡ None)
        (λ command. with_one word.now next.now ≡ Some (line_of command)) }
    ensures bounds { IfSome result IsInBounds }
{
    if word == "check" {
        return Some(Command::Check { input: next });
    }
    if word == "tables" {
        return Some(Command::Tables { input: next });
    }
    if word == "gen" {
        return generation(next.as_bytes());
    }
    None
}

/// The command `gen` with its number of pumps.
fn generation<'a>(text: &[u8]) -> Option<Command<'a>>
    ensures value { MatchOption result (pumps_of text.now ≡ None)
        (λ command. option_map Generate (pumps_of text.now) ≡ Some (line_of command)) }
    ensures bounds { IfSome result IsInBounds }
{
    let pumps = pumps_of(text)?;
    Some(Command::Generate { pumps })
}

/// The number of pumps of a generated model: None exactly where the text is no count from 1 to
/// 1,000.
fn pumps_of(text: &[u8]) -> Option<u32>
    ensures value { result ≡ pumps_of text.now }
    ensures bounds { IfSome result (λ pumps. (1 ≤ pumps) × (pumps ≤ 1000)) }
{
    let count = read_count(text)?;
    in_bounds(count)
}

/// The same of a count.
fn in_bounds(count: u64) -> Option<u32>
    ensures value { result ≡ in_bounds count }
    ensures bounds { IfSome result (λ pumps. (1 ≤ pumps) × (pumps ≤ 1000)) }
{
    if count < 1 {
        return None;
    }
    if 1_000 < count {
        return None;
    }
    Some(count as u32)
}

/// A command on two files.
fn with_two<'a>(word: &str, first: &'a str, second: &'a str) -> Option<Command<'a>>
    ensures value { MatchOption result (with_two word.now first.now second.now ≡ None)
        (λ command. with_two word.now first.now second.now ≡ Some (line_of command)) }
    ensures bounds { IfSome result IsInBounds }
{
    if word == "replay" {
        return Some(Command::Replay {
            input: first,
            trace: second,
        });
    }
    if word == "prove" {
        return Some(Command::Prove {
            input: first,
            ranges: second,
        });
    }
    None
}

/// A command on three files.
fn with_three<'a>(
    word: &str,
    first: &'a str,
    second: &'a str,
    third: &'a str,
) -> Option<Command<'a>>
    ensures value { MatchOption result
        (with_three word.now first.now second.now third.now ≡ None)
        (λ command. with_three word.now first.now second.now third.now
        ≡ Some (line_of command)) }
    ensures bounds { IfSome result IsInBounds }
{
    if word == "verify" {
        return Some(Command::Verify {
            input: first,
            ranges: second,
            report: third,
        });
    }
    None
}

/// What is said of words that are no command.
pub fn usage_text() -> &'static [u8]
    ensures value { result.now ≡ usage_text }
{
    b"usage: check IN\n       tables IN\n       replay IN TRACE\n       \
      prove IN RANGES\n       verify IN RANGES REPORT\n       gen N\n"
}
