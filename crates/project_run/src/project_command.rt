//! The words of the commands.
ghost use Rattle.std.specs.Prelude.{◌≡◌, MatchOption, None, Some, map, string_bytes};
ghost use Rattle.project_run.specs.ProjectLines.{project_line_of, with_input, with_two};
ghost use Rattle.project_run.specs.Words.{line_of};

/// A command with the names of its files.
#[derive(Clone, Copy)]
pub enum ProjectCommand<'a> {
    /// `check IN`
    Check { input: &'a str },
    /// `tables IN`
    Tables { input: &'a str },
    /// `replay IN TRACE`
    Replay { input: &'a str, trace: &'a str },
}

/// The command that these words are; None where they are none of these.
pub fn project_command_of(words: &[String]) -> Option<ProjectCommand<'_>>
    ensures value { MatchOption result (project_line_of (map string_bytes words.now) ≡ None)
        (λ command. project_line_of (map string_bytes words.now) ≡ Some (line_of command)) }
{
    match words {
        [word, input] => with_input(word.as_str(), input.as_str()),
        [word, first, second] => with_two(word.as_str(), first.as_str(), second.as_str()),
        _ => None,
    }
}

/// A command on an input file alone.
fn with_input<'a>(word: &str, input: &'a str) -> Option<ProjectCommand<'a>>
    ensures value { MatchOption result (with_input word.now input.now ≡ None)
        (λ command. with_input word.now input.now ≡ Some (line_of command)) }
{
    if word == "check" {
        return Some(ProjectCommand::Check { input });
    }
    if word == "tables" {
        return Some(ProjectCommand::Tables { input });
    }
    None
}

/// A command on two files.
fn with_two<'a>(word: &str, first: &'a str, second: &'a str) -> Option<ProjectCommand<'a>>
    ensures value { MatchOption result (with_two word.now first.now second.now ≡ None)
        (λ command. with_two word.now first.now second.now ≡ Some (line_of command)) }
{
    if word == "replay" {
        return Some(ProjectCommand::Replay {
            input: first,
            trace: second,
        });
    }
    None
}
