//! The lines of nodes.
ghost use Rattle.std.specs.Prelude.{◌≡◌, IfOk};
ghost use Rattle.report_lines.specs.TreeLines.{node_line, split_by as by_words, split_line};
ghost use Rattle.report_lines.specs.TreeLines.{split_on as on_key, split_at as at_value};
ghost use Rattle.report_lines.specs.TreeLines.{moment_line as by_moment};
ghost use Rattle.report_lines.specs.TreeLines.{before_at as at_moment};
ghost use Rattle.report_lines.specs.internal.Views.{texts};

use crate::grid::Grid;
use crate::key_line::{key_named, past_key};
use crate::line::{are_words, is_word, words_of};
use crate::value::{moment_of, value_of};
use byte_edge::NoMemory;
use exact_fraction::frac::Frac;
use exact_fraction::moment::Moment;
use object_index::ObjectIndex;
use rule_types::Key;
use std::alloc::Global;

/// What the line of a node says.
#[derive(Clone, Copy, Debug)]
pub enum NodeLine {
    Leaf,
    /// A split at a number on a key.
    Split(Key, Frac),
    /// A split at a moment.
    Before(Moment),
}

/// What a line says of a node.
#[tactic(auto, unfolding(crate::specs::TreeLines::node_line))]
pub(crate) fn node_line(
    alloc: Global,
    objects: &ObjectIndex,
    grid: &Grid,
    line: &[u8],
) -> Result<Option<NodeLine>, NoMemory>
    ensures { IfOk result (λ node. node ≡ node_line objects.now grid.now line.now) }
{
    if is_word(line, b"leaf") {
        return Ok(Some(NodeLine::Leaf));
    }
    let words = words_of(alloc, line)?;
    split_by(alloc, objects, grid, line, words.as_slice())
}

/// What the words of a split say.
fn split_by<'a>(
    alloc: Global,
    objects: &ObjectIndex,
    grid: &Grid,
    line: &[u8],
    words: &'a [&'a [u8]],
) -> Result<Option<NodeLine>, NoMemory>
    ensures { IfOk result (λ node. node
        ≡ by_words objects.now grid.now line.now (texts words.now)) }
{
    match words {
        [head, second, third] => {
            if are_words(head, b"split", second, b"MOMENT") {
                Ok(moment_line(grid, third))
            } else {
                Ok(None)
            }
        }
        _ => split_line(alloc, objects, grid, line, words),
    }
}

/// A split at a moment.
fn moment_line(grid: &Grid, word: &[u8]) -> Option<NodeLine>
    ensures { result ≡ by_moment grid.now word.now }
{
    if !grid.has_moments {
        return None;
    }
    before_at(moment_of(word))
}

/// A split at a moment, where there is one.
fn before_at(moment: Option<Moment>) -> Option<NodeLine>
    ensures { result ≡ at_moment moment }
{
    let moment = moment?;
    Some(NodeLine::Before(moment))
}

/// A split at a number.
#[tactic(auto, unfolding(crate::specs::TreeLines::split_line))]
fn split_line<'a>(
    alloc: Global,
    objects: &ObjectIndex,
    grid: &Grid,
    line: &[u8],
    words: &'a [&'a [u8]],
) -> Result<Option<NodeLine>, NoMemory>
    ensures { IfOk result (λ node. node
        ≡ split_line objects.now grid.now line.now (texts words.now)) }
{
    match key_named(alloc, objects, words)? {
        Some(key) => split_on(alloc, objects, grid, line, key),
        None => Ok(None),
    }
}

/// A split at a number on a key.
fn split_on(
    alloc: Global,
    objects: &ObjectIndex,
    grid: &Grid,
    line: &[u8],
    key: Key,
) -> Result<Option<NodeLine>, NoMemory>
    ensures { IfOk result (λ node. node ≡ on_key objects.now grid.now line.now key) }
{
    if !grid.keys.contains(&key) {
        return Ok(None);
    }
    match past_key(alloc, b"split", objects, &key, line)? {
        Some(value) => Ok(split_at(key, value_of(value))),
        None => Ok(None),
    }
}

/// A split on a key, where there is a number.
fn split_at(key: Key, number: Option<Frac>) -> Option<NodeLine>
    ensures { result ≡ at_value key number }
{
    let number = number?;
    Some(NodeLine::Split(key, number))
}
