//! The cells of a report.
ghost use Rattle.std.specs.Prelude.{◌≡◌, ◌∷◌, [], ◌++◌, List, IfOk, OnOk};
ghost use Rattle.report_lines.specs.StateLines.{pieces_from, cell_from, cell_with, span_by};
ghost use Rattle.report_lines.specs.StateLines.{span_line as of_span, piece_line as of_piece};
ghost use Rattle.report_lines.specs.StateLines.{span_of as between};
ghost use Rattle.report_lines.specs.Words.{line_at};
ghost use Rattle.report_lines.specs.internal.Views.{reading_now, texts, pieces_go_on};
ghost use Rattle.rule_types.specs.declared.key.Key.{Key as AnyKey};

use crate::body::Body;
use crate::key_line::past_key;
use crate::line::{are_words, next_place, text_at, words_of};
use crate::piece::piece_of;
use crate::value::moment_of;
use byte_edge::NoMemory;
use exact_fraction::moment::Moment;
use interval_sets::Interval;
use list_types::Items;
use rule_types::Key;
use std::alloc::Global;
use verdict_meaning::Cell;

/// The cell from a line on, with the place of the line behind it; or the place of the first line at
/// fault.
#[tactic(auto, unfolding(crate::specs::StateLines::cell_from))]
pub(crate) fn read_cell(
    alloc: Global,
    body: Body<'_>,
    at: usize,
) -> Result<Result<(Cell, usize), usize>, NoMemory>
    ensures { IfOk result (λ read. reading_now read ≡ cell_from body.entry.lines.now
        body.entry.objects.now body.entry.grid.now at) }
{
    match read_pieces(alloc, body, at)? {
        Ok(read) => cell_with(alloc, body, read.pieces, read.place),
        Err(fault) => Ok(Err(fault)),
    }
}

/// The cell with these pieces.
fn cell_with(
    alloc: Global,
    body: Body<'_>,
    pieces: Items<(Key, Interval)>,
    at: usize,
) -> Result<Result<(Cell, usize), usize>, NoMemory>
    ensures { IfOk result (λ read. reading_now read
        ≡ cell_with body.entry.lines.now body.entry.grid.now.has_moments pieces at) }
{
    if !body.grid.has_moments {
        let cell = Cell {
            keys: pieces,
            moments: None,
        };
        return Ok(Ok((cell, at)));
    }
    match read_span(alloc, body, at)? {
        Some(span) => {
            let next = next_place(at)?;
            let cell = Cell {
                keys: pieces,
                moments: Some(span),
            };
            Ok(Ok((cell, next)))
        }
        None => Ok(Err(at)),
    }
}

/// How far the pieces of keys are read: those so far, and the place of the next line.
#[derive(Drop)]
pub(crate) struct PieceList {
    pub(crate) pieces: Items<(Key, Interval)>,
    pub(crate) place: usize,
}

/// A piece for each key of the grid.
fn read_pieces(
    alloc: Global,
    body: Body<'_>,
    at: usize,
) -> Result<Result<PieceList, usize>, NoMemory>
    ensures { IfOk result (λ read. pieces_go_on body.entry.lines.now body.entry.objects.now [] read
        ≡ pieces_from body.entry.lines.now body.entry.objects.now body.entry.grid.now.keys at []) }
{
    let keys = body.grid.keys.list(alloc)?;
    let mut so_far = PieceList {
        pieces: Items::new(alloc),
        place: at,
    };
    for key in keys.as_slice() {
        match so_far.after_key(alloc, body, key)? {
            Ok(next) => so_far = next,
            Err(fault) => return Ok(Err(fault)),
        }
    }
    Ok(Ok(so_far))
}

impl PieceList {
    /// The same after one key more.
    #[tactic(auto, unfolding(crate::specs::StateLines::pieces_from))]
    fn after_key(
        self,
        alloc: Global,
        body: Body<'_>,
        key: &Key,
    ) -> Result<Result<PieceList, usize>, NoMemory>
        ensures { (later : List AnyKey) → IfOk result (λ read.
            pieces_go_on body.entry.lines.now body.entry.objects.now later read
            ≡ pieces_from body.entry.lines.now body.entry.objects.now (key.now ∷ later) self.place
            self.pieces) }
    {
        let Some(piece) = read_piece(alloc, body, key, self.place)? else {
            return Ok(Err(self.place));
        };
        let _low = piece.low;
        let PieceList { mut pieces, place } = self;
        push_piece(&mut pieces, *key, piece)?;
        let place = next_place(place)?;
        Ok(Ok(PieceList { pieces, place }))
    }
}

/// Adds the piece of a key.
fn push_piece(
    pieces: &mut Items<(Key, Interval)>,
    key: Key,
    piece: Interval,
) -> Result<(), NoMemory>
    ensures { OnOk result (pieces.new ≡ pieces.old ++ (key, piece) ∷ []) }
{
    let _low = piece.low;
    match pieces.push((key, piece)) {
        Ok(()) => Ok(()),
        Err(_) => Err(NoMemory),
    }
}

/// The piece of a key that the line at a place writes.
fn read_piece(
    alloc: Global,
    body: Body<'_>,
    key: &Key,
    at: usize,
) -> Result<Option<Interval>, NoMemory>
    ensures { IfOk result (λ piece. piece
        ≡ of_piece body.entry.objects.now key.now (line_at body.entry.lines.now at)) }
{
    match text_at(body.lines, at) {
        Some(line) => match past_key(alloc, b"piece", body.objects, key, line)? {
            Some(text) => Ok(piece_of(text)),
            None => Ok(None),
        },
        None => Ok(None),
    }
}

/// The moments that the line at a place writes.
fn read_span(alloc: Global, body: Body<'_>, at: usize) -> Result<Option<(Moment, Moment)>, NoMemory>
    ensures { IfOk result (λ span. span ≡ of_span (line_at body.entry.lines.now at)) }
{
    match text_at(body.lines, at) {
        Some(line) => {
            let words = words_of(alloc, line)?;
            Ok(span_by(words.as_slice()))
        }
        None => Ok(None),
    }
}

/// The moments of these words.
fn span_by<'a>(words: &'a [&'a [u8]]) -> Option<(Moment, Moment)>
    ensures { result ≡ span_by (texts words.now) }
{
    match words {
        [head, second, first, last] => {
            if are_words(head, b"piece", second, b"MOMENT") {
                span_of(moment_of(first), moment_of(last))
            } else {
                None
            }
        }
        _ => None,
    }
}

/// The moments from one to another, where they rise.
fn span_of(first: Option<Moment>, last: Option<Moment>) -> Option<(Moment, Moment)>
    ensures { result ≡ between first last }
{
    let first = first?;
    let last = last?;
    if last.seconds() < first.seconds() {
        return None;
    }
    Some((first, last))
}
