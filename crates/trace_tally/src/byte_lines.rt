//! The lines of bytes that are held in memory, one after another.
ghost use Rattle.std.specs.Prelude.{◌≡◌, ◌<◌, ◌≤◌, [], ◌∷◌, length, take, drop, map, position, ◌==◌};
ghost use Rattle.std.specs.Prelude.{IfSome, MatchOption, option_map};
ghost use Rattle.std.specs.Io.BufRead.{strip_last};
ghost use Rattle.byte_edge.specs.Lines.{raw_lines, lines, line_text as text_of_line};
ghost use Rattle.byte_edge.specs.Lines.{capped as capped_at};

/// The first line of some bytes, and the bytes behind it.
#[derive(Clone, Copy)]
pub struct FirstLine<'a> {
    /// The line without its end; None where it is too long.
    pub line: Option<&'a [u8]>,
    pub rest: &'a [u8],
}

/// The first line of some bytes, of at most `limit` bytes; None where there are no bytes.
pub fn first_line(bytes: &[u8], limit: usize) -> Option<FirstLine<'_>>
    ensures lines { MatchOption result (map (capped_at limit) (lines bytes.now) ≡ [])
        (λ first. map (capped_at limit) (lines bytes.now)
        ≡ option_map (λ line. line.now) first.line
        ∷ map (capped_at limit) (lines first.rest.now)) }
    ensures shorter { IfSome result (λ first. length first.rest.now < length bytes.now) }
{
    if bytes.is_empty() {
        return None;
    }
    let end = line_end(bytes);
    Some(FirstLine {
        line: capped(line_text(&bytes[..end]), limit),
        rest: &bytes[end..],
    })
}

/// How many bytes the first line has, with its LF.
fn line_end(bytes: &[u8]) -> usize
    requires some { 0 < length bytes.now }
    ensures lines { raw_lines bytes.now ≡ take result bytes.now ∷ raw_lines (drop result bytes.now) }
    ensures some { 0 < result }
    ensures within { result ≤ length bytes.now }
{
    match newline_at(bytes) {
        Some(at) => at + 1,
        None => bytes.len(),
    }
}

/// Where the first LF is.
fn newline_at(bytes: &[u8]) -> Option<usize>
    ensures { result ≡ position (λ byte. byte == 10) bytes.now }
{
    bytes.iter().position(|byte| *byte == b'\n')
}

/// A line without its LF, and without a CR before that.
fn line_text(raw: &[u8]) -> &[u8]
    ensures { result.now ≡ text_of_line raw.now }
{
    without_last(without_last(raw, b'\n'), b'\r')
}

/// Bytes without their last one, where it is this one.
fn without_last(bytes: &[u8], byte: u8) -> &[u8]
    ensures { result.now ≡ strip_last byte bytes.now }
{
    if bytes.last().copied() == Some(byte) {
        return &bytes[..bytes.len() - 1];
    }
    bytes
}

/// A text, or None where it has more than `limit` bytes.
fn capped(text: &[u8], limit: usize) -> Option<&[u8]>
    ensures { option_map (λ line. line.now) result ≡ capped_at limit text.now }
{
    if text.len() <= limit {
        return Some(text);
    }
    None
}
