//! Texts that are cut at a byte.
ghost use Rattle.std.specs.Prelude.{◌≡◌, ◌∷◌, ◌<◌, ◌==◌, length, position, option_map, IfSome};
ghost use Rattle.std.specs.List.{slice_split};
ghost use Rattle.report_lines.specs.internal.Views.{parts_behind};

/// The first part of a text, and what stands behind the byte that ends it.
#[derive(Clone, Copy, Debug)]
pub(crate) struct Cut<'a> {
    pub(crate) part: &'a [u8],
    /// None where no such byte follows.
    pub(crate) behind: Option<&'a [u8]>,
}

/// The first part of a text that is cut at a byte.
pub(crate) fn next_part(text: &[u8], separator: u8) -> Cut<'_>
    ensures { slice_split (λ byte. byte == separator) text.now
        ≡ result.part.now
        ∷ parts_behind separator (option_map (λ rest. rest.now) result.behind) }
{
    match place_of(text, separator) {
        Some(at) => Cut {
            part: &text[..at],
            behind: Some(&text[at + 1..]),
        },
        None => Cut {
            part: text,
            behind: None,
        },
    }
}

/// The place of the first such byte.
fn place_of(text: &[u8], separator: u8) -> Option<usize>
    ensures value { result ≡ position (λ byte. byte == separator) text.now }
    ensures within { IfSome result (λ at. at < length text.now) }
{
    text.iter().position(|byte| *byte == separator)
}
