//! Words of statuses.
ghost use Rattle.std.specs.Prelude.{◌≡◌};
ghost use Rattle.key_words.specs.Words.{status_text, status_word, status_setting};

use exact_fraction::frac::Frac;

/// A word of a link's status (SWMM 5.2 manual, [CONTROLS]).
#[derive(Clone, Copy, Debug, PartialEq, Eq)]
pub enum StatusWord {
    On,
    Open,
    Off,
    Closed,
}

impl StatusWord {
    /// The setting of the status: 1 where the link is on or open, 0 where it is off or closed.
    pub fn setting(self) -> Frac
        ensures value { result ≡ status_setting self }
    {
        match self {
            StatusWord::On | StatusWord::Open => Frac::one(),
            StatusWord::Off | StatusWord::Closed => Frac::zero(),
        }
    }
}

/// The status word that an item is, ignoring the case of ASCII letters: None exactly where it is
/// none (SWMM 5.2 manual, [CONTROLS]).
#[tactic(auto, unfolding(crate::specs::Words::status_word))]
pub fn read_status_word(item: &[u8]) -> Option<StatusWord>
    ensures value { result ≡ status_word item.now }
{
    if item.eq_ignore_ascii_case(b"ON") {
        return Some(StatusWord::On);
    }
    if item.eq_ignore_ascii_case(b"OPEN") {
        return Some(StatusWord::Open);
    }
    if item.eq_ignore_ascii_case(b"OFF") {
        return Some(StatusWord::Off);
    }
    if item.eq_ignore_ascii_case(b"CLOSED") {
        return Some(StatusWord::Closed);
    }
    None
}

/// The text of a status word.
pub fn status_word_text(word: StatusWord) -> &'static [u8]
    ensures value { result.now ≡ status_text word }
{
    match word {
        StatusWord::On => b"ON",
        StatusWord::Open => b"OPEN",
        StatusWord::Off => b"OFF",
        StatusWord::Closed => b"CLOSED",
    }
}
