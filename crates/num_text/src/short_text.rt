//! Short texts.
ghost use Rattle.std.specs.Prelude.{◌≡◌, ℕ, ◌+◌, ◌<◌, ◌≤◌, ◌^◌, List, [], ◌∷◌, ◌++◌, length, decimal};
ghost use Rattle.num_text.specs.Written.{places};

use std::marker::Model;

/// A text of at most 41 bytes, which a number or a moment is written as.
#[derive(Debug, Drop)]
pub struct ShortText {
    bytes: [u8; 41],
    len: usize,
}

impl Model for ShortText {
    ghost use Rattle.std.specs.Prelude.{ℕ, ◌≤◌, List, take};

    ghost Value = { List ℕ };

    ghost view = { λ t. take t.len t.bytes };

    ghost invariant = { λ t. t.len ≤ 41 };
}

impl ShortText {
    /// The bytes of the text, of which there are at most 41.
    pub fn as_bytes(&self) -> &[u8]
        ensures value { result.now ≡ self.now }
        ensures bound { length self.now ≤ 41 }
    {
        &self.bytes[..self.len]
    }

    /// The empty text.
    pub(crate) fn new() -> ShortText
        ensures value { result ≡ [] }
        ensures len { length result ≡ 0 }
    {
        ShortText {
            bytes: [0; 41],
            len: 0,
        }
    }

    /// The text of one digit.
    pub(crate) fn of_digit(digit: u8) -> ShortText
        requires digit { digit < 10 }
        ensures value { result ≡ decimal digit }
    {
        let mut text = ShortText::new();
        text.push(b'0' + digit);
        text
    }

    /// Writes one more byte.
    pub(crate) fn push(&mut self, byte: u8)
        requires room { length self.old < 41 }
        ensures value { self.new ≡ self.old ++ byte ∷ [] }
        ensures len { length self.new ≡ length self.old + 1 }
    {
        self.bytes[self.len] = byte;
        self.len += 1;
    }

    /// Writes the last `count` digits of a number.
    #[tactic(auto, unfolding(crate::specs::Written::places))]
    pub(crate) fn push_places(&mut self, number: u64, count: usize)
        requires room { length self.old + count ≤ 41 }
        ensures value { self.new ≡ self.old ++ places count number }
        ensures len { length self.new ≡ length self.old + count }
    {
        if count == 0 {
            return;
        }
        self.push_places(number / 10, count - 1);
        self.push(b'0' + (number % 10) as u8);
    }

    /// Writes the last two digits of a number.
    #[tactic(auto, unfolding(crate::specs::Written::places))]
    pub(crate) fn push_two(&mut self, number: u64)
        requires room { length self.old + 2 ≤ 41 }
        ensures value { self.new ≡ self.old ++ places 2 number }
        ensures len { length self.new ≡ length self.old + 2 }
    {
        self.push(b'0' + (number / 10 % 10) as u8);
        self.push(b'0' + (number % 10) as u8);
    }

    /// Writes the last four digits of a number.
    #[tactic(auto, unfolding(crate::specs::Written::places))]
    pub(crate) fn push_four(&mut self, number: u64)
        requires room { length self.old + 4 ≤ 41 }
        ensures value { self.new ≡ self.old ++ places 4 number }
        ensures len { length self.new ≡ length self.old + 4 }
    {
        self.push(b'0' + (number / 10 / 10 / 10 % 10) as u8);
        self.push(b'0' + (number / 10 / 10 % 10) as u8);
        self.push(b'0' + (number / 10 % 10) as u8);
        self.push(b'0' + (number % 10) as u8);
    }

    /// Writes a number without leading zeros.
    pub(crate) fn push_number(&mut self, number: u64)
        requires room { length self.old + length (decimal number) ≤ 41 }
        ensures value { self.new ≡ self.old ++ decimal number }
        ensures len { length self.new ≡ length self.old + length (decimal number) }
    {
        if number < 10 {
            self.push(b'0' + number as u8);
            return;
        }
        self.push_number(number / 10);
        self.push(b'0' + (number % 10) as u8);
    }
}
