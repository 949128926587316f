//! The text of a line, in ASCII.

ghost use Rattle.std.specs.Prelude.{◌≡◌, ◌+◌, ◌≤◌, ◌<◌, [], ◌∷◌, ◌++◌, List, ℕ, length, drop};
ghost use Rattle.std.proofs.lemmas.List.Edits.{sets};
ghost use Rattle.events.specs.Text.{two_digits, decimal, level, text_of, line_room};

use std::marker::Model;

/// Room that every line fits into, in bytes. Lines are put into room that the caller lends, as nothing here allocates.
pub const LINE_ROOM: usize = 24;

/// Both digits of each number below 100. They are looked up: computed, they made a line take a fifth more instructions.
const DIGITS: [u8; 200] =
    *b"00010203040506070809101112131415161718192021222324252627282930313233343536373839404142434445464748495051525354555657585960616263646566676869707172737475767778798081828384858687888990919293949596979899";

/// What the line of a record shows.
#[derive(Clone, Copy, Debug, PartialEq, Eq)]
pub struct Line {
    /// The record's number, from 1 on.
    pub number: u32,
    /// The number of its answer, 0 where the call is accepted: a number, as the line shows it.
    pub answer: u8,
    /// The byte that it read, 255 where a read is refused, 0 for every other record.
    pub byte: u8,
    /// Whether the interrupt line is asserted after the record.
    pub irq: bool,
    /// Whether the square wave is high after the record.
    pub sqw: bool,
}

impl Line {
    /// Puts the line, with its line feed, at the start of a buffer, and answers how many bytes it has.
    #[tactic(auto, using(crate::proofs::Laws::Text::line_put))]
    pub fn put(&self, out: &mut [u8]) -> usize
        requires { length (text_of self.now) ≤ length out.old }
        ensures end { result ≡ length (text_of self.now) }
        ensures text { out.new ≡ sets out.old 0 (text_of self.now) }
    {
        let text = self.text();
        let bytes = text.as_bytes();
        out[..bytes.len()].copy_from_slice(bytes);
        bytes.len()
    }

    /// The line's text.
    #[tactic(auto, using(crate::proofs::Laws::Text::number_is_short, crate::proofs::Laws::Text::byte_is_short, crate::proofs::Laws::Text::line_in_parts, crate::proofs::Laws::Text::lengths_add))]
    fn text(&self) -> Text
        ensures { result ≡ text_of self.now }
    {
        let mut text = Text::empty();
        text.put_byte(b'\n');
        text.put_level(self.sqw);
        text.put_byte(b' ');
        text.put_level(self.irq);
        text.put_byte(b' ');
        text.put_number(u32::from(self.byte));
        text.put_byte(b' ');
        text.put_number(u32::from(self.answer));
        text.put_byte(b' ');
        text.put_number(self.number);
        text
    }
}

/// Text of at most `LINE_ROOM` bytes that grows to the front, since the last digit of a number is known first. The digits are its own: of `write!` it
/// is known what it wrote where it answers `Ok`, and not that it does.
#[derive(Drop)]
struct Text {
    bytes: [u8; LINE_ROOM],
    /// Where the text starts; it goes on to the end of the bytes.
    start: usize,
}

impl Model for Text {
    ghost Value = { List ℕ };

    ghost view = { λ text. drop text.start text.bytes };

    ghost invariant = { λ text. text.start ≤ 24 };
}

impl Text {
    fn empty() -> Self
        ensures { result ≡ [] }
    {
        Text {
            bytes: [0; LINE_ROOM],
            start: LINE_ROOM,
        }
    }

    fn as_bytes(&self) -> &[u8]
        ensures { result.now ≡ self.now }
    {
        &self.bytes[self.start..]
    }

    /// Puts a byte in front of the text.
    #[tactic(auto, using(crate::proofs::Laws::Text::byte_in_front))]
    fn put_byte(&mut self, byte: u8)
        requires { length self.old < line_room }
        ensures { self.new ≡ byte ∷ self.old }
    {
        self.start -= 1;
        self.bytes[self.start] = byte;
    }

    /// Puts a level in front of the text: 1 is high.
    fn put_level(&mut self, is_high: bool)
        requires { length self.old < line_room }
        ensures { self.new ≡ level is_high ∷ self.old }
    {
        self.put_byte(b'0' + u8::from(is_high));
    }

    /// Puts two bytes in front of the text. `start` is taken out first, as each store into the bytes would have it read again.
    #[tactic(auto, using(crate::proofs::Laws::Text::two_in_front))]
    fn put_pair(&mut self, first: u8, second: u8)
        requires { length self.old + 2 ≤ line_room }
        ensures { self.new ≡ first ∷ second ∷ self.old }
    {
        let start = self.start;
        self.bytes[start - 1] = second;
        self.bytes[start - 2] = first;
        self.start = start - 2;
    }

    /// Puts the two digits of a number below 100 in front of the text. There is no `From<u32>` for `usize`.
    fn put_two(&mut self, n: u32)
        requires { (n < 100) × (length self.old + 2 ≤ line_room) }
        ensures { self.new ≡ two_digits n ++ self.old }
    {
        let at = 2 * n as usize;
        self.put_pair(DIGITS[at], DIGITS[at + 1]);
    }

    /// Puts a number in front of the text. Two digits a turn halve the divisions, which wait for each other. As `u8` a number below 10 keeps its value.
    #[tactic(auto, using(crate::proofs::Laws::Text::decimal_of_digit, crate::proofs::Laws::Text::decimal_of_two, crate::proofs::Laws::Text::decimal_of_hundreds, crate::proofs::Laws::Text::digit_length, crate::proofs::Laws::Text::two_length, crate::proofs::Laws::Text::hundreds_length))]
    fn put_number(&mut self, n: u32)
        requires { length (decimal n) + length self.old ≤ line_room }
        ensures { self.new ≡ decimal n ++ self.old }
    {
        if n < 10 {
            self.put_byte(48 + n as u8);
            return;
        }
        if n < 100 {
            self.put_two(n);
            return;
        }
        self.put_two(n % 100);
        self.put_number(n / 100);
    }
}
