//! Event records: what one does to a chip, the line that it gives, and blocks of them.
#![tactic(auto)]

mod event;
mod text;

ghost use Rattle.std.specs.Prelude.{◌≡◌, false, ◌+◌, ◌*◌, ◌/◌, ◌%◌, ◌≤◌, ◌<◌, length};
ghost use Rattle.std.proofs.lemmas.List.Edits.{sets};
ghost use Rattle.refusals.specs.Numbers.{answer_number};
ghost use Rattle.chip.specs.Calls.{lines};
ghost use Rattle.events.specs.Text.{line_room};
ghost use Rattle.events.specs.Files.{last_record, start, finished, part_line, after_record, record_line, state_after, printed_from};

use chip::Chip;
pub use event::{Event, Shown, apply};
use refusals::{Refusal, answer_number};
pub use text::{LINE_ROOM, Line};

/// The number of the last record that gets a line.
const LAST: u32 = u32::MAX;

/// How far an event file has come.
#[derive(Clone, Copy, Debug, PartialEq, Eq)]
pub struct State {
    /// The chip after the records that are done.
    pub chip: Chip,
    /// How many records have had their line.
    pub done: u32,
}

impl State {
    /// Before the first record: a fresh chip, and no record done.
    #[tactic(auto, unfolding(crate::specs::Files::start))]
    pub fn start() -> Self
        ensures { result ≡ start }
    {
        State {
            chip: Chip::fresh(),
            done: 0,
        }
    }

    /// Whether no record gets a line any more.
    pub fn is_finished(&self) -> bool
        ensures finished { result ≡ finished self.now }
        ensures more { result ≡ false → self.now.done < last_record }
    {
        self.done == LAST
    }

    /// The line of the next record, with the levels of the chip as it is now. The record itself is not counted yet.
    fn next_line(&self, shown: Shown) -> Line
        requires { self.now.done < last_record }
        ensures number { result.number ≡ self.now.done + 1 }
        ensures answer { result.answer ≡ answer_number shown.answer }
        ensures byte { result.byte ≡ shown.byte }
        ensures irq { result.irq ≡ (lines self.now.chip).irq }
        ensures sqw { result.sqw ≡ (lines self.now.chip).sqw }
    {
        let levels = self.chip.lines();
        Line {
            number: self.done + 1,
            answer: answer_number(&shown.answer),
            byte: shown.byte,
            irq: levels.irq,
            sqw: levels.sqw,
        }
    }

    /// One record, with its line at the start of the buffer; answers how many bytes that has, as the room is the caller's.
    #[tactic(auto, using(crate::proofs::Laws::Text::line_is_short), unfolding(crate::specs::Files::after, crate::specs::Files::line))]
    fn step(&mut self, bytes: [u8; 4], out: &mut [u8]) -> usize
        requires { line_room ≤ length out.old }
        ensures state { self.new ≡ after_record self.old bytes }
        ensures end { result ≡ length (record_line self.old bytes) }
        ensures text { out.new ≡ sets out.old 0 (record_line self.old bytes) }
        ensures fits { result ≤ line_room }
    {
        if self.is_finished() {
            return 0;
        }
        let shown = apply(&mut self.chip, bytes);
        let end = self.next_line(shown).put(out);
        self.done += 1;
        end
    }

    /// The whole records of a block, one after the other, with their lines at the start of the buffer; answers how many bytes the lines have.
    /// Records past the last one that gets a line do nothing.
    pub fn work(&mut self, input: &[u8], out: &mut [u8]) -> usize
        requires whole { length input.now % 4 ≡ 0 }
        requires room { length input.now / 4 * line_room ≤ length out.old }
        ensures state { self.new ≡ state_after self.old input.now }
        ensures end { result ≡ length (printed_from self.old input.now) }
        ensures text { out.new ≡ sets out.old 0 (printed_from self.old input.now) }
        ensures fits { result ≤ length input.now / 4 * line_room }
    {
        let (records, _) = input.as_chunks::<4>();
        let mut end = 0;
        for bytes in records {
            end += self.step(*bytes, &mut out[end..]);
        }
        end
    }

    /// The line of a last record of fewer than four bytes, which is refused with `Length`, at the start of the buffer; answers how many bytes it
    /// has.
    #[tactic(auto, using(crate::proofs::Laws::Text::line_is_short), unfolding(crate::specs::Files::part_line))]
    pub fn part(&self, out: &mut [u8]) -> usize
        requires { line_room ≤ length out.old }
        ensures end { result ≡ length (part_line self.now) }
        ensures text { out.new ≡ sets out.old 0 (part_line self.now) }
        ensures fits { result ≤ line_room }
    {
        if self.is_finished() {
            return 0;
        }
        let shown = Shown {
            answer: Err(Refusal::Length),
            byte: 0,
        };
        self.next_line(shown).put(out)
    }
}
