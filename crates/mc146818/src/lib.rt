//! A host's calls on the 72 bytes of a chip that it holds: each loads them, makes one call of the chip, and stores the result in the same bytes. A chip that
//! does not load is refused with `Rules` before anything else is looked at, and a refused call leaves the bytes as they were. Then the words in which the
//! crate mc146818_c hands the answers to C.
#![tactic(auto)]

ghost use Rattle.std.specs.Prelude.{◌≡◌};
ghost use Rattle.times.specs.Calls.{decoded, encoded};
ghost use Rattle.chip.specs.Chips.{fresh};
ghost use Rattle.fields.specs.Modes.{mode_of};
ghost use Rattle.saved.specs.Record.{record_of};
ghost use Rattle.mc146818.specs.Words.{refused_word, byte_word, answer_word, lines_word, decoded_word};
ghost use Rattle.mc146818.specs.Calls.{read_answer, read_bytes, write_answer, write_bytes, run_answer, run_bytes, pins_answer, pins_bytes, lines_answer, load_answer, load_bytes, save_answer, save_page, time_by};

use chip::{Chip, Levels};
use fields::Mode;
use refusals::Refusal;
use saved::RECORD_SIZE;
use times::Time;

// ---- the calls on a chip: each has the same three lines, as a closure between load and store would have its promise written out at every call

/// Writes a fresh chip over whatever stood there.
pub fn fresh(bytes: &mut [u8; RECORD_SIZE])
    ensures { bytes.new ≡ record_of fresh }
{
    saved::store(&Chip::fresh(), bytes);
}

/// Reads the byte at an address. Refused with `Rules`, or as `Chip::read` is.
pub fn read(bytes: &mut [u8; RECORD_SIZE], address: u32) -> Result<u8, Refusal>
    ensures answer { result ≡ read_answer bytes.old address }
    ensures bytes { bytes.new ≡ read_bytes bytes.old address }
{
    let mut chip = saved::load(bytes)?;
    let byte = chip.read(address)?;
    saved::store(&chip, bytes);
    Ok(byte)
}

/// Writes a byte at an address. Refused with `Rules`, or as `Chip::write` is.
pub fn write(bytes: &mut [u8; RECORD_SIZE], address: u32, value: u8) -> Result<(), Refusal>
    ensures answer { result ≡ write_answer bytes.old address value }
    ensures bytes { bytes.new ≡ write_bytes bytes.old address value }
{
    let mut chip = saved::load(bytes)?;
    chip.write(address, value)?;
    saved::store(&chip, bytes);
    Ok(())
}

/// Makes a number of ticks. Refused with `Rules`, or as `Chip::run` is.
pub fn run(bytes: &mut [u8; RECORD_SIZE], ticks: u32) -> Result<(), Refusal>
    ensures answer { result ≡ run_answer bytes.old ticks }
    ensures bytes { bytes.new ≡ run_bytes bytes.old ticks }
{
    let mut chip = saved::load(bytes)?;
    chip.run(ticks)?;
    saved::store(&chip, bytes);
    Ok(())
}

/// Puts the pins at new levels: bit 0 is RESET and bit 1 is PS, and 1 is high; the other bits say nothing. Refused with `Rules` alone. The levels are a
/// word of the C interface, of 32 bits.
pub fn pins(bytes: &mut [u8; RECORD_SIZE], levels: u32) -> Result<(), Refusal>
    ensures answer { result ≡ pins_answer bytes.old }
    ensures bytes { bytes.new ≡ pins_bytes bytes.old levels }
{
    let mut chip = saved::load(bytes)?;
    chip.set_pins(levels % 2 == 1, levels / 2 % 2 == 1);
    saved::store(&chip, bytes);
    Ok(())
}

/// The levels of the two lines. Refused with `Rules` alone.
pub fn lines(bytes: &[u8; RECORD_SIZE]) -> Result<Levels, Refusal>
    ensures { result ≡ lines_answer bytes.now }
{
    Ok(saved::load(bytes)?.lines())
}

/// Puts the chip that was saved as `input` into the bytes; the chip that stood there need not load. Refused as `saved::load` is.
pub fn load(bytes: &mut [u8; RECORD_SIZE], input: &[u8]) -> Result<(), Refusal>
    ensures answer { result ≡ load_answer input.now }
    ensures bytes { bytes.new ≡ load_bytes bytes.old input.now }
{
    let chip = saved::load(input)?;
    saved::store(&chip, bytes);
    Ok(())
}

/// Saves the chip at an offset inside a page; page and offset are as C passes them. Refused with `Rules`, or as `saved::save` is; the page then stays as it was.
pub fn save(bytes: &[u8; RECORD_SIZE], page: &mut [u8], offset: usize) -> Result<(), Refusal>
    ensures answer { result ≡ save_answer bytes.now page.old offset }
    ensures page { page.new ≡ save_page bytes.now page.old offset }
{
    let chip = saved::load(bytes)?;
    saved::save(&chip, page, offset)
}

// ---- the time calls

/// Turns seven clock bytes into a time, in the mode of a register B byte. Refused as `times::decode` is.
pub fn decode(bytes: &[u8], mode: u8) -> Result<Time, Refusal>
    ensures { result ≡ decoded (mode_of mode) bytes.now }
{
    times::decode(bytes, Mode::of_register_b(mode))
}

/// Turns a time into seven clock bytes, in the mode of a register B byte. Refused as `times::encode` is, with zeros in the whole buffer.
pub fn encode(bytes: &mut [u8], seconds: u64, weekday: u32, mode: u8) -> Result<(), Refusal>
    ensures answer { result ≡ (encoded (mode_of mode) (time_by seconds weekday) bytes.old).answer }
    ensures bytes { bytes.new ≡ (encoded (mode_of mode) (time_by seconds weekday) bytes.old).bytes }
{
    times::encode(bytes, Time { weekday, seconds }, Mode::of_register_b(mode))
}

// ---- the words that C is told, which the C interface fixes: numbers packed into one another

/// The word of a refused call: the byte that it shows, and the refusal's number in bits 8 to 15.
fn refused_word(byte: u8, why: Refusal) -> u32
    ensures { result ≡ refused_word byte why }
{
    u32::from(byte) + 256 * u32::from(why.number())
}

/// The word of a read: its byte, or 255 where it is refused.
pub fn byte_word(answer: Result<u8, Refusal>) -> u32
    ensures { result ≡ byte_word answer }
{
    match answer {
        Ok(byte) => u32::from(byte),
        Err(why) => refused_word(255, why),
    }
}

/// The word of a call that has no byte.
pub fn answer_word(answer: Result<(), Refusal>) -> u32
    ensures { result ≡ answer_word answer }
{
    match answer {
        Ok(()) => 0,
        Err(why) => refused_word(0, why),
    }
}

/// The word of the lines: bit 0 is IRQ asserted, bit 1 is SQW high.
pub fn lines_word(answer: Result<Levels, Refusal>) -> u32
    ensures { result ≡ lines_word answer }
{
    match answer {
        Ok(levels) => u32::from(levels.irq) + 2 * u32::from(levels.sqw),
        Err(why) => refused_word(0, why),
    }
}

/// The word of a decode, of 64 bits: the seconds in bits 0 to 31, the weekday from bit 32 and the refusal's number from bit 40.
pub fn decoded_word(answer: Result<Time, Refusal>) -> u64
    ensures { result ≡ decoded_word answer }
{
    match answer {
        Ok(time) => time.seconds % (1 << 32) + (1 << 32) * u64::from(time.weekday % 256),
        Err(why) => (1 << 40) * u64::from(why.number()),
    }
}
