//! The archive that C links: the calls of the library mc146818 under their C names, with their answers as words. include/mc146818.h is the manual. They
//! stand here once more, since a crate is a library or a static library and not both.
#![tactic(auto)]

ghost use Rattle.std.specs.Prelude.{◌≡◌};
ghost use Rattle.chip.specs.Chips.{fresh};
ghost use Rattle.saved.specs.Record.{record_of};
ghost use Rattle.mc146818.specs.Words.{host_of};
ghost use Rattle.mc146818.specs.Calls.{read, write, run, pins, lines, load, save, decode, encode};

// ---- calls on a chip, which the host holds as 72 bytes of its own

/// Writes a fresh chip over whatever stood there.
#[unsafe(no_mangle)]
pub extern "C" fn mc146818_fresh(chip: &mut [u8; 72])
    ensures { chip.new ≡ record_of fresh }
{
    mc146818::fresh(chip);
}

/// Reads a location. A read may change the chip: one of C clears the flags, one of D sets VRT.
#[unsafe(no_mangle)]
#[tactic(auto, unfolding(mc146818::specs::Calls::read))]
pub extern "C" fn mc146818_read(chip: &mut [u8; 72], address: u32) -> u32
    ensures { host_of result chip.new ≡ read chip.old address }
{
    mc146818::byte_word(mc146818::read(chip, address))
}

/// Writes a byte to a location.
#[unsafe(no_mangle)]
#[tactic(auto, unfolding(mc146818::specs::Calls::write))]
pub extern "C" fn mc146818_write(chip: &mut [u8; 72], address: u32, value: u8) -> u32
    ensures { host_of result chip.new ≡ write chip.old address value }
{
    mc146818::answer_word(mc146818::write(chip, address, value))
}

/// Lets ticks pass.
#[unsafe(no_mangle)]
#[tactic(auto, unfolding(mc146818::specs::Calls::run))]
pub extern "C" fn mc146818_run(chip: &mut [u8; 72], ticks: u32) -> u32
    ensures { host_of result chip.new ≡ run chip.old ticks }
{
    mc146818::answer_word(mc146818::run(chip, ticks))
}

/// Sets both pins: bit 0 of the levels is RESET, bit 1 is PS; 1 is high.
#[unsafe(no_mangle)]
#[tactic(auto, unfolding(mc146818::specs::Calls::pins))]
pub extern "C" fn mc146818_pins(chip: &mut [u8; 72], levels: u32) -> u32
    ensures { host_of result chip.new ≡ pins chip.old levels }
{
    mc146818::answer_word(mc146818::pins(chip, levels))
}

/// Shows both output lines: bit 0 of the byte is IRQ asserted, bit 1 is SQW high.
#[unsafe(no_mangle)]
#[tactic(auto, unfolding(mc146818::specs::Calls::lines))]
pub extern "C" fn mc146818_lines(chip: &[u8; 72]) -> u32
    ensures { host_of result chip.now ≡ lines chip.now }
{
    mc146818::lines_word(mc146818::lines(chip))
}

// ---- the saved chip, which C passes as a pointer and a length

/// Replaces the chip by a saved one.
#[unsafe(no_mangle)]
#[tactic(auto, unfolding(mc146818::specs::Calls::load))]
pub extern "C" fn mc146818_load(chip: &mut [u8; 72], input: &[u8]) -> u32
    ensures { host_of result chip.new ≡ load chip.old input.now }
{
    mc146818::answer_word(mc146818::load(chip, input))
}

/// Writes the saved chip into a page, from an offset on.
#[unsafe(no_mangle)]
#[tactic(auto, unfolding(mc146818::specs::Calls::save))]
pub extern "C" fn mc146818_save(chip: &[u8; 72], page: &mut [u8], offset: usize) -> u32
    ensures { host_of result page.new ≡ save chip.now page.old offset }
{
    mc146818::answer_word(mc146818::save(chip, page, offset))
}

// ---- times, whose mode is that of a register B byte

/// Turns seven clock bytes into seconds and a weekday.
#[unsafe(no_mangle)]
#[tactic(auto, unfolding(mc146818::specs::Calls::decode))]
pub extern "C" fn mc146818_decode(bytes: &[u8], mode: u8) -> u64
    ensures { result ≡ decode bytes.now mode }
{
    mc146818::decoded_word(mc146818::decode(bytes, mode))
}

/// Turns seconds and a weekday into seven clock bytes.
#[unsafe(no_mangle)]
#[tactic(auto, unfolding(mc146818::specs::Calls::encode))]
pub extern "C" fn mc146818_encode(bytes: &mut [u8], seconds: u64, weekday: u32, mode: u8) -> u32
    ensures { host_of result bytes.new ≡ encode bytes.old seconds weekday mode }
{
    mc146818::answer_word(mc146818::encode(bytes, seconds, weekday, mode))
}
