//! The saved chip: a chip as a record of 72 bytes, the rules that a record keeps, and a record inside a page.
#![tactic(auto)]

ghost use Rattle.std.specs.Prelude.{◌≡◌, length};
ghost use Rattle.saved.specs.Record.{flags_of, tail_of, record_of, divider_in, regs_in, chip_of};
ghost use Rattle.saved.specs.Rules.{seconds_bit_7_rule, no_test_pattern_rule, keeps_c, keeps_d, keeps_reset, count_by_base_rule, keeps_pending, keeps_spare, keeps_rules};
ghost use Rattle.saved.specs.Calls.{record_size, load, save};

use calendar::{Alarm, Clock};
use cases::is_on;
use chip::Chip;
use divider::Divider;
use refusals::Refusal;
use registers::Regs;

/// How many bytes a saved chip has.
pub const RECORD_SIZE: usize = 72;

// The bits of byte 67.

/// An update is pending.
const PENDING: u8 = 0x01;
/// The pin RESET is low.
const RESET_LOW: u8 = 0x02;
/// The pin PS is low.
const PS_LOW: u8 = 0x04;
/// This Sunday's repeated hour has been used.
const USED: u8 = 0x08;

// Plain functions: neither the bytes nor the chip's types are this crate's own, so that no `From` can stand here.

// ---- from a chip to bytes

/// Byte 67: an update pending, RESET low, PS low and the repeat used, from bit 0 up.
fn flags_of(regs: &Regs) -> u8
    ensures { result ≡ flags_of regs.now }
{
    u8::from(regs.pending) * PENDING
        + (u8::from(regs.resetlow) * RESET_LOW
            + (u8::from(regs.pslow) * PS_LOW + u8::from(regs.used) * USED))
}

/// Bytes 64 to 71: the count, low byte first, byte 67, and four zeros.
#[tactic(auto, unfolding(crate::specs::Record::tail_of))]
fn tail_of(regs: &Regs) -> [u8; 8]
    ensures { result ≡ tail_of regs.now }
{
    let [low, middle, high, _] = u32::from(regs.divider).to_le_bytes();
    [low, middle, high, flags_of(regs), 0, 0, 0, 0]
}

/// The record writer: fills a part of 72 bytes with the chip's record.
#[tactic(auto, unfolding(crate::specs::Record::record_of, chip::specs::Chips::locations))]
#[inline(always)] // Out of line, the bytes of a fresh chip would be put together at each call.
pub fn store(chip: &Chip, part: &mut [u8])
    requires { length part.old ≡ record_size }
    ensures { part.new ≡ record_of chip.now }
{
    // Copied first: out of the lent chip the compiled code would move the RAM byte by byte.
    let chip = *chip;
    let (registers, rest) = part.split_at_mut(14);
    let (ram, tail) = rest.split_at_mut(50);
    registers.copy_from_slice(&chip.regs.register_bytes());
    ram.copy_from_slice(&chip.ram);
    tail.copy_from_slice(&tail_of(&chip.regs));
}

// ---- from bytes to a chip

/// The divider whose count stands in bytes 64 to 66, low byte first.
#[tactic(auto, unfolding(crate::specs::Record::divider_in))]
fn divider_in(bytes: &[u8; RECORD_SIZE]) -> Divider
    ensures { result ≡ divider_in bytes.now }
{
    Divider::from(u32::from_le_bytes([bytes[64], bytes[65], bytes[66], 0]))
}

/// The registers in a record. UIP and IRQF are not taken from it, as a chip has them by their rules.
#[tactic(auto, unfolding(crate::specs::Record::regs_in))]
fn regs_in(bytes: &[u8; RECORD_SIZE]) -> Regs
    ensures { result ≡ regs_in bytes.now }
{
    let c = bytes[12];
    let flags = bytes[67];
    Regs {
        clock: Clock {
            seconds: bytes[0],
            minutes: bytes[2],
            hours: bytes[4],
            weekday: bytes[6],
            date: bytes[7],
            month: bytes[8],
            year: bytes[9],
        },
        alarm: Alarm {
            seconds: bytes[1],
            minutes: bytes[3],
            hours: bytes[5],
        },
        a: bytes[10] % 128,
        b: bytes[11],
        pf: is_on(c, registers::PF),
        af: is_on(c, registers::AF),
        uf: is_on(c, registers::UF),
        vrt: is_on(bytes[13], registers::VRT),
        divider: divider_in(bytes),
        pending: is_on(flags, PENDING),
        resetlow: is_on(flags, RESET_LOW),
        pslow: is_on(flags, PS_LOW),
        used: is_on(flags, USED),
    }
}

/// The chip in a record.
#[tactic(auto, unfolding(crate::specs::Record::chip_of))]
fn chip_of(bytes: &[u8; RECORD_SIZE]) -> Chip
    ensures { result ≡ chip_of bytes.now }
{
    let mut ram = [0; 50];
    ram.copy_from_slice(&bytes[14..64]);
    Chip {
        regs: regs_in(bytes),
        ram,
    }
}

// ---- the record rules, place by place; `&` and `|` make no branch, and a load makes all of these tests

/// Whether bit 7 of location 0 is 0.
fn seconds_keep(bytes: &[u8; RECORD_SIZE]) -> bool
    ensures { result ≡ seconds_bit_7_rule bytes.now }
{
    bytes[0] < 128
}

/// Whether the DV bits of location 10 are no test pattern.
fn dv_keeps(bytes: &[u8; RECORD_SIZE]) -> bool
    ensures { result ≡ no_test_pattern_rule bytes.now }
{
    !divider::is_test_pattern(registers::dv_of(bytes[10]))
}

/// Whether bits 0 to 3 of location 12, register C, are 0, and bit 7 is IRQF by its rule.
fn c_keeps(bytes: &[u8; RECORD_SIZE]) -> bool
    ensures { result ≡ keeps_c bytes.now }
{
    let c = bytes[12];
    let irqf = regs_in(bytes).irqf();
    (c % 16 == 0) & ((128 <= c) == irqf)
}

/// Whether bits 0 to 6 of location 13, register D, are 0, and with PS low the whole of it.
fn d_keeps(bytes: &[u8; RECORD_SIZE]) -> bool
    ensures { result ≡ keeps_d bytes.now }
{
    let d = bytes[13];
    let ps_low = is_on(bytes[67], PS_LOW);
    (d % 128 == 0) & (!ps_low | (d == 0))
}

/// Whether with RESET low the four enables in location 11, and the whole of location 12, are 0.
fn reset_keeps(bytes: &[u8; RECORD_SIZE]) -> bool
    ensures { result ≡ keeps_reset bytes.now }
{
    let reset_low = is_on(bytes[67], RESET_LOW);
    (!reset_low | (bytes[11] / 8 % 16 == 0)) & (!reset_low | (bytes[12] == 0))
}

/// Whether the count is one that the base in location 10 can have.
fn count_keeps(bytes: &[u8; RECORD_SIZE]) -> bool
    ensures { result ≡ count_by_base_rule bytes.now }
{
    divider_in(bytes).keeps_count(registers::base_of(bytes[10]))
}

/// Whether bit 7 of location 10 is the pending bit, and a pending update has SET 0, a base that runs, and a count below E.
fn pending_keeps(bytes: &[u8; RECORD_SIZE]) -> bool
    ensures { result ≡ keeps_pending bytes.now }
{
    let base = registers::base_of(bytes[10]);
    let pending = is_on(bytes[67], PENDING);
    let set = registers::set_on(bytes[11]);
    let runs = base.is_some();
    let before = divider_in(bytes).is_before_end(base);
    ((128 <= bytes[10]) == pending)
        & ((!pending | !set) & ((!pending | runs) & (!pending | before)))
}

/// Whether the upper bits of byte 67 and the four spare bytes are 0.
fn spare_keeps(bytes: &[u8; RECORD_SIZE]) -> bool
    ensures { result ≡ keeps_spare bytes.now }
{
    bytes[67] < 16 && bytes[68..] == [0; 4]
}

/// All of the rules, in the order of their places. Calls and no table of functions, since each rule has its own promise.
#[tactic(auto, unfolding(crate::specs::Rules::keeps_rules))]
fn keeps_rules(bytes: &[u8; RECORD_SIZE]) -> bool
    ensures { result ≡ keeps_rules bytes.now }
{
    seconds_keep(bytes)
        && dv_keeps(bytes)
        && c_keeps(bytes)
        && d_keeps(bytes)
        && reset_keeps(bytes)
        && count_keeps(bytes)
        && pending_keeps(bytes)
        && spare_keeps(bytes)
}

// ---- the calls

/// The chip that was saved as these bytes. Refused with `Length` where they are not 72, then with `Rules` where they break a record rule.
#[tactic(auto, unfolding(crate::specs::Calls::load))]
#[inline(always)] // Out of line, each call would copy the chip once more.
pub fn load(input: &[u8]) -> Result<Chip, Refusal>
    ensures { result ≡ load input.now }
{
    let bytes = input.as_array::<RECORD_SIZE>().ok_or(Refusal::Length)?;
    if !keeps_rules(bytes) {
        return Err(Refusal::Rules);
    }
    Ok(chip_of(bytes))
}

/// Writes the chip's record at an offset inside a page, and no other byte of it. Page and offset stay two: the middle part is lent from here. Refused with `Length` where the page ends before the record would; it
/// then stays as it was.
#[tactic(auto, using(crate::proofs::Laws::Parts::part_comes_back), unfolding(crate::specs::Calls::save))]
pub fn save(chip: &Chip, page: &mut [u8], offset: usize) -> Result<(), Refusal>
    ensures answer { result ≡ (save chip.now page.old offset).answer }
    ensures page { page.new ≡ (save chip.now page.old offset).page }
{
    // The room left of the page, and not the record's end, is compared: a large offset makes no sum wrap.
    if page.len() < RECORD_SIZE || page.len() - RECORD_SIZE < offset {
        return Err(Refusal::Length);
    }
    store(chip, &mut page[offset..offset + RECORD_SIZE]);
    Ok(())
}
