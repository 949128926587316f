//! The registers: what stands at locations 0 to 13, who may read or write them when, and the two lines.
#![tactic(auto)]

ghost use Rattle.std.specs.Prelude.{◌≡◌, ◌&&◌, cond};
ghost use Rattle.registers.specs.Bits.{dv_of, base_of, rate_of, set_on};
ghost use Rattle.registers.specs.Lines.{irqf, sqw};
ghost use Rattle.registers.specs.Locations.{register_a, register_c, register_bytes};
ghost use Rattle.registers.specs.Access.{closed, access, write_access};
ghost use Rattle.registers.specs.With.{with_flags};
ghost use Rattle.registers.specs.Calls.{fresh, after_read, write_a, set_rises, write_b, write_plain, written, with_pins};

use calendar::{Alarm, Clock};
use cases::is_on;
use divider::{Base, Divider};
use refusals::Refusal;

// The map of locations. They are numbers and no enum, since a host passes any number as an address.

/// The last of the clock's and the alarm's locations, which begin at 0.
pub const LAST_OF_CLOCK: u32 = 9;
/// Register A.
pub const REGISTER_A: u32 = 10;
/// Register B.
pub const REGISTER_B: u32 = 11;
/// Register C.
pub const REGISTER_C: u32 = 12;
/// Register D.
pub const REGISTER_D: u32 = 13;
/// The first location of the user RAM.
pub const FIRST_OF_RAM: u32 = 14;
/// The last location, of the user RAM too.
pub const LAST_OF_RAM: u32 = 63;

// Register B, bits 7 to 3 and 0; bits 2 and 1 are the mode.

/// SET: 1 lets no update begin.
pub const SET: u8 = 0x80;
/// PIE: PF interrupts.
pub const PIE: u8 = 0x40;
/// AIE: AF interrupts.
pub const AIE: u8 = 0x20;
/// UIE: UF interrupts.
pub const UIE: u8 = 0x10;
/// SQWE: lets the square wave out.
pub const SQWE: u8 = 0x08;
/// DSE: daylight saving.
pub const DSE: u8 = 0x01;

// Bit 7 of register A, and the bits of C and D.

/// UIP: an update is pending.
pub const UIP: u8 = 0x80;
/// IRQF: a flag and its enable are both 1.
pub const IRQF: u8 = 0x80;
/// PF: the periodic flag.
pub const PF: u8 = 0x40;
/// AF: the alarm flag.
pub const AF: u8 = 0x20;
/// UF: the update-ended flag.
pub const UF: u8 = 0x10;
/// VRT: valid RAM and time.
pub const VRT: u8 = 0x80;

/// All of the chip but its user RAM. Register A is kept without UIP, and C and D as their bits, so that UIP and IRQF are what their rules say at every
/// moment.
#[derive(Clone, Copy, Debug, PartialEq, Eq)]
pub struct Regs {
    /// The clock bytes: locations 0, 2, 4 and 6 to 9.
    pub clock: Clock,
    /// The alarm bytes: locations 1, 3 and 5.
    pub alarm: Alarm,
    /// DV and rate bits of register A.
    pub a: u8,
    /// Register B.
    pub b: u8,
    /// PF, the periodic flag, bit 6 of register C.
    pub pf: bool,
    /// AF, the alarm flag, bit 5 of register C.
    pub af: bool,
    /// UF, the update-ended flag, bit 4 of register C.
    pub uf: bool,
    /// VRT, bit 7 of register D.
    pub vrt: bool,
    /// The divider's count.
    pub divider: Divider,
    /// An update is pending, which UIP shows.
    pub pending: bool,
    /// The pin RESET is low.
    pub resetlow: bool,
    /// The pin PS is low.
    pub pslow: bool,
    /// This Sunday's repeated hour has been used.
    pub used: bool,
}

/// DV2 to DV0, bits 6 to 4 of a register A byte. A number and no `Base`: the byte may hold a test pattern, which a write refuses.
pub fn dv_of(a: u8) -> u8
    ensures { result ≡ dv_of a }
{
    a / 16 % 8
}

/// The base that a register A byte selects, if the divider runs with it.
pub fn base_of(a: u8) -> Option<Base>
    ensures { result ≡ base_of a }
{
    Base::selected(dv_of(a))
}

/// The rate, bits 3 to 0 of a register A byte. A number: the tap lies five bits above it, and 0 selects none.
pub fn rate_of(a: u8) -> u8
    ensures { result ≡ rate_of a }
{
    a % 16
}

/// SET, bit 7 of a register B byte.
pub fn set_on(b: u8) -> bool
    ensures { result ≡ set_on b }
{
    is_on(b, SET)
}

/// A bit of a register at its place: the place where it is on, else 0.
fn placed(on: bool, place: u8) -> u8
    ensures { result ≡ cond on place 0 }
{
    u8::from(on) * place
}

impl Regs {
    /// The registers of a fresh chip: A is hex 60 and B hex 80, the rest 0; both pins are high and nothing is pending.
    #[tactic(auto, unfolding(crate::specs::Calls::fresh))]
    pub fn fresh() -> Self
        ensures { result ≡ fresh }
    {
        Regs {
            clock: Clock::default(),
            alarm: Alarm::default(),
            a: 0x60,
            b: 0x80,
            pf: false,
            af: false,
            uf: false,
            vrt: false,
            divider: Divider::fresh(),
            pending: false,
            resetlow: false,
            pslow: false,
            used: false,
        }
    }

    /// The base on which the divider runs, if it runs.
    pub fn base(&self) -> Option<Base>
        ensures { result ≡ base_of self.now.a }
    {
        base_of(self.a)
    }

    // ---- the lines

    /// IRQF, and with it the interrupt line: asserted where a flag and its enable are both 1.
    #[tactic(auto, unfolding(crate::specs::Lines::irqf))]
    pub fn irqf(&self) -> bool
        ensures { result ≡ irqf self.now }
    {
        (is_on(self.b, PIE) && self.pf)
            || ((is_on(self.b, AIE) && self.af) || (is_on(self.b, UIE) && self.uf))
    }

    /// Whether the square wave is high: with SQWE 1, where the bit of the count that the rate selects is 1.
    #[tactic(auto, unfolding(crate::specs::Lines::sqw))]
    pub fn sqw(&self) -> bool
        ensures { result ≡ sqw self.now }
    {
        is_on(self.b, SQWE) && self.divider.wave(self.base(), rate_of(self.a))
    }

    // ---- the locations

    /// Register A as it is read, with UIP in bit 7.
    #[tactic(auto, using(crate::proofs::Laws::Bits::placed_at_most))]
    fn register_a(&self) -> u8
        ensures { result ≡ register_a self.now }
    {
        placed(self.pending, UIP) + self.a % 128
    }

    /// Register C: IRQF, PF, AF and UF, from bit 7 down.
    #[tactic(auto, using(crate::proofs::Laws::Bits::placed_at_most))]
    fn register_c(&self) -> u8
        ensures { result ≡ register_c self.now }
    {
        let flags = placed(self.pf, PF) + (placed(self.af, AF) + placed(self.uf, UF));
        placed(self.irqf(), IRQF) + flags
    }

    /// The bytes at locations 0 to 13: clock and alarm in turns, then A to D. Like A and C above no `From`: the name says which bytes they are.
    #[tactic(auto, unfolding(crate::specs::Locations::register_bytes))]
    pub fn register_bytes(&self) -> [u8; 14]
        ensures { result ≡ register_bytes self.now }
    {
        let clock = self.clock;
        let alarm = self.alarm;
        [
            clock.seconds,
            alarm.seconds,
            clock.minutes,
            alarm.minutes,
            clock.hours,
            alarm.hours,
            clock.weekday,
            clock.date,
            clock.month,
            clock.year,
            self.register_a(),
            self.b,
            self.register_c(),
            placed(self.vrt, VRT),
        ]
    }

    // ---- access

    /// Whether an update is in its closed window.
    fn is_closed(&self) -> bool
        ensures { result ≡ closed self.now }
    {
        self.pending && self.divider.is_in_window(self.base())
    }

    /// What a read and a write both ask: refused with `Address` above 63, with `Reset` while RESET is low, and with `Window` at 0 to 9 in the closed
    /// window, the first of these that applies.
    #[tactic(auto, unfolding(crate::specs::Access::access))]
    pub fn access(&self, address: u32) -> Result<(), Refusal>
        ensures { result ≡ access self.now address }
    {
        if address > LAST_OF_RAM {
            return Err(Refusal::Address);
        }
        if self.resetlow {
            return Err(Refusal::Reset);
        }
        if address <= LAST_OF_CLOCK && self.is_closed() {
            return Err(Refusal::Window);
        }
        Ok(())
    }

    /// What a write asks: what a read asks; then it is refused with `ReadOnly` at 12 and 13, and with `TestPattern` at 10 with divider bits 011, 100 or 101.
    #[tactic(auto, unfolding(crate::specs::Access::write_access))]
    pub fn write_access(&self, address: u32, value: u8) -> Result<(), Refusal>
        ensures { result ≡ write_access self.now address value }
    {
        self.access(address)?;
        if address == REGISTER_C || address == REGISTER_D {
            return Err(Refusal::ReadOnly);
        }
        if address == REGISTER_A && divider::is_test_pattern(dv_of(value)) {
            return Err(Refusal::TestPattern);
        }
        Ok(())
    }

    // ---- what the calls leave

    /// Clears PF, AF and UF, unless they are to be kept.
    fn keep_flags(&mut self, kept: bool)
        ensures { self.new ≡ with_flags self.old (self.old.pf && kept) (self.old.af && kept) (self.old.uf && kept) }
    {
        self.pf &= kept;
        self.af &= kept;
        self.uf &= kept;
    }

    /// The effect of an accepted read: one of C clears its flags, one of D sets VRT where PS is high, any other has none.
    #[tactic(auto, unfolding(crate::specs::Calls::after_read))]
    pub fn after_read(&mut self, address: u32)
        ensures { self.new ≡ after_read self.old address }
    {
        self.keep_flags(address != REGISTER_C);
        self.vrt |= (address == REGISTER_D) & !self.pslow;
    }

    /// A write to A: other DV bits drop a pending update and put the divider on its new base.
    #[tactic(auto, unfolding(crate::specs::Calls::write_a))]
    fn write_a(&mut self, value: u8)
        ensures { self.new ≡ write_a self.old value }
    {
        let is_same = dv_of(value) == dv_of(self.a);
        self.a = value % 128;
        self.pending &= is_same;
        if !is_same {
            self.divider.start(base_of(value));
        }
    }

    /// Whether a register B byte turns SET from 0 to 1.
    fn set_rises(&self, value: u8) -> bool
        ensures { result ≡ set_rises self.now value }
    {
        set_on(value) && !set_on(self.b)
    }

    /// A write to B: SET going from 0 to 1 drops a pending update and stores UIE as 0.
    #[tactic(auto, unfolding(crate::specs::Calls::write_b))]
    fn write_b(&mut self, value: u8)
        ensures { self.new ≡ write_b self.old value }
    {
        if self.set_rises(value) {
            self.pending = false;
            self.b = value / 32 * 32 + value % 16;
        } else {
            self.b = value;
        }
    }

    /// A write to a clock or alarm location, to location 0 without bit 7; any other address leaves all as it is.
    // The locations are numbers here, each of which stands once, beside its field.
    #[tactic(auto, unfolding(crate::specs::Calls::write_plain))]
    fn write_plain(&mut self, address: u32, value: u8)
        ensures { self.new ≡ write_plain self.old address value }
    {
        match address {
            0 => self.clock.seconds = value % 128,
            1 => self.alarm.seconds = value,
            2 => self.clock.minutes = value,
            3 => self.alarm.minutes = value,
            4 => self.clock.hours = value,
            5 => self.alarm.hours = value,
            6 => self.clock.weekday = value,
            7 => self.clock.date = value,
            8 => self.clock.month = value,
            9 => self.clock.year = value,
            _ => {}
        }
    }

    /// An accepted write to a location; user RAM is not here, and so stays.
    #[tactic(auto, unfolding(crate::specs::Calls::written))]
    pub fn write(&mut self, address: u32, value: u8)
        ensures { self.new ≡ written self.old address value }
    {
        match address {
            REGISTER_A => self.write_a(value),
            REGISTER_B => self.write_b(value),
            _ => self.write_plain(address, value),
        }
    }

    /// The pins at new levels; true is high. Two levels and no struct: each is a pin by the data sheet's name. RESET low takes bits 6 to 3 out of B and clears every flag; PS low clears VRT.
    #[tactic(auto, unfolding(crate::specs::Calls::with_pins))]
    pub fn set_pins(&mut self, reset: bool, ps: bool)
        ensures { self.new ≡ with_pins self.old reset ps }
    {
        if !reset {
            self.b = self.b / 128 * 128 + self.b % 8;
        }
        self.keep_flags(reset);
        self.vrt &= ps;
        self.resetlow = !reset;
        self.pslow = !ps;
    }
}
