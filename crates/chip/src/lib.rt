//! The chip, and every call on it but those of the saved record.
#![tactic(auto)]

ghost use Rattle.std.specs.Prelude.{◌≡◌, ◌<◌};
ghost use Rattle.chip.specs.Chips.{location, fresh, written, ticked};
ghost use Rattle.chip.specs.Calls.{read, write, run, pins, lines};

use refusals::Refusal;
use registers::{FIRST_OF_RAM, Regs};

/// The most ticks that one call of `run` makes.
pub const MOST_TICKS: u32 = 65_536;

/// The registers, and the user RAM at locations 14 to 63.
#[derive(Clone, Copy, Debug, PartialEq, Eq)]
pub struct Chip {
    /// Locations 0 to 13, and what stands at none.
    pub regs: Regs,
    /// Locations 14 to 63.
    pub ram: [u8; 50],
}

/// The levels of the two output lines.
#[derive(Clone, Copy, Debug, PartialEq, Eq)]
pub struct Levels {
    /// The interrupt line is asserted.
    pub irq: bool,
    /// The square wave is high.
    pub sqw: bool,
}

impl Chip {
    /// A fresh chip: A is hex 60, B hex 80 and every other location 0, with both pins high and the divider held.
    #[tactic(auto, unfolding(crate::specs::Chips::fresh))]
    pub fn fresh() -> Self
        ensures { result ≡ fresh }
    {
        Chip {
            regs: Regs::fresh(),
            ram: [0; 50],
        }
    }

    /// The byte that stands at a location.
    #[tactic(auto, using(crate::proofs::Laws::Locations::location_in_registers, crate::proofs::Laws::Locations::location_in_ram), unfolding(crate::specs::Chips::location, crate::specs::Chips::locations))]
    fn location(&self, address: u32) -> u8
        requires { address < 64 }
        ensures { result ≡ location self.now address }
    {
        // There is no `From<u32>` for `usize`; an address below 64 keeps its number.
        if address >= FIRST_OF_RAM {
            return self.ram[(address - FIRST_OF_RAM) as usize];
        }
        self.regs.register_bytes()[address as usize]
    }

    /// Reads the byte at an address from 0 to 63. A read may change the chip: one of C (12) clears the flags, one of D (13) sets VRT where PS is high.
    /// Refused with `Address`, `Reset` or `Window`, the first that applies; the chip then stays as it was.
    #[tactic(auto, using(registers::proofs::Laws::Access::open_is_below_64), unfolding(crate::specs::Calls::read))]
    pub fn read(&mut self, address: u32) -> Result<u8, Refusal>
        ensures answer { result ≡ (read self.old address).answer }
        ensures chip { self.new ≡ (read self.old address).chip }
    {
        self.regs.access(address)?;
        let byte = self.location(address);
        self.regs.after_read(address);
        Ok(byte)
    }

    /// Puts a byte at a location, with all that this brings about in the registers. The cast is as in `location`.
    #[tactic(auto, unfolding(crate::specs::Chips::written))]
    fn put(&mut self, address: u32, value: u8)
        requires { address < 64 }
        ensures { self.new ≡ written self.old address value }
    {
        if address >= FIRST_OF_RAM {
            self.ram[(address - FIRST_OF_RAM) as usize] = value;
        } else {
            self.regs.write(address, value);
        }
    }

    /// Writes a byte at an address from 0 to 63. Refused with `Address`, `Reset` or `Window`, then with `ReadOnly` at C (12) and D (13) and with
    /// `TestPattern` at A (10), the first that applies; the chip then stays as it was.
    #[tactic(auto, using(registers::proofs::Laws::Access::open_is_below_64, registers::proofs::Laws::Access::write_open_is_open), unfolding(crate::specs::Calls::write))]
    pub fn write(&mut self, address: u32, value: u8) -> Result<(), Refusal>
        ensures answer { result ≡ (write self.old address value).answer }
        ensures chip { self.new ≡ (write self.old address value).chip }
    {
        self.regs.write_access(address, value)?;
        self.put(address, value);
        Ok(())
    }

    /// Puts the pins RESET and PS at new levels; true is high. Never refused.
    #[tactic(auto, unfolding(crate::specs::Calls::pins))]
    pub fn set_pins(&mut self, reset: bool, ps: bool)
        ensures { self.new ≡ pins self.old reset ps }
    {
        self.regs.set_pins(reset, ps);
    }

    /// The levels of the interrupt line and the square wave.
    #[tactic(auto, unfolding(crate::specs::Calls::lines))]
    pub fn lines(&self) -> Levels
        ensures { result ≡ lines self.now }
    {
        Levels {
            irq: self.regs.irqf(),
            sqw: self.regs.sqw(),
        }
    }

    /// One tick of the selected base.
    pub fn tick(&mut self)
        ensures { self.new ≡ ticked self.old }
    {
        ticks::tick(&mut self.regs);
    }

    /// Makes a number of ticks, 0 to 65,536. More are refused with `Ticks`, and none is made.
    #[tactic(auto, using(crate::proofs::Laws::Run::ticks_work_on_registers), unfolding(crate::specs::Calls::run))]
    pub fn run(&mut self, count: u32) -> Result<(), Refusal>
        ensures answer { result ≡ (run self.old count).answer }
        ensures chip { self.new ≡ (run self.old count).chip }
    {
        if count > MOST_TICKS {
            return Err(Refusal::Ticks);
        }
        // Over the registers: `for _ in 0..count { self.tick() }` took up to 1.3 times as long.
        ticks::ticks(&mut self.regs, count);
        Ok(())
    }
}
