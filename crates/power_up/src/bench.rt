//! A chip on the bench: the calls that the firmware makes on it, and what it answers, shown on standard output. Nothing is promised here: what is shown
//! is compared.
use crate::map::*;
use chip::Chip;
use refusals::{Refusal, answer_number};
use std::ops::Range;
use std::{fmt, io};

/// What a read answers: its byte in hex, or the letter r and the number of its refusal.
#[derive(Clone, Copy)]
struct ReadAnswer(Result<u8, Refusal>);

impl fmt::Display for ReadAnswer {
    fn fmt<W: fmt::Write>(&self, f: &mut fmt::Formatter<W>) -> fmt::Result {
        match self.0 {
            Ok(byte) => write!(f, "{byte:02x}"),
            Err(why) => write!(f, "r{}", why.number()),
        }
    }
}

/// The 16 addresses from `first` on.
fn row(first: u8) -> Range<u32> {
    let first = u32::from(first);
    first..first + 16
}

/// The chip, and where its answers are shown.
#[derive(Drop)]
pub struct Bench<R> {
    pub rt: R,
    chip: Chip,
    /// The ticks since `start`.
    tick: u32,
}

impl<R: Print> Bench<R> {
    /// A bench with a fresh chip.
    pub fn new(rt: R) -> Self {
        Bench {
            rt,
            chip: Chip::fresh(),
            tick: 0,
        }
    }

    // ---- set-up, where the firmware does not look at the answers

    /// Puts a fresh chip on the bench, its divider held.
    pub fn fresh_chip(&mut self) {
        self.chip = Chip::fresh();
        self.tick = 0;
    }

    /// Puts a fresh chip on the bench, its divider held, and writes B.
    pub fn fresh_chip_with_b(&mut self, b: u8) {
        self.fresh_chip();
        self.set_up(REGISTER_B, b);
    }

    /// Writes a location.
    pub fn set_up(&mut self, address: u32, byte: u8) {
        let _ = self.chip.write(address, byte);
    }

    /// Writes A, and counts the ticks from here on.
    pub fn start(&mut self, a: u8) {
        self.set_up(REGISTER_A, a);
        self.tick = 0;
    }

    /// Sets the pins RESET and PS.
    pub fn set_pins(&mut self, reset: bool, ps: bool) {
        self.chip.set_pins(reset, ps);
    }

    /// Shows the levels that the pins RESET and PS get, and sets them.
    pub fn show_pins(&mut self, reset: bool, ps: bool) -> io::Result<()> {
        println!(self.rt; "RESET {}, PS {}", u8::from(reset), u8::from(ps))?;
        self.set_pins(reset, ps);
        Ok(())
    }

    // ---- reads and writes

    /// Writes a location, and shows 0 or the number of the refusal.
    pub fn put(&mut self, address: u32, byte: u8) -> io::Result<()> {
        let answer = self.chip.write(address, byte);
        print!(self.rt; "{}", answer_number(&answer))
    }

    fn read(&mut self, address: u32) -> ReadAnswer {
        ReadAnswer(self.chip.read(address))
    }

    /// Reads a location, and shows the byte or the refusal.
    fn get(&mut self, address: u32) -> io::Result<()> {
        let answer = self.read(address);
        print!(self.rt; " {answer}")
    }

    /// Reads the 16 locations from `first` on, and shows them on one line.
    pub fn get_row(&mut self, first: u8) -> io::Result<()> {
        print!(self.rt; "  {first:02x} ")?;
        for address in row(first) {
            self.get(address)?;
        }
        println!(self.rt)
    }

    /// Reads every location, and addresses at which there is none.
    pub fn get_all(&mut self) -> io::Result<()> {
        for first in ROWS {
            self.get_row(first)?;
        }
        print!(self.rt; "  xx ")?;
        for address in BEYOND {
            self.get(address)?;
        }
        println!(self.rt)
    }

    /// Writes every location, and addresses at which there is none, and shows the answers on one line.
    fn put_all<F: Fn(u32) -> u8>(&mut self, byte_for: F) -> io::Result<()>
        requires { F.IsAlwaysCallable byte_for }
    {
        for first in ROWS {
            print!(self.rt; " ")?;
            for address in row(first) {
                self.put(address, byte_for(address))?;
            }
        }
        print!(self.rt; " ")?;
        for address in BEYOND {
            self.put(address, byte_for(address))?;
        }
        println!(self.rt)
    }

    /// Writes one byte to every location, and reads all of them.
    pub fn fill(&mut self, byte: u8) -> io::Result<()> {
        print!(self.rt; "{byte:02x} to all:")?;
        self.put_all(|_| byte)?;
        self.get_all()
    }

    /// Writes to every location its own address, so that no two of them can be one, and reads all of them.
    pub fn fill_own(&mut self) -> io::Result<()> {
        print!(self.rt; "own address to all:")?;
        self.put_all(|address| address.to_le_bytes()[0])?;
        self.get_all()
    }

    /// Reads D twice.
    pub fn get_d_twice(&mut self) -> io::Result<()> {
        let first = self.read(REGISTER_D);
        let second = self.read(REGISTER_D);
        println!(self.rt; "  D: {first} {second}")
    }

    // ---- ticks

    /// Shows the seconds, A and C, and the lines as they are before C is read.
    fn look(&mut self) -> io::Result<()> {
        let seconds = self.read(SECONDS);
        let a = self.read(REGISTER_A);
        let levels = self.chip.lines();
        let irq = u8::from(levels.irq);
        let sqw = u8::from(levels.sqw);
        let c = self.read(REGISTER_C);
        println!(self.rt; "  seconds {seconds}  A {a}  IRQ {irq}  SQW {sqw}  C {c}")
    }

    /// Runs to each of some ticks, as counted from `start`, and looks. At a tick that is reached already it runs none.
    pub fn look_at(&mut self, ticks: &[u32]) -> io::Result<()> {
        for &tick in ticks {
            let _ = self.chip.run(tick.saturating_sub(self.tick));
            self.tick = tick;
            print!(self.rt; "  tick {tick}:")?;
            self.look()?;
        }
        Ok(())
    }

    /// Runs some ticks, and shows 0 or the number of the refusal.
    pub fn run(&mut self, ticks: u32) -> io::Result<()> {
        let answer = self.chip.run(ticks);
        println!(self.rt; "  {ticks} ticks: {}", answer_number(&answer))
    }

    /// Ticks one at a time, with a read of C after each, until a flag is up or the read is refused. Returns how many ticks it made, `most` at most: it is
    /// this number that is shown, also where no flag rose.
    fn until_flag(&mut self, most: u32) -> u32 {
        for made in 1..=most {
            self.chip.tick();
            let Ok(flags) = self.chip.read(REGISTER_C) else {
                return made;
            };
            if flags != 0 {
                return made;
            }
        }
        most
    }

    /// Shows after how many ticks the next flag is up.
    pub fn next_flag(&mut self) -> io::Result<()> {
        let ticks = self.until_flag(65_536);
        println!(self.rt; "  next flag after {ticks} ticks")
    }

    /// Shows the level of the square wave after each of 16 ticks.
    pub fn wave(&mut self) -> io::Result<()> {
        print!(self.rt; "  SQW ")?;
        for _ in 0..16 {
            self.chip.tick();
            let levels = self.chip.lines();
            print!(self.rt; "{}", u8::from(levels.sqw))?;
        }
        println!(self.rt)
    }
}
