//! What the platesetter's firmware does at power-up, and what the chip answers.
#![tactic(auto)]

mod bench;
mod map;

use bench::Bench;
use map::*;
use std::io;

fn main(rt: HostRuntime) -> io::Result<()> {
    let mut bench = Bench::new(&rt);
    bench.locations()?;
    bench.reset()?;
    bench.power_sense()?;
    bench.updates()?;
    bench.no_updates()?;
    bench.periodic()?;
    bench.alarm()?;
    bench.square_wave()
}

impl<R: Print> Bench<R> {
    // ---- every location

    fn locations(&mut self) -> io::Result<()> {
        println!(self.rt; "Every location of a fresh chip")?;
        self.get_all()?;
        for byte in [0x00, 0x55, 0xAA, 0xFF, 0x26, 0x06] {
            self.fill(byte)?;
        }
        // SET goes up here, as it did not at the first FF: UIE stays 0.
        self.fill(0xFF)?;
        self.fill_own()
    }

    // ---- the pins

    /// On the chip as `locations` leaves it, all is refused while RESET is low. After it the enables are 0 and the rest is as it was.
    fn reset(&mut self) -> io::Result<()> {
        println!(self.rt; "\nRESET on a chip with all enables on")?;
        self.set_up(REGISTER_B, PIE | AIE | UIE | SQWE | DM | HOURS_24);
        self.get_row(0)?;
        self.show_pins(LOW, HIGH)?;
        self.fill(0x55)?;
        self.show_pins(HIGH, HIGH)?;
        self.get_all()
    }

    fn power_sense(&mut self) -> io::Result<()> {
        println!(self.rt; "\nPower sense and VRT on a fresh chip, D read twice")?;
        self.fresh_chip();
        self.get_d_twice()?;
        self.show_pins(HIGH, LOW)?;
        self.get_d_twice()?;
        self.show_pins(HIGH, HIGH)?;
        self.get_d_twice()
    }

    // ---- ticks

    /// The first two updates after release, and the closed window before each.
    fn updates(&mut self) -> io::Result<()> {
        println!(self.rt; "\n32.768 kHz from release, SET 0")?;
        self.fresh_chip_with_b(HOURS_24);
        self.start(BASE_32_768_HZ);
        self.look_at(&[16_383, 16_384, 16_391, 16_392])?;
        self.put_in_window()?;
        self.look_at(&[16_456, 16_457, 49_152, 49_224, 49_225])?;
        println!(self.rt; "tick by tick")?;
        self.fresh_chip_with_b(HOURS_24);
        self.start(BASE_32_768_HZ);
        self.next_flag()?;
        self.next_flag()
    }

    /// Writes the first and the last clock location, A and a RAM location.
    fn put_in_window(&mut self) -> io::Result<()> {
        print!(self.rt; "  writes to 00 09 0a 0e: ")?;
        self.put(SECONDS, 0x30)?;
        self.put(YEAR, 0x79)?;
        self.put(REGISTER_A, BASE_32_768_HZ)?;
        self.put(FIRST_OF_RAM, 0xA5)?;
        println!(self.rt)
    }

    /// The held divider stands still, and SET 1 lets no update begin.
    fn no_updates(&mut self) -> io::Result<()> {
        println!(self.rt; "\nDivider held, then SET 1")?;
        self.fresh_chip_with_b(HOURS_24);
        self.look_at(&[65_536])?;
        self.set_up(REGISTER_B, SET | HOURS_24);
        self.start(BASE_32_768_HZ);
        self.look_at(&[16_457])
    }

    /// Runs on the slowest base to the wrap, where an update becomes pending, and goes over to the fastest base at count 0. There PF is the next flag;
    /// a run of too many ticks makes none.
    fn periodic(&mut self) -> io::Result<()> {
        println!(self.rt; "\n32.768 kHz to count 0")?;
        self.fresh_chip_with_b(HOURS_24);
        self.start(BASE_32_768_HZ);
        self.look_at(&[16_384])?;
        println!(self.rt; "4.194304 MHz, rate 1: the pending update is dropped")?;
        self.start(BASE_4_194_304_HZ | 1);
        self.look_at(&[0])?;
        self.next_flag()?;
        self.next_flag()?;
        self.run(65_537)?;
        self.next_flag()?;
        self.next_flag()
    }

    // ---- interrupts and the square wave

    /// An alarm at second 02 of any minute, first with AIE, then with UIE.
    fn alarm(&mut self) -> io::Result<()> {
        println!(self.rt; "\nAlarm at second 02, AIE")?;
        self.fresh_chip_with_b(AIE | HOURS_24);
        self.set_up(SECONDS_ALARM, 0x02);
        // An alarm byte from C0 to FF matches whatever the clock says.
        self.set_up(MINUTES_ALARM, 0xC0);
        self.set_up(HOURS_ALARM, 0xFF);
        self.start(BASE_32_768_HZ);
        self.look_at(&[16_457, 49_225, 49_225])?;
        println!(self.rt; "UIE")?;
        self.set_up(REGISTER_B, UIE | HOURS_24);
        self.look_at(&[81_993])?;
        println!(self.rt; "RESET low for one update")?;
        self.set_pins(LOW, HIGH);
        self.look_at(&[114_761])?;
        self.set_pins(HIGH, HIGH);
        self.look_at(&[114_761])
    }

    fn square_wave(&mut self) -> io::Result<()> {
        println!(self.rt; "\nSquare wave on 32.768 kHz: rate 3, rate 4, rate 0, SQWE 0")?;
        self.fresh_chip_with_b(SQWE | HOURS_24);
        for rate in [3, 4, 0] {
            self.set_up(REGISTER_A, BASE_32_768_HZ | rate);
            self.wave()?;
        }
        self.set_up(REGISTER_A, BASE_32_768_HZ | 3);
        self.set_up(REGISTER_B, HOURS_24);
        self.wave()
    }
}
