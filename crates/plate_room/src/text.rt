//! The parts of a line as text: bytes, clocks, alarms, modes and times.
ghost use Rattle.std.specs.Prelude.{◌≡◌, ◌/◌, ◌%◌, ◌<◌, Some};
ghost use Rattle.std.specs.Str.{IsAscii};
ghost use Rattle.plate_room.specs.Text.{digit_of, clock_text, alarm_text};

use calendar::{Alarm, Clock};
use fields::{DataMode, HourMode, Mode};
use std::fmt;
use times::Time;

/// The hex digit of a number below 16, a letter in capitals.
fn digit(x: u8) -> u8
    requires { x < 16 }
    ensures { result ≡ digit_of x }
{
    if x < 10 {
        return 48 + x;
    }
    55 + x
}

/// The first digit of a byte.
fn high(byte: u8) -> u8
    ensures { result ≡ digit_of (byte / 16) }
{
    digit(byte / 16)
}

/// The second digit of a byte.
fn low(byte: u8) -> u8
    ensures { result ≡ digit_of (byte % 16) }
{
    digit(byte % 16)
}

/// The seven bytes of a clock in hex, in the order of the locations, apart by spaces. A function beside the `Display`, whose clause speaks only of a formatter that takes the text.
pub fn clock_text(clock: Clock) -> [u8; 20]
    ensures text { result ≡ clock_text clock }
    ensures ascii { IsAscii result }
{
    [
        high(clock.seconds),
        low(clock.seconds),
        b' ',
        high(clock.minutes),
        low(clock.minutes),
        b' ',
        high(clock.hours),
        low(clock.hours),
        b' ',
        high(clock.weekday),
        low(clock.weekday),
        b' ',
        high(clock.date),
        low(clock.date),
        b' ',
        high(clock.month),
        low(clock.month),
        b' ',
        high(clock.year),
        low(clock.year),
    ]
}

/// The three bytes of an alarm in hex, in the order of the locations, apart by spaces.
pub fn alarm_text(alarm: Alarm) -> [u8; 8]
    ensures text { result ≡ alarm_text alarm }
    ensures ascii { IsAscii result }
{
    [
        high(alarm.seconds),
        low(alarm.seconds),
        b' ',
        high(alarm.minutes),
        low(alarm.minutes),
        b' ',
        high(alarm.hours),
        low(alarm.hours),
    ]
}

/// The same bytes as text.
fn as_text(bytes: &[u8]) -> &str
    requires { IsAscii bytes.now }
    ensures { result.now ≡ bytes.now }
{
    str::from_utf8(bytes).unwrap()
}

/// A clock as `clock_text` has it.
#[derive(Clone, Copy)]
pub struct ClockText(pub Clock);

impl fmt::Display for ClockText {
    ghost output = { λ clock. Some (clock_text clock.0) };

    fn fmt<W: fmt::Write>(&self, f: &mut fmt::Formatter<W>) -> fmt::Result {
        f.write_str(as_text(&clock_text(self.0)))
    }
}

/// An alarm as `alarm_text` has it. A type beside `ClockText`, as specs/Text says what each writes.
#[derive(Clone, Copy)]
pub struct AlarmText(pub Alarm);

impl fmt::Display for AlarmText {
    ghost output = { λ alarm. Some (alarm_text alarm.0) };

    fn fmt<W: fmt::Write>(&self, f: &mut fmt::Formatter<W>) -> fmt::Result {
        f.write_str(as_text(&alarm_text(self.0)))
    }
}

/// A mode in words, in the width of the longest.
#[derive(Clone, Copy)]
pub struct ModeText(pub Mode);

impl fmt::Display for ModeText {
    fn fmt<W: fmt::Write>(&self, f: &mut fmt::Formatter<W>) -> fmt::Result {
        let data = match self.0.data {
            DataMode::Binary => "binary",
            DataMode::Bcd => "BCD",
        };
        let hours = match self.0.hours {
            HourMode::TwentyFour => "24-hour",
            HourMode::Twelve => "12-hour",
        };
        write!(f, "{data:<6}  {hours}")
    }
}

/// A time as its weekday and its seconds.
#[derive(Clone, Copy)]
pub struct TimeText(pub Time);

impl fmt::Display for TimeText {
    fn fmt<W: fmt::Write>(&self, f: &mut fmt::Formatter<W>) -> fmt::Result {
        write!(f, "weekday {}, seconds {}", self.0.weekday, self.0.seconds)
    }
}
