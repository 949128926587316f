//! The plate room's examples, as lines that the print shop can hold against its notes.
#![tactic(auto)]

mod text;

ghost use Rattle.std.specs.Prelude.{◌≡◌};
ghost use Rattle.times.specs.Times.{seconds_on};
ghost use Rattle.plate_room.specs.Walk.{date_moves};

use calendar::{Alarm, Clock};
use fields::{DataMode, HourMode, Mode};
use std::{fmt, io};
use text::{AlarmText, ClockText, ModeText, TimeText};
use times::Time;

/// BCD, 24 hours.
const BCD_24: Mode = Mode {
    data: DataMode::Bcd,
    hours: HourMode::TwentyFour,
};

/// BCD, 12 hours.
const BCD_12: Mode = Mode {
    data: DataMode::Bcd,
    hours: HourMode::Twelve,
};

/// Binary, 24 hours.
const BINARY_24: Mode = Mode {
    data: DataMode::Binary,
    hours: HourMode::TwentyFour,
};

/// One update without daylight saving: the ends of days, months and years, the hours of a twelve-hour clock, and the seconds in both data modes.
#[rattlefmt::skip]
const UPDATES: [(&str, Mode, [u8; 7]); 10] = [
    ("Year's end", BCD_24, [0x59, 0x59, 0x23, 0x06, 0x31, 0x12, 0x99]),
    ("28 February, year 00", BINARY_24, [0x3B, 0x3B, 0x17, 0x02, 0x1C, 0x02, 0x00]),
    ("28 February, year 01", BINARY_24, [0x3B, 0x3B, 0x17, 0x04, 0x1C, 0x02, 0x01]),
    ("11 PM, date moves", BCD_12, [0x59, 0x59, 0x91, 0x05, 0x15, 0x02, 0x79]),
    ("11 AM, date stays", BCD_12, [0x59, 0x59, 0x11, 0x05, 0x15, 0x02, 0x79]),
    ("12 AM, date stays", BCD_12, [0x59, 0x59, 0x12, 0x05, 0x15, 0x02, 0x79]),
    ("12 PM, date stays", BCD_12, [0x59, 0x59, 0x92, 0x05, 0x15, 0x02, 0x79]),
    ("Seconds 09", BCD_24, [0x09, 0x58, 0x05, 0x05, 0x15, 0x02, 0x79]),
    ("Seconds 09", BINARY_24, [0x09, 0x3A, 0x05, 0x05, 0x0F, 0x02, 0x4F]),
    ("Seconds 3C", BINARY_24, [0x3C, 0x3A, 0x05, 0x05, 0x0F, 0x02, 0x4F]),
];

/// What the stand-in before this one got wrong: it moved the date at one as well. Each with a number of updates.
#[rattlefmt::skip]
const WALKS: [(&str, [u8; 7], u32); 4] = [
    ("Midnight", [0x59, 0x59, 0x91, 0x05, 0x15, 0x02, 0x79], 1),
    ("One o'clock", [0x59, 0x59, 0x12, 0x06, 0x16, 0x02, 0x79], 1),
    ("Midnight to one", [0x59, 0x59, 0x91, 0x05, 0x15, 0x02, 0x79], 3601),
    ("Noon to one", [0x59, 0x59, 0x11, 0x05, 0x15, 0x02, 0x79], 3601),
];

/// The two daylight changes, one after the other: each row has the mark of the repeated hour that the row before left.
#[rattlefmt::skip]
const CHANGES: [(&str, [u8; 7]); 5] = [
    ("DSE, 26 April", [0x59, 0x59, 0x01, 0x01, 0x26, 0x04, 0x81]),
    ("DSE, 23 April", [0x59, 0x59, 0x01, 0x01, 0x23, 0x04, 0x78]),
    ("DSE, October, first", [0x59, 0x59, 0x01, 0x01, 0x25, 0x10, 0x81]),
    ("DSE, October, again", [0x59, 0x59, 0x01, 0x01, 0x25, 0x10, 0x81]),
    ("DSE, October, midnight", [0x59, 0x59, 0x23, 0x01, 0x25, 0x10, 0x81]),
];

/// Alarm bytes that match any byte or one byte, and the time that they are held against.
#[rattlefmt::skip]
const ALARMS: [(&str, Alarm, [u8; 7]); 4] = [
    ("Alarm C0", Alarm { seconds: 0x21, minutes: 0xC0, hours: 0x05 }, [0x20, 0x58, 0x05, 0x05, 0x15, 0x02, 0x79]),
    ("Alarm BF", Alarm { seconds: 0x21, minutes: 0xBF, hours: 0x05 }, [0x20, 0x58, 0x05, 0x05, 0x15, 0x02, 0x79]),
    ("Alarm BF at a BF", Alarm { seconds: 0x21, minutes: 0xBF, hours: 0x05 }, [0x20, 0xBF, 0x05, 0x05, 0x15, 0x02, 0x79]),
    ("Alarm at the old time", Alarm { seconds: 0x20, minutes: 0x58, hours: 0x05 }, [0x20, 0x58, 0x05, 0x05, 0x15, 0x02, 0x79]),
];

/// Seven bytes that are turned into a time, or refused.
#[rattlefmt::skip]
const DECODES: [(&str, [u8; 7]); 3] = [
    ("15 February 79", [0x21, 0x58, 0x05, 0x05, 0x15, 0x02, 0x79]),
    ("Seconds 0A", [0x0A, 0x58, 0x05, 0x05, 0x15, 0x02, 0x79]),
    ("30 February 79", [0x21, 0x58, 0x05, 0x05, 0x30, 0x02, 0x79]),
];

/// Times that are turned into seven bytes, or refused.
#[rattlefmt::skip]
const ENCODES: [(&str, Time); 3] = [
    ("15 February 79", Time { weekday: 5, seconds: 2_496_981_501 }),
    ("Weekday 8", Time { weekday: 8, seconds: 2_496_981_501 }),
    ("A second too late", Time { weekday: 5, seconds: 3_155_760_000 }),
];

/// What a number of updates leads to, and how often the date moved on the way.
#[derive(Clone, Copy)]
struct Walked {
    clock: Clock,
    moves: u32,
}

/// What a line says after the bytes.
#[derive(Clone, Copy)]
enum Note {
    /// Nothing more.
    Nothing,
    /// The mark of the repeated hour.
    Repeat { used: bool },
    /// The alarm's bytes, and whether they match.
    Alarm { alarm: Alarm, matched: bool },
    /// The number of updates, and how often the date moved.
    Walk { turns: u32, moves: u32 },
}

impl fmt::Display for Note {
    fn fmt<W: fmt::Write>(&self, f: &mut fmt::Formatter<W>) -> fmt::Result {
        match *self {
            Note::Nothing => Ok(()),
            Note::Repeat { used: true } => f.write_str("  repeat used"),
            Note::Repeat { used: false } => f.write_str("  repeat not used"),
            Note::Alarm { alarm, matched } => {
                let verb = if matched { "matches" } else { "does not match" };
                write!(f, "  alarm {} {verb}", AlarmText(alarm))
            }
            Note::Walk { turns, moves } => write!(f, "  updates: {turns}, date moves: {moves}"),
        }
    }
}

/// Writes the line of an example: its name, the mode, the clock before and after, and a note.
fn show(
    rt: &impl Print,
    name: &str,
    mode: Mode,
    before: Clock,
    after: Clock,
    note: Note,
) -> io::Result<()> {
    println!(rt;
        "{name:<22}  {}  {} -> {}{note}",
        ModeText(mode),
        ClockText(before),
        ClockText(after)
    )
}

/// A number of updates, daylight saving apart.
#[tactic(auto, unfolding(times::specs::Times::seconds_on, calendar::specs::Advance::ordinary, crate::specs::Walk::date_moves))]
fn walk(mode: Mode, start: Clock, turns: u32) -> Walked
    ensures clock { result.clock ≡ seconds_on mode turns start }
    ensures moves { result.moves ≡ date_moves mode turns start }
{
    let mut clock = start;
    let mut moves = 0;
    for _ in 0..turns {
        let next = clock.ordinary(mode, false).clock;
        // The date alone is counted, and no two clocks compared.
        moves += u32::from(clock.date != next.date);
        clock = next;
    }
    Walked { clock, moves }
}

/// Single updates without daylight saving.
fn updates(rt: &impl Print) -> io::Result<()> {
    for (name, mode, bytes) in UPDATES {
        let before = Clock::from(bytes);
        let after = before.advanced(mode, false, false).clock;
        show(rt, name, mode, before, after, Note::Nothing)?;
    }
    Ok(())
}

/// Walks of many updates, and how often the date moved.
fn walks(rt: &impl Print) -> io::Result<()> {
    for (name, bytes, turns) in WALKS {
        let before = Clock::from(bytes);
        let Walked { clock, moves } = walk(BCD_12, before, turns);
        show(rt, name, BCD_12, before, clock, Note::Walk { turns, moves })?;
    }
    Ok(())
}

/// Updates with daylight saving, and the mark of the repeated hour after each.
fn changes(rt: &impl Print) -> io::Result<()> {
    let mut used = false;
    for (name, bytes) in CHANGES {
        let before = Clock::from(bytes);
        let after = before.advanced(BCD_24, true, used);
        used = after.used;
        show(rt, name, BCD_24, before, after.clock, Note::Repeat { used })?;
    }
    Ok(())
}

/// Updates with an alarm.
fn alarms(rt: &impl Print) -> io::Result<()> {
    for (name, alarm, bytes) in ALARMS {
        let before = Clock::from(bytes);
        let after = before.updated(BCD_24, false, false, alarm);
        let note = Note::Alarm {
            alarm,
            matched: after.matched,
        };
        show(rt, name, BCD_24, before, after.clock, note)?;
    }
    Ok(())
}

/// Bytes as times; where they are refused, the weekday and the seconds are shown as 0.
fn decodes(rt: &impl Print) -> io::Result<()> {
    let mode = ModeText(BCD_24);
    for (name, bytes) in DECODES {
        let answer = times::decode(&bytes, BCD_24);
        let number = refusals::answer_number(&answer);
        let before = ClockText(Clock::from(bytes));
        let time = TimeText(answer.unwrap_or_default());
        println!(rt; "{name:<22}  {mode}  {before} -> answer {number}, {time}")?;
    }
    Ok(())
}

/// Times as bytes. They start as FF, so that zeros in them were written.
fn encodes(rt: &impl Print) -> io::Result<()> {
    let mode = ModeText(BCD_24);
    for (name, time) in ENCODES {
        let mut bytes = [0xFF; 7];
        let answer = times::encode(&mut bytes, time, BCD_24);
        let number = refusals::answer_number(&answer);
        let time = TimeText(time);
        let after = ClockText(Clock::from(bytes));
        println!(rt; "{name:<22}  {mode}  {time} -> answer {number}, {after}")?;
    }
    Ok(())
}

fn main(rt: HostRuntime) -> io::Result<()> {
    println!(rt; "Bytes in hex: seconds minutes hours weekday date month year")?;
    updates(&rt)?;
    walks(&rt)?;
    changes(&rt)?;
    alarms(&rt)?;
    decodes(&rt)?;
    encodes(&rt)
}
