//! The seven clock bytes and their update: the month's end, one second on, the two daylight changes, and the alarm.
#![tactic(auto)]

ghost use Rattle.std.specs.Prelude.{◌≡◌, ◌<◌, ◌≤◌};
ghost use Rattle.calendar.specs.Bytes.{clock_at, bytes_of};
ghost use Rattle.calendar.specs.Days.{is_leap, last_day, last_day_of};
ghost use Rattle.calendar.specs.Advance.{ordinary};
ghost use Rattle.calendar.specs.Daylight.{at_change, in_days, springs, repeats, at_hour, advance};
ghost use Rattle.calendar.specs.Update.{matches_byte, alarm_matches, update};

use fields::{DataMode, Mode};

/// The clock's locations 0, 2, 4, 6, 7, 8 and 9, as raw bytes: any byte may stand in any field, and what is said of each is the mode's byte for
/// such a number.
#[derive(Clone, Copy, Debug, Default, PartialEq, Eq)]
pub struct Clock {
    /// Location 0: 0 to 59.
    pub seconds: u8,
    /// Location 2: 0 to 59.
    pub minutes: u8,
    /// Location 4: 0 to 23, or 1 to 12 with bit 7 for PM.
    pub hours: u8,
    /// Location 6: 1 for Sunday to 7.
    pub weekday: u8,
    /// Location 7: the day of the month, from 1.
    pub date: u8,
    /// Location 8: 1 to 12.
    pub month: u8,
    /// Location 9: 0 to 99.
    pub year: u8,
}

/// The alarm's locations 1, 3 and 5, as raw bytes: hex C0 and more stand for any byte.
#[derive(Clone, Copy, Debug, Default, PartialEq, Eq)]
pub struct Alarm {
    /// Location 1.
    pub seconds: u8,
    /// Location 3.
    pub minutes: u8,
    /// Location 5.
    pub hours: u8,
}

/// The clock one second on, and whether this Sunday's repeated hour has been used.
#[derive(Clone, Copy, Debug, PartialEq, Eq)]
pub struct Advanced {
    /// The clock after the second.
    pub clock: Clock,
    /// The mark of the repeated hour.
    pub used: bool,
}

/// What an update leaves: the clock, the mark of the repeated hour, and whether the alarm matches. Not an `Advanced` with a flag beside it: `update` of
/// specs/Update is one record of three.
#[derive(Clone, Copy, Debug, PartialEq, Eq)]
pub struct Updated {
    /// The clock after the update.
    pub clock: Clock,
    /// The mark of the repeated hour.
    pub used: bool,
    /// Whether the alarm matches the clock after the update.
    pub matched: bool,
}

/// The last days of the months, January first, in a year that is no leap year.
const LAST_DAYS: [u8; 12] = [31, 28, 31, 30, 31, 30, 31, 31, 30, 31, 30, 31];

/// Whether a year byte is that of a leap year: it is valid, and its number is divisible by 4.
fn is_leap(data: DataMode, year: u8) -> bool
    ensures { result ≡ is_leap «data» year }
{
    data.is_in_range(0, 99, year) & (data.value(year) % 4 == 0)
}

/// The last day of a month from 1 to 12, in a leap year where `leap` says so. The month is a number, as its bytes and its table have it: a type of its own would ask callers for one.
#[tactic(auto, using(crate::proofs::Laws::Days::february_29, crate::proofs::Laws::Days::table_has_the_rest), unfolding(crate::specs::Days::last_days))]
pub fn last_day(leap: bool, month: u8) -> u8
    requires { (1 ≤ month) × (month ≤ 12) }
    ensures { result ≡ last_day leap month }
{
    if leap & (month == 2) {
        29
    } else {
        LAST_DAYS[usize::from(month) - 1]
    }
}

/// The last day of the month that the month and year bytes name; 31 where the month byte is no month.
#[tactic(auto, using(fields::proofs::Laws::Ranges::range_fact), unfolding(crate::specs::Days::last_day_of))]
pub fn last_day_of(data: DataMode, month: u8, year: u8) -> u8
    ensures { result ≡ last_day_of «data» month year }
{
    if data.is_in_range(1, 12, month) {
        last_day(is_leap(data, year), data.value(month))
    } else {
        31
    }
}

impl From<[u8; 7]> for Clock {
    ghost from_gives = { λ bytes clock. clock ≡ clock_at bytes };

    fn from(bytes: [u8; 7]) -> Self {
        let [seconds, minutes, hours, weekday, date, month, year] = bytes;
        Clock {
            seconds,
            minutes,
            hours,
            weekday,
            date,
            month,
            year,
        }
    }
}

impl From<Clock> for [u8; 7] {
    ghost from_gives = { λ clock bytes. bytes ≡ bytes_of clock };

    fn from(clock: Clock) -> Self {
        [
            clock.seconds,
            clock.minutes,
            clock.hours,
            clock.weekday,
            clock.date,
            clock.month,
            clock.year,
        ]
    }
}

impl Clock {
    /// One second on, daylight saving apart.
    #[tactic(auto, using(crate::proofs::Laws::Days::last_day_of_is_28_to_31), unfolding(crate::specs::Advance::ordinary, crate::specs::Advance::one_second_on))]
    pub fn ordinary(self, mode: Mode, used: bool) -> Advanced
        ensures { result ≡ ordinary mode used self }
    {
        let data = mode.data;
        let last = last_day_of(data, self.month, self.year);
        let seconds = data.step(0, 59, true, self.seconds);
        let minutes = data.step(0, 59, seconds.carries, self.minutes);
        let hours = mode.hour_step(minutes.carries, self.hours);
        let weekday = data.step(1, 7, hours.carries, self.weekday);
        let date = data.step(1, last, hours.carries, self.date);
        let month = data.step(1, 12, date.carries, self.month);
        let year = data.step(0, 99, month.carries, self.year);
        Advanced {
            clock: Clock {
                seconds: seconds.byte,
                minutes: minutes.byte,
                hours: hours.byte,
                weekday: weekday.byte,
                date: date.byte,
                month: month.byte,
                year: year.byte,
            },
            used: used && !hours.carries,
        }
    }

    /// Whether the clock is at 1:59:59 AM on a Sunday. Four fields are compared and no two clocks, since the date is free.
    fn is_at_change(self, mode: Mode) -> bool
        ensures { result ≡ at_change mode self }
    {
        self.weekday == 1
            && self.hours == mode.hour_byte(1)
            && self.minutes == mode.data.byte(59)
            && self.seconds == mode.data.byte(59)
    }

    /// Whether the date is from `first` to `last` of a month.
    fn is_in_days(self, data: DataMode, month: u8, first: u8, last: u8) -> bool
        requires { month < 100 }
        ensures { result ≡ in_days «data» month first last self }
    {
        self.month == data.byte(month) && data.is_in_range(first, last, self.date)
    }

    /// A full hour of the same day.
    fn at_hour(self, mode: Mode, hour: u8) -> Self
        requires { hour < 24 }
        ensures { result ≡ at_hour mode hour self }
    {
        Clock {
            seconds: 0,
            minutes: 0,
            hours: mode.hour_byte(hour),
            ..self
        }
    }

    // As one function these two would be told the month, the dates and whether the mark counts, and no call would be plainer.

    /// Whether the spring change is due: on a Sunday from 24 to 30 April.
    #[tactic(auto, unfolding(crate::specs::Daylight::springs))]
    fn springs(self, mode: Mode) -> bool
        ensures { result ≡ springs mode self }
    {
        self.is_at_change(mode) && self.is_in_days(mode.data, 4, 24, 30)
    }

    /// Whether the hour is to be repeated: on a Sunday from 25 to 31 October, unless the repeat is used.
    #[tactic(auto, unfolding(crate::specs::Daylight::repeats))]
    fn repeats(self, mode: Mode, used: bool) -> bool
        ensures { result ≡ repeats mode used self }
    {
        self.is_at_change(mode) && self.is_in_days(mode.data, 10, 25, 31) && !used
    }

    /// One second on, with daylight saving where `dse`, bit 0 of register B, says so. Mode, DSE and mark are three parameters, since no two of the calls
    /// take the same of them.
    #[tactic(auto, unfolding(crate::specs::Daylight::advance))]
    pub fn advanced(self, mode: Mode, dse: bool, used: bool) -> Advanced
        ensures { result ≡ advance mode dse used self }
    {
        if dse && self.springs(mode) {
            Advanced {
                clock: self.at_hour(mode, 3),
                used,
            }
        } else if dse && self.repeats(mode, used) {
            Advanced {
                clock: self.at_hour(mode, 1),
                used: true,
            }
        } else {
            self.ordinary(mode, used)
        }
    }

    /// A whole update: one second on, and the alarm held against the new time.
    #[tactic(auto, unfolding(crate::specs::Update::update))]
    pub fn updated(self, mode: Mode, dse: bool, used: bool, alarm: Alarm) -> Updated
        ensures { result ≡ update mode dse used alarm self }
    {
        let Advanced { clock, used } = self.advanced(mode, dse, used);
        Updated {
            clock,
            used,
            matched: alarm.matches(clock),
        }
    }
}

/// Whether an alarm byte matches a clock byte: hex C0 and more match any.
fn matches_byte(alarm: u8, clock: u8) -> bool
    ensures { result ≡ matches_byte alarm clock }
{
    0xC0 <= alarm || alarm == clock
}

impl Alarm {
    /// Whether the alarm matches the clock: each of its three bytes matches its own.
    #[tactic(auto, unfolding(crate::specs::Update::alarm_matches))]
    pub fn matches(self, clock: Clock) -> bool
        ensures { result ≡ alarm_matches self clock }
    {
        matches_byte(self.seconds, clock.seconds)
            && matches_byte(self.minutes, clock.minutes)
            && matches_byte(self.hours, clock.hours)
    }
}
