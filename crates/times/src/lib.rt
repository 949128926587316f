//! Clock bytes and times: what seven bytes mean as a weekday and seconds, and the bytes of a weekday and seconds.
#![tactic(auto)]

ghost use Rattle.std.specs.Prelude.{◌≡◌, true, ◌+◌, ◌-◌, ◌*◌, ◌<◌, ◌≤◌};
ghost use Rattle.calendar.specs.Days.{last_days};
ghost use Rattle.times.specs.Days.{before, days_before_year, day_of, year_of, month_in, date_in};
ghost use Rattle.times.specs.Times.{is_valid, is_time, time_of, clock_of};
ghost use Rattle.times.specs.Calls.{decoded, encoded};
ghost use Rattle.times.specs.Examples.{AllSay, starred};

use calendar::Clock;
use fields::Mode;
use refusals::Refusal;

/// The seconds of the hundred years 00 to 99, 25 of them leap years.
const CENTURY: u64 = 3_155_760_000;

/// A weekday, and the seconds that have passed in the century. Any numbers may stand in it: `encode` refuses those that have no bytes.
#[derive(Clone, Copy, Debug, Default, PartialEq, Eq)]
pub struct Time {
    /// 1 for Sunday to 7 for Saturday.
    pub weekday: u32,
    /// Seconds since the first midnight of year 00: 0 to 3,155,759,999.
    pub seconds: u64,
}

/// Whether the clock's bytes are a valid time: each is in its range for the mode, and the date is one of its month's.
#[tactic(auto, unfolding(crate::specs::Times::is_valid))]
pub fn is_valid(mode: Mode, clock: Clock) -> bool
    ensures { result ≡ is_valid mode clock }
{
    let data = mode.data;
    // Without a branch after each test, which would cost a decode a fifth of its time; for the same reason the hours come last.
    let time = data.is_in_range(0, 59, clock.seconds) & data.is_in_range(0, 59, clock.minutes);
    let last = calendar::last_day_of(data, clock.month, clock.year);
    let date = data.is_in_range(1, 7, clock.weekday)
        & data.is_in_range(1, 12, clock.month)
        & data.is_in_range(0, 99, clock.year)
        & data.is_in_range(1, last, clock.date);
    time & mode.is_hour(clock.hours) & date
}

/// The days of a year before one of its months, 1 for January to 12.
#[tactic(auto, using(crate::proofs::Laws::Code::no_month, crate::proofs::Laws::Code::one_month_more), unfolding(calendar::specs::Days::last_days))]
fn days_before_month(leap: bool, month: u8) -> u32
    requires { (1 ≤ month) × (month ≤ 12) }
    ensures { result ≡ before (last_days leap) (month - 1) }
{
    let mut days = 0;
    for earlier in 1..month {
        days += u32::from(calendar::last_day(leap, earlier));
    }
    days
}

/// The days before a year.
#[tactic(auto, using(crate::proofs::Laws::Days::years_closed), unfolding(crate::specs::Days::days_before_year))]
fn days_before_year(year: u8) -> u32
    ensures { result ≡ days_before_year year }
{
    365 * u32::from(year) + (u32::from(year) + 3) / 4
}

/// The days from 1 January of year 00 to a date.
#[tactic(auto, using(crate::proofs::Laws::Code::days_fit), unfolding(crate::specs::Days::day_of))]
fn day_of(year: u8, month: u8, date: u8) -> u32
    requires { (year ≤ 99) × (1 ≤ month) × (month ≤ 12) × (1 ≤ date) }
    ensures { result ≡ day_of year month date }
{
    days_before_year(year) + days_before_month(year % 4 == 0, month) + u32::from(date - 1)
}

/// The seconds to a time of a day.
fn seconds_of(day: u32, hour: u8, minute: u8, second: u8) -> u64
    requires { (day < 36525) × (hour < 24) × (minute ≤ 59) × (second ≤ 59) }
    ensures { result ≡ ((day * 24 + hour) * 60 + minute) * 60 + second }
{
    ((u64::from(day) * 24 + u64::from(hour)) * 60 + u64::from(minute)) * 60 + u64::from(second)
}

/// The year that a day falls in, of which four have 1,461 days, the leap year first. The cast keeps the number, as the check proves.
#[tactic(auto, unfolding(crate::specs::Days::year_of))]
fn year_of(day: u32) -> u8
    requires { day < 36525 }
    ensures { result ≡ year_of day }
{
    (day / 1461 * 4 + (day % 1461).saturating_sub(1) / 365) as u8
}

/// The month and the date of a day of a year, the first being day 0. Here too each cast keeps its number. No method searches
/// here: what is left of the day is compared month by month.
#[tactic(auto, using(crate::proofs::Laws::Code::reached_first, crate::proofs::Laws::Code::reached_next))]
fn place_of(leap: bool, day: u32) -> (u8, u8)
    requires { day < before (last_days leap) 12 }
    ensures { (result.0 ≡ month_in leap day) × (result.1 ≡ date_in leap day) }
{
    let mut left = day;
    for month in 1..12 {
        let last = u32::from(calendar::last_day(leap, month));
        if left < last {
            return (month, left as u8 + 1);
        }
        left -= last;
    }
    (12, left as u8 + 1)
}

impl Time {
    /// Whether the time can be turned into bytes: the weekday is 1 to 7, and the seconds lie within the century.
    #[tactic(auto, unfolding(crate::specs::Times::is_time))]
    pub fn has_bytes(self) -> bool
        ensures { result ≡ is_time self }
    {
        (1..=7).contains(&self.weekday) && self.seconds < CENTURY
    }

    /// The time that a valid clock tells.
    #[tactic(auto, using(fields::proofs::Laws::Hours::hour_below_24, crate::proofs::Laws::Days::day_below_36525, crate::proofs::Laws::Valid::valid_fact, crate::proofs::Laws::Valid::valid_date), unfolding(crate::specs::Times::time_of))]
    fn of_clock(mode: Mode, clock: Clock) -> Self
        requires { is_valid mode clock ≡ true }
        ensures { result ≡ time_of mode clock }
    {
        let data = mode.data;
        // The time of day comes first, so that it is ready when the days have been added up.
        let second = data.value(clock.seconds);
        let minute = data.value(clock.minutes);
        let hour = mode.hour(clock.hours);
        let weekday = data.value(clock.weekday);
        let date = data.value(clock.date);
        let month = data.value(clock.month);
        let year = data.value(clock.year);
        Time {
            weekday: u32::from(weekday),
            seconds: seconds_of(day_of(year, month, date), hour, minute, second),
        }
    }

    /// The clock that tells the time.
    #[tactic(auto, using(crate::proofs::Laws::Code::date_fits, crate::proofs::Laws::Days::year_starts_before, crate::proofs::Laws::Days::day_in_year, crate::proofs::Laws::Valid::time_fact), unfolding(crate::specs::Times::clock_of))]
    fn clock(self, mode: Mode) -> Clock
        requires { is_time self ≡ true }
        ensures { result ≡ clock_of mode self }
    {
        // Each cast keeps its number, as the check proves; `try_from` would only add an error that cannot be.
        let data = mode.data;
        let day = (self.seconds / 86_400) as u32;
        let year = year_of(day);
        let (month, date) = place_of(year % 4 == 0, day - days_before_year(year));
        Clock {
            seconds: data.byte((self.seconds % 60) as u8),
            minutes: data.byte((self.seconds / 60 % 60) as u8),
            hours: mode.hour_byte((self.seconds / 3_600 % 24) as u8),
            weekday: data.byte(self.weekday as u8),
            date: data.byte(date),
            month: data.byte(month),
            year: data.byte(year),
        }
    }
}

/// Turns seven clock bytes, lowest location first, into a time. The bytes say nothing of their mode, so it stands beside them. Refused (`Refusal::Time`) where they are not seven, or no valid time.
#[tactic(auto, unfolding(crate::specs::Calls::decoded))]
pub fn decode(bytes: &[u8], mode: Mode) -> Result<Time, Refusal>
    ensures { result ≡ decoded mode bytes.now }
{
    let Some(bytes) = bytes.as_array::<7>() else {
        return Err(Refusal::Time);
    };
    let clock = Clock::from(*bytes);
    if is_valid(mode, clock) {
        Ok(Time::of_clock(mode, clock))
    } else {
        Err(Refusal::Time)
    }
}

/// Turns a time into seven clock bytes, lowest location first. Refused (`Refusal::Time`) where the buffer has not seven
/// bytes or the time has none; the whole buffer then becomes zeros.
#[tactic(auto, unfolding(crate::specs::Calls::encoded))]
pub fn encode(bytes: &mut [u8], time: Time, mode: Mode) -> Result<(), Refusal>
    ensures answer { result ≡ (encoded mode time bytes.old).answer }
    ensures bytes { bytes.new ≡ (encoded mode time bytes.old).bytes }
{
    if bytes.len() == 7 && time.has_bytes() {
        bytes.copy_from_slice(&<[u8; 7]>::from(time.clock(mode)));
        Ok(())
    } else {
        bytes.fill(0);
        Err(Refusal::Time)
    }
}

/// The starred plate-room examples: each row of the table in specs/Examples holds, by computation.
#[tactic(auto, using(crate::proofs::Examples::starred_examples_hold))]
pub fn starred_examples_hold()
    ensures { AllSay starred }
{}
