//! One byte of the clock in a mode: the number it stands for, the byte after it, and what it carries.
#![tactic(auto)]

ghost use Rattle.std.specs.Prelude.{◌≡◌, ◌<◌};
ghost use Rattle.fields.specs.Modes.{mode_of};
ghost use Rattle.fields.specs.Bytes.{value_of, byte_of, ordinary_next, has_digits, in_range};
ghost use Rattle.fields.specs.Hours.{hour_of, hour_byte, hour_in_range};
ghost use Rattle.fields.specs.Steps.{step, half_day_step, hour_step};

/// DM, bit 2 of register B: 1 for binary.
pub const DM: u8 = 0x04;

/// 24/12, bit 1 of register B: 1 for 24 hours.
pub const HOURS_24: u8 = 0x02;

/// How a byte of the clock stands for a number: bit 2 of register B, DM.
#[derive(Clone, Copy, Debug, PartialEq, Eq)]
pub enum DataMode {
    /// DM is 0: the tens are in the high digit, the ones in the low one.
    Bcd,
    /// DM is 1: the byte is the number.
    Binary,
}

/// How the hours are counted: bit 1 of register B, 24/12.
#[derive(Clone, Copy, Debug, PartialEq, Eq)]
pub enum HourMode {
    /// 24/12 is 0: twelve hours, and bit 7 of the hours byte is PM.
    Twelve,
    /// 24/12 is 1: hours 0 to 23.
    TwentyFour,
}

/// How the clock's bytes are to be read: bits DM and 24/12 of register B.
#[derive(Clone, Copy, Debug, PartialEq, Eq)]
pub struct Mode {
    /// Bit DM.
    pub data: DataMode,
    /// Bit 24/12.
    pub hours: HourMode,
}

/// A field after an update, and whether it carries into the next one.
#[derive(Clone, Copy, Debug, PartialEq, Eq)]
pub struct Stepped {
    /// The field's byte after the update.
    pub byte: u8,
    /// Whether the field went round to its first value.
    pub carries: bool,
}

impl DataMode {
    /// The number that a byte stands for, also where the byte is none of the mode's own.
    pub fn value(self, byte: u8) -> u8
        ensures { result ≡ value_of self byte }
    {
        match self {
            DataMode::Bcd => byte / 16 * 10 + byte % 16,
            DataMode::Binary => byte,
        }
    }

    /// The byte for a number below 100. It is a plain number, as all its callers have: a type for it would ask more of them.
    pub fn byte(self, value: u8) -> u8
        requires { value < 100 }
        ensures { result ≡ byte_of self value }
    {
        match self {
            DataMode::Bcd => value / 10 * 16 + value % 10,
            DataMode::Binary => value,
        }
    }

    /// The byte after one that is below its field's last.
    fn ordinary_next(self, byte: u8) -> u8
        requires { byte < 240 }
        ensures { result ≡ ordinary_next self byte }
    {
        match self {
            DataMode::Bcd if 9 <= byte % 16 => byte / 16 * 16 + 16,
            _ => byte + 1,
        }
    }

    /// Whether a byte is one of the mode's own: in BCD the low digit is a decimal one.
    fn has_digits(self, byte: u8) -> bool
        ensures { result ≡ has_digits self byte }
    {
        match self {
            DataMode::Bcd => byte % 16 < 10,
            DataMode::Binary => true,
        }
    }

    /// Whether a byte stands for a number from `first` to `last`, as in the data sheet's table 3. The bounds are numbers, which a range type would only
    /// wrap.
    pub fn is_in_range(self, first: u8, last: u8, byte: u8) -> bool
        ensures { result ≡ in_range self first last byte }
    {
        // Each test is made, and no branch hangs on one: a decode makes eight of them. `contains` cost it a twentieth.
        let value = self.value(byte);
        self.has_digits(byte) & ((first <= value) & (value <= last))
    }

    /// A field that goes from `first` to `last`, both below 100, after an update that carries into it or not.
    #[tactic(auto, using(crate::proofs::Laws::Bytes::byte_small), unfolding(crate::specs::Steps::step))]
    pub fn step(self, first: u8, last: u8, carried: bool, byte: u8) -> Stepped
        requires { (first < 100) × (last < 100) }
        ensures { result ≡ step self first last carried byte }
    {
        if !carried {
            Stepped {
                byte,
                carries: false,
            }
        } else if self.byte(last) <= byte {
            Stepped {
                byte: self.byte(first),
                carries: true,
            }
        } else {
            Stepped {
                byte: self.ordinary_next(byte),
                carries: false,
            }
        }
    }

    /// The hours on a twelve-hour clock, where a carry comes in: PM turns over at twelve, and its end carries.
    #[tactic(auto, using(crate::proofs::Laws::Bytes::hour_small, crate::proofs::Laws::Bytes::next_below), unfolding(crate::specs::Steps::half_day_step))]
    fn half_day_step(self, byte: u8) -> Stepped
        ensures { result ≡ half_day_step self byte }
    {
        let hour = byte % 128;
        let pm = byte / 128;
        if self.byte(12) <= hour {
            Stepped {
                byte: self.byte(1) + 128 * pm,
                carries: false,
            }
        } else if hour == self.byte(11) {
            Stepped {
                byte: self.byte(12) + 128 * (1 - pm),
                carries: pm == 1,
            }
        } else {
            Stepped {
                byte: self.ordinary_next(hour) + 128 * pm,
                carries: false,
            }
        }
    }
}

impl Mode {
    /// The mode that a byte of register B sets: bit 2 is DM, bit 1 is 24/12. No `From<u8>`, as its name says whose byte it is.
    pub fn of_register_b(b: u8) -> Self
        ensures { result ≡ mode_of b }
    {
        Mode {
            data: if cases::is_on(b, DM) {
                DataMode::Binary
            } else {
                DataMode::Bcd
            },
            hours: if cases::is_on(b, HOURS_24) {
                HourMode::TwentyFour
            } else {
                HourMode::Twelve
            },
        }
    }

    /// The hours after an update that carries into them or not, in either hour mode.
    #[tactic(auto, unfolding(crate::specs::Steps::hour_step))]
    pub fn hour_step(self, carried: bool, byte: u8) -> Stepped
        ensures { result ≡ hour_step self carried byte }
    {
        match self.hours {
            HourMode::TwentyFour => self.data.step(0, 23, carried, byte),
            HourMode::Twelve if carried => self.data.half_day_step(byte),
            HourMode::Twelve => Stepped {
                byte,
                carries: false,
            },
        }
    }

    /// The hour from 0 to 23 that an hours byte stands for, where it stands for one: 12 AM is hour 0, and PM adds twelve.
    pub fn hour(self, byte: u8) -> u8
        ensures { result ≡ hour_of self byte }
    {
        match self.hours {
            HourMode::TwentyFour => self.data.value(byte),
            HourMode::Twelve => self.data.value(byte % 128) % 12 + 12 * (byte / 128),
        }
    }

    /// The hours byte of an hour from 0 to 23, a plain number as in `DataMode::byte`.
    #[tactic(auto, using(crate::proofs::Laws::Bytes::hour_small))]
    pub fn hour_byte(self, hour: u8) -> u8
        requires { hour < 24 }
        ensures { result ≡ hour_byte self hour }
    {
        match self.hours {
            HourMode::TwentyFour => self.data.byte(hour),
            HourMode::Twelve => self.data.byte((hour + 11) % 12 + 1) + 128 * (hour / 12),
        }
    }

    /// Whether an hours byte stands for an hour: 0 to 23, or 1 to 12 with or without bit 7.
    pub fn is_hour(self, byte: u8) -> bool
        ensures { result ≡ hour_in_range self byte }
    {
        match self.hours {
            HourMode::TwentyFour => self.data.is_in_range(0, 23, byte),
            HourMode::Twelve => self.data.is_in_range(1, 12, byte % 128),
        }
    }
}
