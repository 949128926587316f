//! The locations, bits and levels that the firmware names, beside those that the chip's own crates name.
pub use fields::{DM, HOURS_24};
pub use registers::{
    AIE, FIRST_OF_RAM, PIE, REGISTER_A, REGISTER_B, REGISTER_C, REGISTER_D, SET, SQWE, UIE,
};

// ---- locations

/// The clock's seconds.
pub const SECONDS: u32 = 0;

/// The alarm's seconds.
pub const SECONDS_ALARM: u32 = 1;

/// The alarm's minutes.
pub const MINUTES_ALARM: u32 = 3;

/// The alarm's hours.
pub const HOURS_ALARM: u32 = 5;

/// The clock's year, the last of its locations.
pub const YEAR: u32 = 9;

/// The first of each 16 locations.
pub const ROWS: [u8; 4] = [0x00, 0x10, 0x20, 0x30];

/// Addresses at which there is no location.
pub const BEYOND: [u32; 6] = [64, 65, 127, 255, 65_535, u32::MAX];

// ---- register A: the base in bits 6 to 4 (DV), the rate in bits 3 to 0 (RS)

/// DV 000, the fastest base.
pub const BASE_4_194_304_HZ: u8 = 0x00;

/// DV 010, the slowest base.
pub const BASE_32_768_HZ: u8 = 0x20;

// ---- levels of a pin

/// A pin that is low.
pub const LOW: bool = false;

/// A pin that is high.
pub const HIGH: bool = true;
