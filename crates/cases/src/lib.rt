//! The test of one bit of a byte. What every proof here uses of tests stands in proofs/.
#![tactic(auto)]

ghost use Rattle.std.specs.Prelude.{◌≡◌, ◌<◌, ◌/◌, ◌%◌, eqb};

/// Whether a bit of a byte is 1. `bit` is its weight: 1, 2, 4 and so on to 128.
pub fn is_on(byte: u8, bit: u8) -> bool
    requires { 0 < bit }
    ensures { result ≡ eqb (byte / bit % 2) 1 }
{
    byte / bit % 2 == 1
}
