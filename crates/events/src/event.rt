//! What one record does to a chip.

ghost use Rattle.std.specs.Prelude.{◌≡◌};
ghost use Rattle.refusals.specs.Numbers.{answer_number};
ghost use Rattle.events.specs.Events.{decoded, call_of, record_event};

use cases::is_on;
use chip::Chip;
use refusals::Refusal;

/// The pin RESET in the low byte of a record that sets the pins; 1 is high.
const RESET: u8 = 0x01;
/// The pin PS in it; 1 is high.
const PS: u8 = 0x02;

/// One call of a chip, as a record says it.
#[derive(Clone, Copy, Debug, PartialEq, Eq)]
pub enum Event {
    /// Reads the byte at an address. One above 63 is refused with `Address`.
    Read { address: u8 },
    /// Writes a byte at an address. One above 63 is refused with `Address`.
    Write { address: u8, value: u8 },
    /// Makes so many ticks, 0 to 65,535.
    Run { count: u16 },
    /// Puts the pins RESET and PS at new levels; true is high.
    Pins { reset: bool, ps: bool },
}

/// What a record's line shows of its call. No `Result` of a byte: a refused read shows 255, and any other refusal 0.
#[derive(Clone, Copy, Debug, PartialEq, Eq)]
pub struct Shown {
    /// Whether the call is accepted, or why it is refused.
    pub answer: Result<(), Refusal>,
    /// The byte that was read, or 255 where the read is refused; 0 for every other call.
    pub byte: u8,
}

/// A record's four bytes are its kind, the address, and the value's low and high byte. Kind 0 reads, 1 writes the low byte, 2 runs as many
/// ticks as both bytes say, and 3 sets the pins by the low one: bit 0 is RESET high, bit 1 PS high. Any other kind is refused with `Kind`.
impl TryFrom<[u8; 4]> for Event {
    type Error = Refusal;

    ghost try_from_gives = { λ bytes event. event ≡ decoded bytes };

    fn try_from(bytes: [u8; 4]) -> Result<Self, Refusal> {
        let [kind, address, low, high] = bytes;
        match kind {
            0 => Ok(Event::Read { address }),
            1 => Ok(Event::Write {
                address,
                value: low,
            }),
            2 => Ok(Event::Run {
                count: u16::from_le_bytes([low, high]),
            }),
            3 => Ok(Event::Pins {
                reset: is_on(low, RESET),
                ps: is_on(low, PS),
            }),
            _ => Err(Refusal::Kind),
        }
    }
}

impl Event {
    /// Makes the call on a chip. A refused one leaves the chip as it was.
    pub fn apply(self, chip: &mut Chip) -> Shown
        ensures answer { answer_number result.answer ≡ (call_of chip.old self).answer }
        ensures byte { result.byte ≡ (call_of chip.old self).byte }
        ensures chip { chip.new ≡ (call_of chip.old self).chip }
    {
        match self {
            Event::Read { address } => {
                // A read's answer is taken apart by `let .. else`, as the specification asks.
                let answer = chip.read(u32::from(address));
                let Ok(byte) = answer else {
                    return Shown {
                        answer: answer.map(|_| ()),
                        byte: 255,
                    };
                };
                Shown {
                    answer: Ok(()),
                    byte,
                }
            }
            Event::Write { address, value } => Shown {
                answer: chip.write(u32::from(address), value),
                byte: 0,
            },
            Event::Run { count } => Shown {
                answer: chip.run(u32::from(count)),
                byte: 0,
            },
            Event::Pins { reset, ps } => {
                chip.set_pins(reset, ps);
                Shown {
                    answer: Ok(()),
                    byte: 0,
                }
            }
        }
    }
}

/// Makes the call that a record's four bytes are. Bytes of an unknown kind are refused with `Kind`, and leave the chip as it was.
#[tactic(auto, using(crate::proofs::Laws::Events::record_of_call, crate::proofs::Laws::Events::record_of_no_call))]
pub fn apply(chip: &mut Chip, bytes: [u8; 4]) -> Shown
    ensures answer { answer_number result.answer ≡ (record_event chip.old bytes).answer }
    ensures byte { result.byte ≡ (record_event chip.old bytes).byte }
    ensures chip { chip.new ≡ (record_event chip.old bytes).chip }
{
    match Event::try_from(bytes) {
        Ok(event) => event.apply(chip),
        Err(why) => Shown {
            answer: Err(why),
            byte: 0,
        },
    }
}
