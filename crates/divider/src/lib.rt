//! The divider chain: a count that ticks move by the step of the selected base, and what hangs on it. Only this crate looks into a `Divider`.
#![tactic(auto)]

ghost use Rattle.std.specs.Prelude.{◌≡◌, ◌/◌, ◌%◌, ◌^◌, ◌<◌, ◌≤◌};
ghost use Rattle.divider.specs.Divider as meaning;

/// The number of values that the count has, from 0 on.
const SPAN: u32 = 4_194_304;

/// Half the span: where the count is held, and so half a second before the first 1 Hz edge.
const HALF: u32 = 2_097_152;

/// The count at which the closed window opens.
const WINDOW: u32 = 1024;

/// A time base on which the divider runs, as the bits DV2 to DV0 of register A select it.
#[derive(Clone, Copy, Debug, PartialEq, Eq)]
pub enum Base {
    /// 000, 4.194304 MHz.
    Fastest,
    /// 001, 1.048576 MHz.
    Middle,
    /// 010, 32.768 kHz.
    Slowest,
}

impl Base {
    /// The base that the number in DV2 to DV0 selects, if the divider runs with it: 0, 1 or 2. An `Option`, since no base is no error.
    pub fn selected(dv: u8) -> Option<Self>
        ensures { result ≡ meaning.selected dv }
    {
        match dv {
            0 => Some(Base::Fastest),
            1 => Some(Base::Middle),
            2 => Some(Base::Slowest),
            _ => None,
        }
    }

    /// What a tick adds to the count.
    pub fn step(self) -> u32
        ensures { result ≡ meaning.step_on self }
    {
        match self {
            Base::Fastest => 1,
            Base::Middle => 4,
            Base::Slowest => 128,
        }
    }

    /// E, the count at which a pending update ends: 2,064, or 9,344 on the slowest base.
    pub fn end(self) -> u32
        ensures { result ≡ meaning.end_on self }
    {
        match self {
            Base::Fastest | Base::Middle => 2064,
            Base::Slowest => 9344,
        }
    }

    /// How far a count is past a multiple of the step. Each divisor is a constant, so that no division is left in the compiled code.
    fn past_step(self, count: u32) -> u32
        ensures past { result ≡ count % meaning.step_on self }
        ensures within { result ≤ count }
    {
        match self {
            Base::Fastest => 0,
            Base::Middle => count % 4,
            Base::Slowest => count % 128,
        }
    }
}

/// Whether the number in DV2 to DV0 is a test pattern: 3, 4 or 5, which no write stores. A number, as no `Base` stands for a pattern.
pub fn is_test_pattern(dv: u8) -> bool
    ensures { result ≡ meaning.test_pattern dv }
{
    (3..=5).contains(&dv)
}

/// What a tick adds to the count: the step of the base, and 0 where none runs.
#[tactic(auto, unfolding(crate::specs::Divider::step_of))]
pub fn step_of(base: Option<Base>) -> u32
    ensures { result ≡ meaning.step_of base }
{
    match base {
        None => 0,
        Some(base) => base.step(),
    }
}

/// E, the count at which a pending update ends; where no base runs, that of the two faster ones.
#[tactic(auto, unfolding(crate::specs::Divider::end_of))]
pub fn end_of(base: Option<Base>) -> u32
    ensures { result ≡ meaning.end_of base }
{
    base.unwrap_or(Base::Fastest).end()
}

/// The rate, a number as in `tap_of`, as which a rate acts. A step of 128 never moves bit 6: the chip lets the two fastest rates act as slower ones there.
#[tactic(auto, unfolding(crate::specs::Divider::acts_as))]
fn acts_as(base: Option<Base>, rate: u8) -> u32
    ensures { result ≡ meaning.acts_as base rate }
{
    match base {
        Some(Base::Slowest) if (1..=2).contains(&rate) => u32::from(rate) + 7,
        _ => u32::from(rate),
    }
}

/// The bit of the count that a rate, 1 to 15, selects. The rate is a number and no enum, since its tap is told by a sum.
#[tactic(auto, using(crate::proofs::Laws::Tap::acts_as_at_most_7_more), unfolding(crate::specs::Divider::tap_of))]
pub fn tap_of(base: Option<Base>, rate: u8) -> u32
    ensures { result ≡ meaning.tap_of base rate }
{
    5 + acts_as(base, rate)
}

/// Bit `place` of the count.
fn bit_at(count: u32, place: u32) -> u32
    requires { place < 32 }
    ensures { result ≡ count / 2 ^ place % 2 }
{
    (count >> place) % 2
}

/// The divider. Any number may stand in it; a chip that loads has one of its base's counts.
#[derive(Clone, Copy, Debug, PartialEq, Eq)]
pub struct Divider {
    /// 0 to 4,194,303.
    pub count: u32,
}

// The base is told at each call and not kept here: it stands in register A.
impl Divider {
    /// The divider of a fresh chip, which is held at half the span.
    #[tactic(auto, unfolding(crate::specs::Divider::fresh))]
    pub fn fresh() -> Self
        ensures { result ≡ meaning.fresh }
    {
        Divider { count: HALF }
    }

    /// One tick: the count moves by the step of the base, around the span. Where no base runs, it stays.
    #[tactic(auto, using(crate::proofs::Laws::Base::moved_from_remainder), unfolding(crate::specs::Divider::moved))]
    pub fn tick(&mut self, base: Option<Base>)
        ensures { self.new ≡ meaning.moved base self.old }
    {
        if let Some(base) = base {
            // The remainder comes first, so that no count makes the sum wrap.
            self.count = (self.count % SPAN + base.step()) % SPAN;
        }
    }

    /// The divider after a change of the DV bits: a running base starts on a multiple of its step, with the low 0, 2 or 7 bits of the count cleared;
    /// any other holds the count at half the span.
    #[tactic(auto, unfolding(crate::specs::Divider::based))]
    pub fn start(&mut self, base: Option<Base>)
        ensures { self.new ≡ meaning.based base self.old }
    {
        self.count = match base {
            None => HALF,
            Some(base) => self.count - base.past_step(self.count),
        };
    }

    /// Whether the tap that a rate, a number as in `tap_of`, selects has just risen, which the count's trailing zero bits tell. Rate 0 selects none.
    #[tactic(auto, unfolding(crate::specs::Divider::rose))]
    pub fn has_risen(self, base: Option<Base>, rate: u8) -> bool
        ensures { result ≡ meaning.rose base rate self }
    {
        rate != 0 && self.count.trailing_zeros() == tap_of(base, rate)
    }

    /// The level of the tap that a rate, a number as in `tap_of`, selects: the square wave before SQWE has its say. Rate 0 selects none.
    #[tactic(auto, using(crate::proofs::WaveLaws::above), unfolding(crate::specs::Divider::wave))]
    pub fn wave(self, base: Option<Base>, rate: u8) -> bool
        ensures { result ≡ meaning.wave base rate self }
    {
        let tap = tap_of(base, rate);
        // No rate of the chip comes so far, but a shift by more than 31 is not allowed.
        if tap > 31 {
            return false;
        }
        rate != 0 && bit_at(self.count, tap) == 1
    }

    // Five tests in place of one that is told a range: each is a rule of the specification by its name.

    /// Whether the count is 0, at which an update may become pending.
    #[tactic(auto, unfolding(crate::specs::Divider::at_zero))]
    pub fn is_at_zero(self) -> bool
        ensures { result ≡ meaning.at_zero self }
    {
        self.count == 0
    }

    /// Whether the count is in the closed window: from 1,024 on and below E.
    #[tactic(auto, unfolding(crate::specs::Divider::in_window))]
    pub fn is_in_window(self, base: Option<Base>) -> bool
        ensures { result ≡ meaning.in_window base self }
    {
        (WINDOW..end_of(base)).contains(&self.count)
    }

    /// Whether the count is E.
    #[tactic(auto, unfolding(crate::specs::Divider::at_end))]
    pub fn is_at_end(self, base: Option<Base>) -> bool
        ensures { result ≡ meaning.at_end base self }
    {
        self.count == end_of(base)
    }

    /// Whether the count is below E, as a pending update needs it.
    #[tactic(auto, unfolding(crate::specs::Divider::before_end))]
    pub fn is_before_end(self, base: Option<Base>) -> bool
        ensures { result ≡ meaning.before_end base self }
    {
        self.count < end_of(base)
    }

    /// Whether the count is one that the base can have: below the span and a multiple of its step, or half the span where no base runs.
    #[tactic(auto, unfolding(crate::specs::Divider::keeps_count))]
    pub fn keeps_count(self, base: Option<Base>) -> bool
        ensures { result ≡ meaning.keeps_count base self }
    {
        match base {
            None => self.count == HALF,
            Some(base) => self.count < SPAN && base.past_step(self.count) == 0,
        }
    }
}

/// The divider that a stored count gives.
#[tactic(auto, unfolding(crate::specs::Divider::of_count))]
impl From<u32> for Divider {
    ghost use Rattle.divider.specs.Divider as meaning;

    ghost from_gives = { λ count divider. divider ≡ meaning.of_count count };

    fn from(count: u32) -> Self {
        Divider { count }
    }
}

/// The count as it is stored.
#[tactic(auto, unfolding(crate::specs::Divider::count_of))]
impl From<Divider> for u32 {
    ghost use Rattle.divider.specs.Divider as meaning;

    ghost from_gives = { λ divider count. count ≡ meaning.count_of divider };

    fn from(divider: Divider) -> u32 {
        divider.count
    }
}
