//! The refusals: every reason for which a call does not do its work, and the number that the host is told.
#![tactic(auto)]

ghost use Rattle.std.specs.Prelude.{◌≡◌, Some};
ghost use Rattle.refusals.specs.Numbers.{number_of, answer_number};
ghost use Rattle.refusals.specs.Words.{words_of};

use std::error::Error;
use std::fmt;

/// Why a call is refused: one case for each row of the table of refusals, in its order. The discriminant is the number that the host is told.
#[derive(Clone, Copy, Debug, PartialEq, Eq, Hash)]
pub enum Refusal {
    /// A saved chip, a page or an event record is too short, or a saved chip too long.
    Length = 1,
    /// There is no such location.
    Address = 2,
    /// The RESET pin is low.
    Reset = 3,
    /// An update is in its closed window, and the location is one of the clock's or the alarm's.
    Window = 4,
    /// The register cannot be written.
    ReadOnly = 5,
    /// The divider bits are a test pattern.
    TestPattern = 6,
    /// Too many ticks for one call.
    Ticks = 7,
    /// The 72 bytes break a record rule.
    Rules = 8,
    /// The bytes or the numbers are no time, or the buffer has not seven bytes.
    Time = 9,
    /// The event is of no known kind.
    Kind = 10,
}

impl Refusal {
    /// The number of the refusal in the table, from 1 to 10: the discriminant, which `as` alone gives.
    pub fn number(self) -> u8
        ensures { result ≡ number_of self }
    {
        self as u8
    }
}

impl From<Refusal> for u8 {
    ghost from_gives = { λ refusal number. number ≡ number_of refusal };

    fn from(refusal: Refusal) -> u8 {
        refusal.number()
    }
}

impl fmt::Display for Refusal {
    ghost output = { λ refusal. Some (words_of refusal) };

    fn fmt<W: fmt::Write>(&self, f: &mut fmt::Formatter<W>) -> fmt::Result {
        f.write_str(match self {
            Refusal::Length =>
                "the saved chip, the page or the record has not the length that it needs",
            Refusal::Address => "there is no such location",
            Refusal::Reset => "the RESET pin is low",
            Refusal::Window => "an update is in its closed window",
            Refusal::ReadOnly => "the register cannot be written",
            Refusal::TestPattern => "the divider bits are a test pattern",
            Refusal::Ticks => "there are too many ticks for one call",
            Refusal::Rules => "the bytes break a rule of the saved chip",
            Refusal::Time => "the bytes or the numbers are no time",
            Refusal::Kind => "the event is of no known kind",
        })
    }
}

impl Error for Refusal {}

/// The number of an answer: 0 where the call is accepted, else that of its refusal.
pub fn answer_number<T>(answer: &Result<T, Refusal>) -> u8
    ensures { result ≡ answer_number answer.now }
{
    match answer {
        Ok(_) => 0,
        Err(why) => why.number(),
    }
}

#[cfg(test)]
mod tests {
    use super::*;
    use std::test::Fail;

    #[test]
    fn says_why_in_words(rt: HostRuntime) -> Result<(), Fail> {
        let text = format!(in rt.alloc(); "{}", Refusal::Kind)?;
        assert_eq!(rt; text.as_str(), "the event is of no known kind");
        Ok(())
    }

    #[test]
    fn numbers_an_answer_of_any_type(rt: HostRuntime) -> Result<(), Fail> {
        let read: Result<u8, Refusal> = Ok(165);
        let run: Result<(), Refusal> = Err(Refusal::Ticks);
        assert_eq!(rt; answer_number(&read), 0);
        assert_eq!(rt; answer_number(&run), 7);
        assert_eq!(rt; u8::from(Refusal::Kind), 10);
        Ok(())
    }
}
