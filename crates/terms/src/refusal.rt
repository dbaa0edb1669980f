// Why a call was refused. A refused call leaves everything it was given as it was.
ghost use Rattle.std.specs.Prelude.{◌≡◌, Some};
ghost use Rattle.terms.specs.Refusals.{refusal_number, refusal_text};

use std::error::Error;
use std::fmt;

#[derive(Clone, Copy, PartialEq, Eq, Debug)]
pub enum Refusal {
    // the number of inputs is not 1 to 8
    InputsOutOfRange = 1,
    // the function has no such row
    NoSuchRow = 2,
    // no mark has this code
    NoSuchMark = 3,
    // a term reads an input that is not there, or has a level outside its mask
    MalformedTerm = 4,
    // the function has more than 256 primes
    TooManyPrimes = 5,
    // a price is above 1,000
    PriceTooHigh = 6,
    // there is no such input to hold at a level
    NoSuchInput = 7,
    // the only input cannot be held at a level
    OnlyInput = 8,
    // the name line of a table text is bad
    BadNameLine = 9,
    // a line of a table text is malformed
    MalformedLine = 10,
    // a line of a table text contradicts an earlier one
    ContradictingLine = 11,
    // a table text has more than 8,192 bytes
    TextTooLong = 12,
    // the text does not fit the buffer
    BufferTooSmall = 13,
}

// The number by which the refusal is reported.
impl From<Refusal> for u8 {
    ghost from_gives = { λ refusal number. number ≡ refusal_number refusal };

    fn from(refusal: Refusal) -> u8 {
        refusal as u8
    }
}

impl fmt::Display for Refusal {
    ghost output = { λ refusal. Some (refusal_text refusal) };

    fn fmt<W: fmt::Write>(&self, f: &mut fmt::Formatter<W>) -> fmt::Result {
        write!(f, "refused {}", u8::from(*self))
    }
}

impl Error for Refusal {}
