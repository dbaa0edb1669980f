// What a duty table asks of a row.
ghost use Rattle.std.specs.Prelude.{◌≡◌, Some};
ghost use Rattle.terms.specs.Marks.{code_of, mark_text, is_on, is_off, CodesTell};
ghost use Rattle.terms.specs.Rules.{mark_by_code};

use crate::refusal::Refusal;
use std::fmt;

// Off: the output stays 0. On: it must be 1. Free: it makes no odds, a don't-care.
#[derive(Clone, Copy, PartialEq, Eq, Debug)]
pub enum Mark {
    Off = 0,
    On = 1,
    Free = 2,
}

impl Mark {
    // `is_on` and `is_off` are two questions of the interface, with a name each.
    pub fn is_on(self) -> bool
        ensures { result ≡ is_on self }
    {
        matches!(self, Mark::On)
    }

    pub fn is_off(self) -> bool
        ensures { result ≡ is_off self }
    {
        matches!(self, Mark::Off)
    }
}

// The code by which the mark is entered.
impl From<Mark> for usize {
    ghost from_gives = { λ mark code. code ≡ code_of mark };

    fn from(mark: Mark) -> usize {
        mark as usize
    }
}

// The mark that is entered by a code.
impl TryFrom<usize> for Mark {
    type Error = Refusal;

    ghost try_from_gives = { λ code r. r ≡ mark_by_code code };

    fn try_from(code: usize) -> Result<Mark, Refusal>
        ensures value { result ≡ mark_by_code code }
        ensures law { CodesTell }
    {
        match code {
            0 => Ok(Mark::Off),
            1 => Ok(Mark::On),
            2 => Ok(Mark::Free),
            _ => Err(Refusal::NoSuchMark),
        }
    }
}

impl fmt::Display for Mark {
    ghost output = { λ mark. Some (mark_text mark) };

    fn fmt<W: fmt::Write>(&self, f: &mut fmt::Formatter<W>) -> fmt::Result {
        f.write_str(match self {
            Mark::Off => "OFF",
            Mark::On => "ON",
            Mark::Free => "FREE",
        })
    }
}
