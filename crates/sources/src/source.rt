// The one interface to a switching function, whatever kind it is.
ghost use Rattle.std.specs.Prelude.{◌≡◌};
ghost use Rattle.terms.specs.Tables.{Table, Proper};
ghost use Rattle.sources.specs.Sources.{looked, on_at, off_at};

use terms::{Mark, Refusal};

// Asking changes nothing, and the answers are those of the meaning, every time.
pub trait Source {
    // the table that the source stands for
    ghost meaning: { Self → Table };

    // The number of inputs.
    fn inputs(&self) -> usize
        ensures { result ≡ (meaning self.now).inputs };

    // The mark of a row; refuses a row that is not there.
    fn look(&self, row: usize) -> Result<Mark, Refusal>
        ensures { result ≡ looked (meaning self.now) row };

    // `is_on` and `is_off` are two questions of the interface, with a name each.
    // Whether there is such a row and it is ON.
    fn is_on(&self, row: usize) -> bool
        ensures { result ≡ on_at (meaning self.now) row }
    {
        self.look(row).is_ok_and(|mark| mark.is_on())
    }

    // Whether there is such a row and it is OFF.
    fn is_off(&self, row: usize) -> bool
        ensures { result ≡ off_at (meaning self.now) row }
    {
        self.look(row).is_ok_and(|mark| mark.is_off())
    }

    // the table that it stands for has 1 to 8 inputs, and a mark for each row
    ghost proper: { (s : Self) → Proper (meaning s) };
}
