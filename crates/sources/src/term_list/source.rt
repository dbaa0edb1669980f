// A term list as a source.
ghost use Rattle.std.specs.Prelude.{◌≡◌, map};
ghost use Rattle.sources.specs.TermLists.{bytes, some_holds, mark_by, term_table};
ghost use Rattle.sources.specs.ProperTables.{listed_proper};

use crate::source::Source;
use crate::term_list::TermList;
use terms::{Mark, Refusal, Term};

impl Source for TermList {
    ghost meaning = { term_table };

    ghost proper = { λ s. listed_proper s.inputs (map bytes s.on.items) (map bytes s.free.items) s.some s.few };

    fn inputs(&self) -> usize {
        self.inputs
    }

    fn look(&self, row: usize) -> Result<Mark, Refusal> {
        if row >= 1 << self.inputs {
            return Err(Refusal::NoSuchRow);
        }
        Ok(mark_by(self.on.as_slice(), self.free.as_slice(), row))
    }
}

// The mark that two lists of terms give a row.
fn mark_by(on: &[Term], free: &[Term], row: usize) -> Mark
    ensures { result ≡ mark_by (map bytes on.now) (map bytes free.now) row }
{
    if some_holds(on, row) {
        Mark::On
    } else if some_holds(free, row) {
        Mark::Free
    } else {
        Mark::Off
    }
}

// Whether some term of a list holds a row.
fn some_holds(terms: &[Term], row: usize) -> bool
    ensures { result ≡ some_holds (map bytes terms.now) row }
{
    terms.iter().any(|term| term.holds(row))
}
