// A switching function of 1 to 8 inputs, kept as two lists of terms.
ghost use Rattle.std.specs.Prelude.{◌≤◌};

use terms::Term;

pub mod methods;
pub mod source;

// A row in a term of the first list is ON, a row only in a term of the second is FREE, every other row is OFF.
// No model, as with the truth table: the law that each source owes fails at a bare table.
#[derive(Drop, Debug)]
pub struct TermList {
    inputs: usize,
    on: Vec<Term>,
    free: Vec<Term>,
    ghost some: { 1 ≤ inputs },
    ghost few: { inputs ≤ 8 },
}
