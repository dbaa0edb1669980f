// A call on a truth table, with its arguments, and what it gave.
use terms::{Mark, Refusal};

// A code stays a number, here and in the calls: one that no mark has is to be refused, and a `Mark` could not be such a one.
// A mask and levels stay two bytes: the struct of the two is `Term`, which not every two bytes make.
#[derive(Clone, Copy, PartialEq, Eq, Debug)]
pub enum Call {
    Size { inputs: usize },
    Mark { row: usize, code: usize },
    Sweep { mask: u8, levels: u8, code: usize },
    Look { row: usize },
}

// What a call came to: the mark of a look, nothing of a call that writes, or why it was refused.
pub type Outcome = Result<Option<Mark>, Refusal>;
