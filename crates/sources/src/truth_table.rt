// A switching function of 1 to 8 inputs, kept as a mark for each row.
ghost use Rattle.std.specs.Prelude.{◌≡◌, ◌≤◌, length};

use terms::Mark;

pub mod methods;
pub mod source;

// The marks from the 2^inputs-th on belong to no row. A table, and no fixed list: the number of rows is 2^inputs, kept once, as the inputs, and a list would keep it again beside them.
// No model: clauses would see a bare table, of any size, and there the law that each source owes (`proper`) fails.
#[derive(Clone, Copy, Debug)]
pub struct TruthTable {
    inputs: usize,
    marks: [Mark; 256],
    ghost some: { 1 ≤ inputs },
    ghost few: { inputs ≤ 8 },
    ghost whole: { length marks ≡ 256 },
}
