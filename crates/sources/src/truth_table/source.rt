// A truth table as a source.
ghost use Rattle.sources.specs.Calls.{table};
ghost use Rattle.sources.specs.ProperTables.{table_proper};

use crate::source::Source;
use crate::truth_table::TruthTable;
use terms::{Mark, Refusal};

impl Source for TruthTable {
    ghost meaning = { table };

    ghost proper = { table_proper };

    fn inputs(&self) -> usize {
        self.inputs
    }

    fn look(&self, row: usize) -> Result<Mark, Refusal> {
        if row >= self.rows() {
            return Err(Refusal::NoSuchRow);
        }
        Ok(self.marks[row])
    }
}
