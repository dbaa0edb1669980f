// What may be called on a truth table.
ghost use Rattle.std.specs.Prelude.{◌≡◌, ◌^◌};
ghost use Rattle.sources.specs.Rules.{size_breaks, look_breaks, mark_breaks, sweep_breaks, judged, settled};
ghost use Rattle.sources.specs.Calls.{table, entered, with_row, with_rows, painted};
ghost use Rattle.sources.specs.Calls.{changed};
ghost use Rattle.sources.specs.Model.{breaks, given};
ghost use Rattle.terms.specs.Terms.{holds};
ghost use Rattle.terms.specs.Tables.{blank, mark_at};

use crate::call::{Call, Outcome};
use crate::source::Source;
use crate::truth_table::TruthTable;
use terms::{Mark, Refusal, Term};

// Marks every row that the term holds, row 0 first.
fn paint(marks: &mut [Mark], term: Term, mark: Mark)
    ensures { marks.new ≡ painted (holds term) mark 0 marks.old }
{
    for (row, old) in marks.iter_mut().enumerate() {
        if term.holds(row) {
            *old = mark;
        }
    }
}

impl Default for TruthTable {
    ghost is_default = { λ truth. table truth ≡ blank 1 };

    fn default() -> TruthTable {
        TruthTable::new()
    }
}

impl TruthTable {
    // One input, every row OFF.
    pub fn new() -> TruthTable
        ensures { table result ≡ blank 1 }
    {
        TruthTable {
            inputs: 1,
            marks: [Mark::Off; 256],
        }
    }

    pub fn rows(&self) -> usize
        ensures { result ≡ 2 ^ (table self.now).inputs }
    {
        1 << self.inputs
    }

    // So many inputs, every row OFF.
    pub fn size(&mut self, inputs: usize) -> Result<(), Refusal>
        ensures result { result ≡ judged (size_breaks inputs) tt }
        ensures after { table self.new ≡ settled (size_breaks inputs) (table self.old) (blank inputs) }
    {
        if !(1..=8).contains(&inputs) {
            return Err(Refusal::InputsOutOfRange);
        }
        let marks = [Mark::Off; 256];
        *self = TruthTable { inputs, marks };
        Ok(())
    }

    // Marks one row. The code is a number, since one that no mark has is refused.
    pub fn mark(&mut self, row: usize, code: usize) -> Result<(), Refusal>
        ensures result { result ≡ judged (mark_breaks (table self.old).inputs row code) tt }
        ensures after { table self.new ≡ settled (mark_breaks (table self.old).inputs row code) (table self.old) (with_row (table self.old) row (entered code)) }
    {
        if row >= self.rows() {
            return Err(Refusal::NoSuchRow);
        }
        self.marks[row] = Mark::try_from(code)?;
        Ok(())
    }

    // Marks every row that a term holds; the term is given as two bytes and the mark by its code, which may both be refused.
    pub fn sweep(&mut self, mask: u8, levels: u8, code: usize) -> Result<(), Refusal>
        ensures result { result ≡ judged (sweep_breaks (table self.old).inputs mask levels code) tt }
        ensures after { table self.new ≡ settled (sweep_breaks (table self.old).inputs mask levels code) (table self.old) (with_rows (table self.old) mask levels (entered code)) }
    {
        let term = Term::new(self.inputs, mask, levels)?;
        let mark = Mark::try_from(code)?;
        let rows = self.rows();
        paint(&mut self.marks[0..rows], term, mark);
        Ok(())
    }

    // Makes one call, whichever it is.
    pub fn call(&mut self, call: Call) -> Outcome
        ensures result { result ≡ judged (breaks (table self.old).inputs call) (given call (mark_at (table self.old))) }
        ensures after { table self.new ≡ settled (breaks (table self.old).inputs call) (table self.old) (changed (table self.old) call) }
    {
        match call {
            Call::Size { inputs } => self.size(inputs).map(|()| None),
            Call::Mark { row, code } => self.mark(row, code).map(|()| None),
            Call::Sweep { mask, levels, code } => self.sweep(mask, levels, code).map(|()| None),
            Call::Look { row } => self.look(row).map(Some),
        }
    }
}
