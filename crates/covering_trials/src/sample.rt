// Small charts to try the search on.
ghost use Rattle.std.specs.Prelude.{◌≤◌};
ghost use Rattle.covering_trials.specs.Samples.{sample_grid, sample_grid_small};

use charts::Chart;
use orders::CostOrder;
use terms::Term;

pub const MOST_COLUMNS: usize = 10;

pub const MOST_NEEDS: usize = 12;

// Up to 10 columns, each priced as a term, and up to 12 needs. Fixed tables and the counts: the chart answers past them too.
#[derive(Clone, Copy)]
pub struct Sample {
    pub columns: usize,
    pub needs: usize,
    pub cells: [bool; MOST_COLUMNS * MOST_NEEDS],
    pub terms: [Term; MOST_COLUMNS],
}

impl Chart for Sample {
    ghost grid = { sample_grid };

    ghost small = { sample_grid_small };

    fn columns(&self) -> usize {
        self.columns.min(MOST_COLUMNS)
    }

    fn needs(&self) -> usize {
        self.needs.min(MOST_NEEDS)
    }

    fn holds(&self, column: usize, need: usize) -> bool {
        column < MOST_COLUMNS && need < MOST_NEEDS && self.cells[column * MOST_NEEDS + need]
    }

    fn price<O: CostOrder>(&self, order: &O, column: usize) -> O::Total {
        order.price(self.terms[column.min(MOST_COLUMNS - 1)])
    }
}
