// The chart of the primes of a table: a column for each prime, in order.
ghost use Rattle.std.specs.Prelude.{◌≡◌};
ghost use Rattle.covers.specs.Charting.{prime_grid, prime_grid_small, prime_at, need_at};

use charts::Chart;
use orders::CostOrder;
use primes::{Need, NeedList, PrimeList};
use terms::Term;

// The primes, and the needs that a cover must hold.
#[derive(Clone, Copy)]
pub struct PrimeChart {
    pub list: PrimeList,
    pub needs: NeedList,
}

impl PrimeChart {
    // The prime of a column, of which there can be 256: the term that stands in the table there, in the list or behind it.
    pub fn term(&self, column: usize) -> Term
        ensures { result ≡ prime_at self.now.list column }
    {
        self.list.table()[column.min(255)].term
    }

    // The need of a number, of which there can be 1,280: what stands in the table there, in the list or behind it.
    fn need(&self, number: usize) -> Need
        ensures { result ≡ need_at self.now.needs number }
    {
        self.needs.table()[number.min(1279)]
    }
}

impl Chart for PrimeChart {
    ghost grid = { λ c. prime_grid c.list c.needs };

    ghost small = { λ c. prime_grid_small c.list c.needs };

    fn columns(&self) -> usize {
        self.list.len().min(256)
    }

    fn needs(&self) -> usize {
        self.needs.len().min(1280)
    }

    fn holds(&self, column: usize, need: usize) -> bool {
        self.need(need).is_met_by(self.term(column))
    }

    fn price<O: CostOrder>(&self, order: &O, column: usize) -> O::Total {
        order.price(self.term(column))
    }
}
