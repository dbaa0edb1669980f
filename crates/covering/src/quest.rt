// What a search is after.
ghost use Rattle.fixed.specs.Sets.{member};
ghost use Rattle.charts.specs.Best.{problem};
ghost use Rattle.charts.specs.Sets.{Priced};

use charts::{Chart, Valued};
use orders::CostOrder;

// Sets of the chart's columns that cover and are better than the bound, or, unless they are to be strictly so, no worse. A struct
// and no enum around the bound: both kinds read the same value, and the definitions take the flag as a test. The fact is truncated, because nothing says that totals of any kind have at most one proof of being equal.
#[derive(Drop)]
pub struct Quest<'a, O: CostOrder, C: Chart> {
    pub order: &'a O,
    pub chart: &'a C,
    pub bound: Valued<O::Total>,
    pub strict: bool,
    ghost priced: { ∥ Priced (problem (O.CostOrder.meaning order.now) (C.Chart.grid chart.now)) (O.CostOrder.exact order.now bound.total) bound.size (member bound.set) ∥₁ },
}
