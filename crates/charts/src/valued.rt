// What a set of columns costs, and which of two sets is better.
ghost use Rattle.std.specs.Prelude.{◌≡◌};
ghost use Rattle.orders.specs.Orders.{OnTotals};
ghost use Rattle.charts.specs.Best.{problem, beats};
ghost use Rattle.fixed.specs.Sets.{member};
ghost use Rattle.charts.specs.Sets.{Priced, cost, size, passes};

use crate::chart::Chart;
use crate::columns::ColumnSet;
use orders::CostOrder;

// A set with its total and its number of columns. That they are the set's (`Priced`) is a clause of what gives such a value: as a
// field it would tie the type to an order and a chart. Functions take the order and the chart as two parameters: a struct of the
// two references would make each clause say `self.now.order.now` and `self.now.chart.now`.
#[derive(Clone, Copy)]
pub struct Valued<T> {
    pub total: T,
    pub size: usize,
    pub set: ColumnSet,
}

// The value of a set.
pub fn value_of<O: CostOrder, C: Chart>(order: &O, chart: &C, set: &ColumnSet) -> Valued<O::Total>
    ensures total { O.CostOrder.exact order.now result.total ≡ cost (problem (O.CostOrder.meaning order.now) (C.Chart.grid chart.now)) (member set.now) }
    ensures size { result.size ≡ size (C.Chart.grid chart.now) (member set.now) }
    ensures set { result.set ≡ set.now }
    ensures priced { Priced (problem (O.CostOrder.meaning order.now) (C.Chart.grid chart.now)) (O.CostOrder.exact order.now result.total) result.size (member result.set) }
{
    // A loop: one pass sums and counts; as chains it would be two passes over the same columns.
    let mut total = order.empty();
    let mut size = 0;
    for k in 0..chart.columns() {
        if !set.contains(k) {
            continue;
        }
        let price = chart.price(order, k);
        total = order.join(price, total);
        size += 1;
    }
    Valued {
        total,
        size,
        set: *set,
    }
}

// Whether a total `a` of `x` columns is better than `b` of `y`: it is less, or it is no more and `x` is fewer.
pub fn is_better<O: CostOrder>(order: &O, a: O::Total, x: usize, b: O::Total, y: usize) -> bool
    ensures { OnTotals (O.CostOrder.meaning order.now) (O.CostOrder.exact order.now a) (O.CostOrder.exact order.now b) (result ≡ beats (O.CostOrder.meaning order.now) (O.CostOrder.exact order.now a) x (O.CostOrder.exact order.now b) y) }
{
    if !order.at_most(b, a) {
        return true;
    }
    if !order.at_most(a, b) {
        return false;
    }
    x < y
}

// Whether `a` is better than `b`, or, unless it is to be strictly so, no worse. Both kinds of asking compare the same two
// values, so the kind is a flag and no enum around them.
pub fn is_fine<O: CostOrder>(
    order: &O,
    a: &Valued<O::Total>,
    b: &Valued<O::Total>,
    strict: bool,
) -> bool
    ensures { OnTotals (O.CostOrder.meaning order.now) (O.CostOrder.exact order.now a.now.total) (O.CostOrder.exact order.now b.now.total) (result ≡ passes (O.CostOrder.meaning order.now) strict (O.CostOrder.exact order.now a.now.total) a.now.size (O.CostOrder.exact order.now b.now.total) b.now.size) }
{
    if strict {
        is_better(order, a.total, a.size, b.total, b.size)
    } else {
        !is_better(order, b.total, b.size, a.total, a.size)
    }
}

// Whether the column `a` costs no more than `b`.
pub fn no_dearer<O: CostOrder, C: Chart>(order: &O, chart: &C, a: usize, b: usize) -> bool
    ensures { result ≡ (O.CostOrder.meaning order.now).at_most ((O.CostOrder.meaning order.now).price ((C.Chart.grid chart.now).term a)) ((O.CostOrder.meaning order.now).price ((C.Chart.grid chart.now).term b)) }
{
    let first = chart.price(order, a);
    let second = chart.price(order, b);
    order.at_most(first, second)
}
