// Of the best covers the earliest, column by column.
ghost use Rattle.std.specs.Prelude.{◌<◌};
ghost use Rattle.charts.specs.Best.{problem};
ghost use Rattle.fixed.specs.Sets.{member};
ghost use Rattle.charts.specs.Sets.{Least, FirstBest};
ghost use Rattle.reductions.specs.Trails.{taken, banned};
ghost use Rattle.charts.specs.Sets.{Priced};
ghost use Rattle.covering.specs.Splitting.{Asks};

use crate::quest::Quest;
use charts::{Chart, ColumnSet, Valued, value_of};
use orders::CostOrder;
use reductions::Node;

// The sets that are the same as this one before the column `j`, and have `j`.
fn split(set: &ColumnSet, j: usize) -> Node
    requires { j < 256 }
    ensures { Asks (member set.now) (taken result) (banned result) j }
{
    let mut taken = set.below(j);
    taken.insert(j);
    Node {
        taken,
        banned: ColumnSet::from_fn_below(j, |k| !set.contains(k)),
    }
}

// The earliest set that is as good as one than which none is better: a column is kept when a set as good has it and the same before it.
pub(crate) fn earliest<O: CostOrder, C: Chart>(
    order: &O,
    chart: &C,
    good: &Valued<O::Total>,
) -> Valued<O::Total>
    requires least { Least (problem (O.CostOrder.meaning order.now) (C.Chart.grid chart.now)) (member good.now.set) }
    requires value { Priced (problem (O.CostOrder.meaning order.now) (C.Chart.grid chart.now)) (O.CostOrder.exact order.now good.now.total) good.now.size (member good.now.set) }
    ensures first { FirstBest (problem (O.CostOrder.meaning order.now) (C.Chart.grid chart.now)) (member result.set) }
    ensures value { Priced (problem (O.CostOrder.meaning order.now) (C.Chart.grid chart.now)) (O.CostOrder.exact order.now result.total) result.size (member result.set) }
{
    // A loop: each turn may change the set that the next one asks about.
    let mut best = *good;
    for j in 0..chart.columns() {
        if best.set.contains(j) {
            continue;
        }
        let quest = Quest {
            order,
            chart,
            bound: best,
            strict: false,
        };
        let Some(set) = quest.find(&split(&best.set, j)) else {
            continue;
        };
        best = value_of(order, chart, &set);
    }
    best
}
