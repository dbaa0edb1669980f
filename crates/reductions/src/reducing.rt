// The reductions at a node. The order and the chart stay two parameters: in a struct of the two, each clause would name them by longer paths.
// That each pass narrows the trail is one named relation of two trails: no type holds the trail before.
ghost use Rattle.charts.specs.Best.{problem};
ghost use Rattle.reductions.specs.Goals.{Narrowed};

use crate::columns_left::{held_by, only_column};
use crate::needs::methods::needs_to_hold;
use crate::spare::is_spare;
use crate::trail::Trail;
use charts::Chart;
use orders::CostOrder;

// Takes each column that is the only one left for a need.
fn take_singles<O: CostOrder, C: Chart>(order: &O, chart: &C, trail: &mut Trail)
    ensures { Narrowed (problem (O.CostOrder.meaning order.now) (C.Chart.grid chart.now)) trail.old trail.new }
{
    // A loop: each step changes the trail that the next turn asks.
    for need in 0..chart.needs() {
        if !held_by(chart, &trail.node().taken, need)
            && let Some(column) = only_column(chart, &trail.node().banned, need)
        {
            trail.fix(column, true, false);
        }
    }
}

// Bans each free column that can be done without.
fn drop_columns<O: CostOrder, C: Chart>(order: &O, chart: &C, trail: &mut Trail)
    ensures { Narrowed (problem (O.CostOrder.meaning order.now) (C.Chart.grid chart.now)) trail.old trail.new }
{
    let needs = needs_to_hold(chart, trail.node());
    // A loop, for the same reason.
    for column in 0..chart.columns() {
        if trail.is_free(column) && is_spare(order, chart, &trail.node().banned, &needs, column) {
            trail.fix(column, false, false);
        }
    }
}

// Takes and bans what the node leaves no choice about, until nothing changes. No good set is lost, whatever is sought.
pub fn reduce<O: CostOrder, C: Chart>(order: &O, chart: &C, trail: &mut Trail)
    ensures { Narrowed (problem (O.CostOrder.meaning order.now) (C.Chart.grid chart.now)) trail.old trail.new }
{
    loop {
        let before = trail.len();
        take_singles(order, chart, trail);
        drop_columns(order, chart, trail);
        if trail.len() == before {
            return;
        }
    }
}
