// One look at a node.
ghost use Rattle.fixed.specs.Sets.{member};
ghost use Rattle.charts.specs.Best.{problem};
ghost use Rattle.covering.specs.Seeking.{Seen};

use crate::choosing::{hardest_need, widest_column};
use crate::quest::Quest;
use crate::turn::Turn;
use charts::{Chart, is_fine, value_of};
use orders::CostOrder;
use reductions::Node;

impl<O: CostOrder, C: Chart> Quest<'_, O, C> {
    // Looks at the sets of a node.
    pub(crate) fn look(&self, node: &Node) -> Turn
        ensures { Seen (problem (O.CostOrder.meaning self.now.order.now) (C.Chart.grid self.now.chart.now)) self.now.strict (member self.now.bound.set) node.now result }
    {
        let here = value_of(self.order, self.chart, &node.taken);
        if !is_fine(self.order, &here, &self.bound, self.strict) {
            return Turn::Dead;
        }
        let Some(need) = hardest_need(self.chart, node) else {
            return Turn::Found;
        };
        let Some(column) = widest_column(self.chart, node, need) else {
            return Turn::Dead;
        };
        if self.is_hopeless(node, &here) {
            return Turn::Dead;
        }
        Turn::Take(column)
    }
}
