// What a set costs at least: needs that share no column want a column each.
ghost use Rattle.std.specs.Prelude.{◌≡◌, ℕ, ◌<◌, true, ◌&&◌, ◌||◌, nat_lt};
ghost use Rattle.std.specs.List.{list_all, reduce};
ghost use Rattle.fixed.specs.Sets.{member};
ghost use Rattle.charts.specs.Best.{problem};
ghost use Rattle.reductions.specs.Spares.{is_left, left_for};
ghost use Rattle.reductions.specs.Trails.{taken, banned};
ghost use Rattle.covering.specs.Floors.{is_unused, cheaper};
ghost use Rattle.charts.specs.Sets.{Priced};
ghost use Rattle.covering.specs.Seeking.{Barren};

use crate::quest::Quest;
use charts::{Chart, ColumnSet, Valued, is_fine, no_dearer};
use orders::CostOrder;
use reductions::{Node, is_left};

// Whether the column is neither taken nor used.
fn is_unused(node: &Node, used: &ColumnSet, column: usize) -> bool
    ensures { result ≡ is_unused (taken node.now) (member used.now) column }
{
    !node.taken.contains(column) && !used.contains(column)
}

// Whether no column that is left for the need is taken or used.
fn is_apart<C: Chart>(chart: &C, node: &Node, used: &ColumnSet, need: usize) -> bool
    ensures { result ≡ list_all (is_unused (taken node.now) (member used.now)) (left_for (C.Chart.grid chart.now) (banned node.now) need) }
{
    (0..chart.columns())
        .filter(|column| !is_unused(node, used, *column))
        .all(|column| !is_left(chart, &node.banned, need, column))
}

// The cheaper of two columns; the first where they cost the same.
fn cheaper<O: CostOrder, C: Chart>(order: &O, chart: &C, a: usize, b: usize) -> usize
    ensures { result ≡ cheaper (problem (O.CostOrder.meaning order.now) (C.Chart.grid chart.now)) a b }
{
    if no_dearer(order, chart, a, b) { a } else { b }
}

// The cheapest column that is left for the need.
fn cheapest<O: CostOrder, C: Chart>(
    order: &O,
    chart: &C,
    left_out: &ColumnSet,
    need: usize,
) -> Option<usize>
    ensures { result ≡ reduce (cheaper (problem (O.CostOrder.meaning order.now) (C.Chart.grid chart.now))) (left_for (C.Chart.grid chart.now) (member left_out.now) need) }
{
    (0..chart.columns())
        .filter(|column| is_left(chart, left_out, need, *column))
        .reduce(|best, column| cheaper(order, chart, best, column))
}

// Marks the columns that are left for the need as used.
fn use_columns<C: Chart>(chart: &C, left_out: &ColumnSet, need: usize, used: &mut ColumnSet)
    ensures { (c : ℕ) → c < 256 → member used.new c ≡ (member used.old c || nat_lt c (C.Chart.grid chart.now).width && is_left (C.Chart.grid chart.now) (member left_out.now) need c) }
{
    // A loop: each turn may put a column into the set.
    for column in 0..chart.columns() {
        if is_left(chart, left_out, need, column) {
            used.insert(column);
        }
    }
}

impl<O: CostOrder, C: Chart> Quest<'_, O, C> {
    // Whether needs without a common column cost so much that no set of the node is good enough. `here` is the value of what is taken.
    pub(crate) fn is_hopeless(&self, node: &Node, here: &Valued<O::Total>) -> bool
        requires { Priced (problem (O.CostOrder.meaning self.now.order.now) (C.Chart.grid self.now.chart.now)) (O.CostOrder.exact self.now.order.now here.now.total) here.now.size (taken node.now) }
        ensures { result ≡ true → Barren (problem (O.CostOrder.meaning self.now.order.now) (C.Chart.grid self.now.chart.now)) self.now.strict (member self.now.bound.set) node.now }
    {
        // A loop: each turn changes the total and the set that the next one reads.
        let mut low = *here;
        let mut used = ColumnSet::none();
        for need in 0..self.chart.needs() {
            if low.size >= 256 {
                continue;
            }
            if !is_apart(self.chart, node, &used, need) {
                continue;
            }
            let Some(column) = cheapest(self.order, self.chart, &node.banned, need) else {
                continue;
            };
            let price = self.chart.price(self.order, column);
            low.total = self.order.join(price, low.total);
            low.size += 1;
            use_columns(self.chart, &node.banned, need, &mut used);
        }
        !is_fine(self.order, &low, &self.bound, self.strict)
    }
}
