// The search for a good set: a walk along a trail.
ghost use Rattle.std.specs.Prelude.{◌≡◌, ℕ, Bool, true, false, MatchOption};
ghost use Rattle.fixed.specs.Sets.{member};
ghost use Rattle.charts.specs.Best.{problem};
ghost use Rattle.charts.specs.Sets.{Covers, Least};
ghost use Rattle.reductions.specs.Goals.{Good};
ghost use Rattle.reductions.specs.Trails.{taken, banned};
ghost use Rattle.charts.specs.Sets.{Priced};
ghost use Rattle.covering.specs.Seeking.{Ended};

use crate::quest::Quest;
use crate::turn::Turn;
use charts::{Chart, ColumnSet, Valued, value_of};
use orders::CostOrder;
use reductions::{Node, Trail, reduce};

impl<O: CostOrder, C: Chart> Quest<'_, O, C> {
    // Goes on along the trail until the taken columns of its node are a good set, which it gives, or until nothing is left.
    fn advance(&self, trail: &mut Trail) -> Option<ColumnSet>
        ensures { Ended (problem (O.CostOrder.meaning self.now.order.now) (C.Chart.grid self.now.chart.now)) self.now.strict (member self.now.bound.set) trail.old trail.new result }
    {
        loop {
            reduce(self.order, self.chart, trail);
            match self.look(trail.node()) {
                Turn::Found => {
                    return Some(trail.node().taken);
                }
                Turn::Dead => {
                    if !trail.back_up() {
                        return None;
                    }
                }
                Turn::Take(column) => {
                    trail.fix(column, true, true);
                }
            }
        }
    }

    // A good set that has the root's taken columns and lacks its banned ones.
    pub(crate) fn find(&self, root: &Node) -> Option<ColumnSet>
        requires { (k : ℕ) → taken root.now k ≡ true → banned root.now k ≡ false }
        ensures { MatchOption result ((d : ℕ → Bool) → Good (problem (O.CostOrder.meaning self.now.order.now) (C.Chart.grid self.now.chart.now)) self.now.strict (member self.now.bound.set) (taken root.now) (banned root.now) d → ⊥) (λ s. Good (problem (O.CostOrder.meaning self.now.order.now) (C.Chart.grid self.now.chart.now)) self.now.strict (member self.now.bound.set) (taken root.now) (banned root.now) (member s)) }
    {
        let mut trail = Trail::new(root);
        self.advance(&mut trail)
    }
}

// A set that covers such that none is better, with its value: each set found is the bound for the next.
pub(crate) fn least<O: CostOrder, C: Chart>(order: &O, chart: &C) -> Valued<O::Total>
    requires { Covers (C.Chart.grid chart.now) (λ _. true) }
    ensures least { Least (problem (O.CostOrder.meaning order.now) (C.Chart.grid chart.now)) (member result.set) }
    ensures value { Priced (problem (O.CostOrder.meaning order.now) (C.Chart.grid chart.now)) (O.CostOrder.exact order.now result.total) result.size (member result.set) }
{
    let root = Node {
        taken: ColumnSet::none(),
        banned: ColumnSet::none(),
    };
    let mut trail = Trail::new(&root);
    let mut best = value_of(order, chart, &ColumnSet::all());
    loop {
        let quest = Quest {
            order,
            chart,
            bound: best,
            strict: true,
        };
        let Some(set) = quest.advance(&mut trail) else {
            return best;
        };
        best = value_of(order, chart, &set);
        if !trail.back_up() {
            return best;
        }
    }
}
