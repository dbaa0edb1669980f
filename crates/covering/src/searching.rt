// The search for the best set of columns.
ghost use Rattle.std.specs.Prelude.{◌≡◌, length, is_some, IfSome};
ghost use Rattle.std.specs.List.{list_all};
ghost use Rattle.charts.specs.Best.{problem, columns, covering, total_of, best_set, BestSet};
ghost use Rattle.fixed.specs.Sets.{member};
ghost use Rattle.charts.specs.Sets.{columns_in, is_held};
ghost use Rattle.reductions.specs.Spares.{needs as needs_of};

use crate::earliest::earliest;
use crate::seeking::least;
use charts::{Chart, ColumnSet, Valued};
use orders::CostOrder;
use reductions::held_by;

// Whether the set holds every need.
fn covers<C: Chart>(chart: &C, set: &ColumnSet) -> bool
    ensures { result ≡ list_all (is_held (C.Chart.grid chart.now) (member set.now)) (needs_of (C.Chart.grid chart.now)) }
{
    (0..chart.needs()).all(|need| held_by(chart, set, need))
}

// The best set of columns: of the sets that cover, the least total; among totals that cost the same, the fewest columns; among
// these the earliest. None where all columns together leave a need.
pub fn search<O: CostOrder, C: Chart>(order: &O, chart: &C) -> Option<Valued<O::Total>>
    ensures answered { is_some result ≡ covering (C.Chart.grid chart.now) (columns (C.Chart.grid chart.now)) }
    ensures set { IfSome result (λ v. columns_in v.set ≡ best_set (problem (O.CostOrder.meaning order.now) (C.Chart.grid chart.now))) }
    ensures size { IfSome result (λ v. v.size ≡ length (best_set (problem (O.CostOrder.meaning order.now) (C.Chart.grid chart.now)))) }
    ensures total { IfSome result (λ v. O.CostOrder.exact order.now v.total ≡ total_of (problem (O.CostOrder.meaning order.now) (C.Chart.grid chart.now)) (best_set (problem (O.CostOrder.meaning order.now) (C.Chart.grid chart.now)))) }
    ensures best { BestSet (problem (O.CostOrder.meaning order.now) (C.Chart.grid chart.now)) }
{
    if !covers(chart, &ColumnSet::all()) {
        return None;
    }
    let good = least(order, chart);
    let best = earliest(order, chart, &good);
    Some(Valued {
        set: best.set.below(chart.columns()),
        ..best
    })
}
