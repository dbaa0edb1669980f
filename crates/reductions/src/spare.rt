// Columns that can be done without.
ghost use Rattle.std.specs.Prelude.{◌≡◌};
ghost use Rattle.charts.specs.Best.{problem};
ghost use Rattle.fixed.specs.Sets.{member};
ghost use Rattle.reductions.specs.Spares.{is_useless, stands_in, is_outdone, is_spare};

use crate::needs::NeedSet;
use charts::{Chart, ColumnSet, no_dearer};
use orders::CostOrder;

// Whether the column `a` holds none of the needs.
fn is_useless<C: Chart>(chart: &C, needs: &NeedSet, a: usize) -> bool
    ensures { result ≡ is_useless (C.Chart.grid chart.now) (member needs.now) a }
{
    (0..chart.needs())
        .filter(|need| needs.contains(*need))
        .all(|need| !chart.holds(a, need))
}

// Whether the column `b` holds each of the needs that `a` holds.
fn stands_in<C: Chart>(chart: &C, needs: &NeedSet, a: usize, b: usize) -> bool
    ensures { result ≡ stands_in (C.Chart.grid chart.now) (member needs.now) a b }
{
    (0..chart.needs())
        .filter(|need| needs.contains(*need))
        .filter(|need| chart.holds(a, *need))
        .all(|need| chart.holds(b, need))
}

// Whether another column that is not left out holds as much as `a` and costs no more.
fn is_outdone<O: CostOrder, C: Chart>(
    order: &O,
    chart: &C,
    left_out: &ColumnSet,
    needs: &NeedSet,
    a: usize,
) -> bool
    ensures { result ≡ is_outdone (problem (O.CostOrder.meaning order.now) (C.Chart.grid chart.now)) (member left_out.now) (member needs.now) a }
{
    (0..chart.columns())
        .filter(|b| *b != a)
        .filter(|b| !left_out.contains(*b))
        .filter(|b| no_dearer(order, chart, *b, a))
        .any(|b| stands_in(chart, needs, a, b))
}

// Whether the column can be done without: it holds none of the needs, or another holds as much and costs no more.
pub(crate) fn is_spare<O: CostOrder, C: Chart>(
    order: &O,
    chart: &C,
    left_out: &ColumnSet,
    needs: &NeedSet,
    a: usize,
) -> bool
    ensures { result ≡ is_spare (problem (O.CostOrder.meaning order.now) (C.Chart.grid chart.now)) (member left_out.now) (member needs.now) a }
{
    is_useless(chart, needs, a) || is_outdone(order, chart, left_out, needs, a)
}
